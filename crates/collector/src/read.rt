//! Looking up single numbers.
use crate::collector::Collector;
use crate::entries::records_from;
use crate::ranges::Content;
use page_borrow::Entry;
use trace_model::{CpuId, RecordNo};

impl Collector {
    ghost use Rattle.std.specs.Prelude.{◌≡◌, ◌↔◌, IfSome, IfNone, IsTrue};
    ghost use Rattle.trace_model.specs.Record.{Record};
    ghost use Rattle.trace_model.specs.Collection.{Has, Misses};
    ghost use Rattle.page_borrow.specs.Entries.{numbered_record};

    /// The record of a CPU under a number, if there is one.
    pub fn get(&self, cpu: CpuId, number: RecordNo) -> Option<Entry<'_>>
        ensures number { IfSome result (λ entry. (numbered_record entry).0 ≡ number.0) }
        ensures has { IfSome result (λ entry. Has self.now cpu.0 number.0 (numbered_record entry).1) }
        ensures none { IfNone result ((r : Record) → Has self.now cpu.0 number.0 r → ⊥) }
    {
        match self.stretch(cpu, number.0).content {
            Some(Content::Kept(index)) => records_from(self.parcel(index), number.0).next(),
            Some(Content::Missing) => None,
            None => None,
        }
    }

    /// Whether a CPU's number is missing.
    pub fn is_missing(&self, cpu: CpuId, number: RecordNo) -> bool
        ensures { IsTrue result ↔ Misses self.now cpu.0 number.0 }
    {
        match self.stretch(cpu, number.0).content {
            Some(Content::Missing) => true,
            Some(Content::Kept(_)) => false,
            None => false,
        }
    }
}
