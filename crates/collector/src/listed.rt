//! The records of a CPU, one by one.
ghost use Rattle.std.specs.Prelude.{◌≡◌, ℕ, ◌<◌, ◌≤◌, Some, IfSome, IfNone};
ghost use Rattle.trace_model.specs.Record.{Record};
ghost use Rattle.trace_model.specs.Collection.{Has};
ghost use Rattle.collector.specs.Listed.{GoOn};

use crate::collector::Collector;
use crate::entries::records_from;
use crate::ranges::Content;
use page_borrow::{Entry, Records};
use std::fmt;
use std::iter::FusedIterator;
use std::marker::Model;
use trace_model::{CpuId, RecordNo};

/// Entries of one kept parcel, which continue with this number and with all after it up to the end.
#[derive(Drop)]
struct Kept<'a> {
    entries: Records<'a>,
    number: u64,
    end: u64,
}

/// The records of a CPU by rising number, as entries whose bytes are the kept pages' own.
#[derive(Drop)]
pub struct CpuRecords<'a> {
    collector: &'a Collector,
    cpu: CpuId,
    /// Entries of the kept parcel that is being read.
    entries: Option<Records<'a>>,
    /// The records that are left are those from this number on.
    number: u64,
    /// Up to this number they are those of the entries.
    end: u64,
}

impl<'a> Model for CpuRecords<'a> {
    ghost use Rattle.std.specs.Prelude.{ℕ, List};
    ghost use Rattle.trace_model.specs.Record.{Record};
    ghost use Rattle.collector.specs.Listed.{GoOnIfAny, records_left};

    ghost Value = { List (ℕ × Record) };

    ghost view = { λ r. records_left r.collector.now r.cpu.0 r.number };

    ghost invariant = { λ r. GoOnIfAny r.collector.now r.cpu.0 r.entries r.number r.end };
}

/// The CPU, and from which number on the records are left.
impl<'a> fmt::Debug for CpuRecords<'a> {
    fn fmt<W: fmt::Write>(&self, f: &mut fmt::Formatter<W>) -> fmt::Result {
        f.debug_struct("CpuRecords")
            .field("cpu", &self.cpu)
            .field("number", &self.number)
            .finish_non_exhaustive()
    }
}

/// The kept parcel that this names.
fn kept_index(content: Option<Content>) -> Option<usize>
    ensures kept { IfSome result (λ i. content ≡ Some (Content.Kept i)) }
    ensures other { IfNone result ((i : ℕ) → content ≡ Some (Content.Kept i) → ⊥) }
{
    match content {
        Some(Content::Kept(index)) => Some(index),
        Some(Content::Missing) | None => None,
    }
}

/// The entries of the first record of a CPU from this number on, and of those after it in its parcel.
// (It is called once for a parcel, and would be in the way of the next record.)
#[inline(never)]
fn next_kept(collector: &Collector, cpu: CpuId, number: u64) -> Option<Kept<'_>>
    ensures from { IfSome result (λ kept. number ≤ kept.number) }
    ensures forward { IfSome result (λ kept. kept.number < kept.end) }
    ensures fits { IfSome result (λ kept. kept.end ≤ u64.MAX) }
    ensures skipped { IfSome result (λ kept. (m : ℕ) (r : Record) → number ≤ m → m < kept.number
        → Has collector.now cpu.0 m r → ⊥) }
    ensures entries { IfSome result (λ kept. GoOn collector.now cpu.0 kept.entries kept.number kept.end) }
    ensures none { IfNone result ((m : ℕ) (r : Record) → number ≤ m → m < u64.MAX
        → Has collector.now cpu.0 m r → ⊥) }
{
    let mut at = number;
    while at < u64::MAX {
        let stretch = collector.stretch(cpu, at);
        if let Some(index) = kept_index(stretch.content) {
            return Some(Kept {
                entries: records_from(collector.parcel(index), at),
                number: at,
                end: stretch.end,
            });
        }
        at = stretch.end;
    }
    None
}

impl<'a> Iterator for CpuRecords<'a> {
    ghost use Rattle.std.specs.Iterator.{YieldsFirstBy, item_count};
    ghost use Rattle.page_borrow.specs.Entries.{numbered_record};

    type Item = Entry<'a>;

    // Each call gives the first of the records that are left.
    ghost next_gives = { YieldsFirstBy numbered_record (λ left. left) };

    ghost remaining = { item_count (λ left. left) };

    #[inline(always)]
    fn next(&mut self) -> Option<Entry<'a>> {
        if self.number >= self.end {
            let Some(kept) = next_kept(self.collector, self.cpu, self.number) else {
                return None;
            };
            self.entries = Some(kept.entries);
            self.number = kept.number;
            self.end = kept.end;
        }
        let Some(entries) = &mut self.entries else {
            return None;
        };
        let Some(entry) = entries.next() else {
            return None;
        };
        self.number += 1;
        Some(entry)
    }
}

impl<'a> FusedIterator for CpuRecords<'a> {}

impl Collector {
    ghost use Rattle.std.specs.Prelude.{List, drop};
    ghost use Rattle.std.specs.List.{slice_get};
    ghost use Rattle.collector.specs.Listed.{AreRecordsOf, AreRecordsFrom};

    /// The records of a CPU by rising number, each with its bytes as they are in a kept page.
    pub fn records(&self, cpu: CpuId) -> CpuRecords<'_>
        ensures { AreRecordsOf self.now cpu.0 result }
    {
        self.records_from(cpu, RecordNo(0))
    }

    /// The records of a CPU from this number on, as `records` gives them. The first one is found in logarithmic time,
    /// and by passing over those before it in its page.
    pub fn records_from(&self, cpu: CpuId, number: RecordNo) -> CpuRecords<'_>
        ensures from { AreRecordsFrom self.now cpu.0 number.0 result }
        // In the list of all records of the CPU they are those from the one of this number on.
        ensures rest { (list : List (ℕ × Record)) (k : ℕ) (r : Record) → AreRecordsOf self.now cpu.0 list
            → slice_get list k ≡ Some (number.0, r) → result ≡ drop k list }
    {
        let _parcels = self.parcels();
        CpuRecords {
            collector: self,
            cpu,
            entries: None,
            number: number.0,
            end: 0,
        }
    }
}
