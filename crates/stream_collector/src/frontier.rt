//! Up to which moment a stream is known.
ghost use Rattle.std.specs.Prelude.{◌≡◌, ℕ, ◌<◌, ◌≤◌, ◌⊎◌, ◌↔◌, Some, IsTrue, IfSome, IfNone};
ghost use Rattle.trace_model.specs.declared.numbers.Moment.{Moment as MomentSeen};

use crate::stream::StreamCollector;
use collector::KnownCpus;
use page_borrow::Entry;
use trace_model::{CpuId, Moment, RecordNo};

/// The earlier one of the moments that are there.
pub fn earlier(own: Option<Moment>, other: Option<Moment>) -> Option<Moment>
    ensures of_them { (result ≡ own) ⊎ (result ≡ other) }
    ensures own { (m : MomentSeen) → own ≡ Some m → (r : MomentSeen) × (result ≡ Some r) × (r.0 ≤ m.0) }
    ensures other { (m : MomentSeen) → other ≡ Some m → (r : MomentSeen) × (result ≡ Some r) × (r.0 ≤ m.0) }
{
    let Some(moment) = own else {
        return other;
    };
    let Some(that) = other else {
        return own;
    };
    if moment.0 <= that.0 { own } else { other }
}

impl StreamCollector {
    ghost use Rattle.trace_model.specs.Record.{Record};
    ghost use Rattle.trace_model.specs.Collection.{Has};
    ghost use Rattle.page_borrow.specs.Entries.{numbered_record};
    ghost use Rattle.std.specs.List.{Contains};
    ghost use Rattle.std.specs.List.Sorted.{IsStrictlyIncreasing};
    ghost use Rattle.stream_collector.specs.Marks.{marks_at, SaySomething};
    ghost use Rattle.stream_collector.specs.Frontier.{IsFrontier, IsComplete, IsHeldAt, IsCpuThere};
    ghost use Rattle.stream_collector.specs.Frontier.{IsNotAfter, IsOfOne};

    /// The moment up to which all is known, if each CPU's moments never fall: the least of those of the last records
    /// before the watermarks, or 0 if a CPU has no record there, over the CPUs that aren't complete. It is none if each
    /// CPU of which something is there is complete, or there is none. What comes later is at or after it, but for
    /// records of a CPU of which nothing is there yet. It takes no memory, and logarithmic time for each CPU but for a
    /// pass over some records of a page.
    pub fn frontier(&self) -> Option<Moment>
        ensures { IsFrontier self.now result }
    {
        let marked = self.least_of_marked();
        let known = self.least_of(self.known_cpus(), marked);
        self.least_of(self.given_up_cpus(), known)
    }

    /// The least moment at which one of the CPUs that have marks is held.
    fn least_of_marked(&self) -> Option<Moment>
        ensures of_one { IsOfOne self.now result }
        ensures least { (cpu : ℕ) → SaySomething (marks_at self.now.marks cpu) → IsNotAfter self.now result cpu }
    {
        let mut least = None;
        for cpu in self.marked_cpus() {
            least = earlier(least, self.held_at(cpu));
        }
        least
    }

    /// The least of this moment and those at which one of these CPUs is held.
    fn least_of(&self, cpus: KnownCpus<'_>, before: Option<Moment>) -> Option<Moment>
        requires rising { IsStrictlyIncreasing cpus }
        requires there { (cpu : ℕ) → Contains cpus cpu → IsCpuThere self.now cpu }
        requires of_one { IsOfOne self.now before }
        ensures of_one { IsOfOne self.now result }
        ensures before { (cpu : ℕ) → IsNotAfter self.now before cpu → IsNotAfter self.now result cpu }
        ensures least { (cpu : ℕ) → Contains cpus.entry cpu → IsNotAfter self.now result cpu }
    {
        let mut least = before;
        for cpu in cpus {
            least = earlier(least, self.held_at(cpu));
        }
        least
    }

    /// The moment of the last record of a CPU before its watermark, or 0 if there is none, unless the CPU is complete.
    fn held_at(&self, cpu: CpuId) -> Option<Moment>
        ensures complete { IfNone result (IsComplete self.now cpu.0) }
        ensures held { IfSome result (λ moment. IsHeldAt self.now cpu.0 moment.0) }
    {
        let marks = self.marks(cpu);
        let watermark = self.watermark(cpu);
        if is_end(marks.end, watermark.0) {
            return None;
        }
        match self.last_record(cpu, marks.bound, watermark.0) {
            Some(entry) => Some(entry.moment),
            None => Some(Moment(0)),
        }
    }

    /// The last record of a CPU from a number on and below an end. The numbers between are halved.
    fn last_record(&self, cpu: CpuId, from: u64, end: u64) -> Option<Entry<'_>>
        ensures there { IfSome result (λ e. Has self.now.parcels cpu.0 e.number.0 (numbered_record e).1) }
        ensures from { IfSome result (λ e. from ≤ e.number.0) }
        ensures below { IfSome result (λ e. e.number.0 < end) }
        ensures last { IfSome result (λ e. (n : ℕ) (r : Record) → e.number.0 < n → n < end
            → Has self.now.parcels cpu.0 n r → ⊥) }
        ensures none { IfNone result ((n : ℕ) (r : Record) → from ≤ n → n < end
            → Has self.now.parcels cpu.0 n r → ⊥) }
    {
        let Some(mut last) = self.first_record(cpu, from, end) else {
            return None;
        };
        let mut high = end;
        while last.number.0 + 1 < high {
            let next = last.number.0 + 1;
            let middle = next + (high - next) / 2;
            match self.first_record(cpu, middle, high) {
                Some(entry) => last = entry,
                None => high = middle,
            }
        }
        Some(last)
    }

    /// The first record of a CPU from a number on and below an end.
    fn first_record(&self, cpu: CpuId, from: u64, end: u64) -> Option<Entry<'_>>
        ensures there { IfSome result (λ e. Has self.now.parcels cpu.0 e.number.0 (numbered_record e).1) }
        ensures from { IfSome result (λ e. from ≤ e.number.0) }
        ensures below { IfSome result (λ e. e.number.0 < end) }
        ensures first { IfSome result (λ e. (n : ℕ) (r : Record) → from ≤ n → n < e.number.0
            → Has self.now.parcels cpu.0 n r → ⊥) }
        ensures none { IfNone result ((n : ℕ) (r : Record) → from ≤ n → n < end
            → Has self.now.parcels cpu.0 n r → ⊥) }
    {
        let mut records = self.known.records_from(cpu, RecordNo(from));
        match records.next() {
            Some(entry) => {
                if entry.number.0 < end {
                    Some(entry)
                } else {
                    None
                }
            }
            None => None,
        }
    }
}

/// Whether there is an end, and it is this number.
fn is_end(end: Option<u64>, number: u64) -> bool
    ensures { IsTrue result ↔ end ≡ Some number }
{
    match end {
        Some(end) => end == number,
        None => false,
    }
}
