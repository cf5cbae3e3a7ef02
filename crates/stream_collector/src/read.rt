//! Reading what is known.
use crate::stream::StreamCollector;
use collector::{CpuRecords, MissingRuns};
use page_borrow::Entry;
use page_numbers::Parcel;
use trace_model::{CpuId, RecordNo};

impl StreamCollector {
    ghost use Rattle.std.specs.Prelude.{◌≡◌, ℕ, ◌<◌, ◌≤◌, IfSome, IfNone};
    ghost use Rattle.trace_model.specs.Record.{Record};
    ghost use Rattle.trace_model.specs.Collection.{Agree};
    ghost use Rattle.page_borrow.specs.Entries.{numbered_record};
    ghost use Rattle.page_numbers.specs.Parcels.{as_parcels};
    ghost use Rattle.collector.specs.Sound.{AreSound};
    ghost use Rattle.collector.specs.Listed.{AreRecordsFrom};
    ghost use Rattle.collector.specs.Runs.{AreMissingRuns};
    ghost use Rattle.stream_collector.specs.Stream.{bound_of, end_of, HasRecord, IsUpToEnd, IsOpen, HasOutcome};
    ghost use Rattle.stream_collector.specs.Marking.{IsNotOpen};

    /// The bound of a CPU: what is below it is kept no longer. It is 0 if nothing was forgotten.
    pub fn bound(&self, cpu: CpuId) -> RecordNo
        ensures { result.0 ≡ bound_of self.now cpu.0 }
    {
        RecordNo(self.marks(cpu).bound)
    }

    /// How many records a CPU has, if that is known. Each number of the CPU that has a record, is missing, was given up
    /// or is below the bound is below it.
    pub fn end_mark(&self, cpu: CpuId) -> Option<RecordNo>
        ensures end { IfSome result (λ end. end_of self.now cpu.0 ≡ Some end.0) }
        ensures none { IfNone result (end_of self.now cpu.0 ≡ None) }
        ensures within { IfSome result (λ end. (n : ℕ) → IsNotOpen self.now cpu.0 n → n < end.0) }
    {
        let _known = &self.known;
        self.marks(cpu).end.map(RecordNo)
    }

    /// What was given up, as parcels without a record, which miss those numbers. They may overlap.
    pub fn given_up_parcels(&self) -> &[Parcel]
        ensures { as_parcels result.now ≡ self.now.given_up }
    {
        self.given_up.parcels()
    }

    /// The record of a CPU under a number from its bound on, if there is one.
    pub fn get(&self, cpu: CpuId, number: RecordNo) -> Option<Entry<'_>>
        ensures number { IfSome result (λ entry. (numbered_record entry).0 ≡ number.0) }
        ensures has { IfSome result (λ entry. HasRecord self.now cpu.0 number.0 (numbered_record entry).1) }
        ensures none { IfNone result ((r : Record) → HasRecord self.now cpu.0 number.0 r → ⊥) }
    {
        if number < self.bound(cpu) {
            return None;
        }
        self.known.get(cpu, number)
    }

    /// The records of a CPU from its bound on, by rising number, each with its bytes as they are in a kept page.
    pub fn records(&self, cpu: CpuId) -> CpuRecords<'_>
        ensures { AreRecordsFrom self.now.parcels cpu.0 (bound_of self.now cpu.0) result }
    {
        self.known.records_from(cpu, self.bound(cpu))
    }

    /// The kept parcels, in the order in which they were added. They agree. With the marks and what was given up they
    /// are all that is known of the stream.
    pub fn parcels(&self) -> &[Parcel]
        ensures parcels { as_parcels result.now ≡ self.now.parcels }
        ensures agree { Agree self.now.parcels }
        ensures sound { AreSound self.now.parcels }
    {
        self.known.parcels()
    }

    /// The runs of the numbers of a CPU that were given up as undelivered, those below its bound too, whether they came
    /// later or not.
    pub fn given_up(&self, cpu: CpuId) -> MissingRuns<'_>
        ensures { AreMissingRuns self.now.given_up cpu.0 result }
    {
        self.given_up.missing(cpu)
    }

    /// The least number of a CPU, from its bound on, that neither has a record, nor is missing, nor was given up. If
    /// any number is unknown yet, it is the least of those. The bound may be raised up to it. It is at most the CPU's
    /// end.
    pub fn watermark(&self, cpu: CpuId) -> RecordNo
        ensures open { IsOpen self.now cpu.0 result.0 }
        ensures accounted { (n : ℕ) → bound_of self.now cpu.0 ≤ n → n < result.0 → HasOutcome self.now cpu.0 n }
        ensures within { IsUpToEnd self.now cpu.0 result.0 }
    {
        let mut at = self.bound(cpu);
        loop {
            let unknown = self.known.first_unknown(cpu, at);
            let kept_up = self.given_up.first_unknown(cpu, unknown);
            if kept_up == unknown {
                return unknown;
            }
            at = kept_up;
        }
    }
}
