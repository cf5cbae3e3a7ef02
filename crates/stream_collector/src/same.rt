//! Whether two streams are the same.
ghost use Rattle.std.specs.Prelude.{◌≡◌, ◌↔◌, IsTrue};
ghost use Rattle.page_borrow.specs.Entries.{numbered_record};
ghost use Rattle.collector.specs.Runs.{run_numbers};

use crate::marks::Marks;
use crate::runs::StreamRuns;
use crate::stream::StreamCollector;
use collector::CpuRecords;
use page_borrow::Entry;
use trace_model::{CpuId, RecordNo};

/// Whether both have the same bound, and the same end or none.
fn is_same_marks(own: Marks, other: Marks) -> bool
    ensures { IsTrue result ↔ own ≡ other }
{
    own == other
}

/// Whether both are of the same record, with its number.
fn is_same_entry(own: &Entry<'_>, other: &Entry<'_>) -> bool
    ensures { IsTrue result ↔ numbered_record own.now ≡ numbered_record other.now }
{
    own == other
}

/// Whether both have the same records.
fn are_same_records(mut own: CpuRecords<'_>, mut others: CpuRecords<'_>) -> bool
    ensures { IsTrue result ↔ own.entry ≡ others.entry }
{
    'records: loop {
        let Some(entry) = own.next() else {
            return others.next().is_none();
        };
        let Some(other) = others.next() else {
            return false;
        };
        if !is_same_entry(&entry, &other) {
            return false;
        }
    }
}

/// Whether both are the same run.
fn is_same_run(own: (RecordNo, RecordNo), other: (RecordNo, RecordNo)) -> bool
    ensures { IsTrue result ↔ run_numbers own ≡ run_numbers other }
{
    own.0 == other.0 && own.1 == other.1
}

/// Whether both have the same runs.
fn are_same_runs(mut own: StreamRuns<'_>, mut others: StreamRuns<'_>) -> bool
    ensures { IsTrue result ↔ own.entry ≡ others.entry }
{
    'runs: loop {
        let Some(run) = own.next() else {
            return others.next().is_none();
        };
        let Some(other) = others.next() else {
            return false;
        };
        if !is_same_run(run, other) {
            return false;
        }
    }
}

impl StreamCollector {
    ghost use Rattle.std.specs.Prelude.{ℕ};
    ghost use Rattle.trace_model.specs.Record.{Record};
    ghost use Rattle.stream_collector.specs.Stream.{HasRecord, IsMissing};
    ghost use Rattle.stream_collector.specs.Same.{IsSameStream, IsKnownSame, IsUndeliveredSame};
    ghost use Rattle.stream_collector.specs.Same.{IsSameOnOwn, AllMarksSame, AllKnownSame, AllUndeliveredSame};

    /// Whether the same is known of two streams: the bound and the end of each CPU, from the bounds on the records and
    /// the missing numbers, and the undelivered numbers. It takes no memory, and time in proportion to what both keep.
    pub fn same(&self, other: &StreamCollector) -> bool
        ensures { IsTrue result ↔ IsSameStream self.now other.now }
    {
        self.same_on_own(other) && other.same_on_own(self)
    }

    /// Whether all that is known of the CPUs of which something is here is known there too, and nothing else of them.
    fn same_on_own(&self, other: &StreamCollector) -> bool
        ensures { IsTrue result ↔ IsSameOnOwn self.now other.now }
    {
        if !self.marks_same(other) {
            return false;
        }
        self.undelivered_same(other) && self.known_same(other)
    }

    /// Whether each CPU that has marks here has the same there.
    fn marks_same(&self, other: &StreamCollector) -> bool
        ensures { IsTrue result ↔ AllMarksSame self.now other.now }
    {
        for cpu in self.marked_cpus() {
            if !is_same_marks(self.marks(cpu), other.marks(cpu)) {
                return false;
            }
        }
        true
    }

    /// Whether of each CPU of which something is known here the same is known there, from the bounds on.
    fn known_same(&self, other: &StreamCollector) -> bool
        ensures { IsTrue result ↔ AllKnownSame self.now other.now }
    {
        for cpu in self.known_cpus() {
            if !self.known_same_on(other, cpu) {
                return false;
            }
        }
        true
    }

    /// Whether the same is known of one CPU, from its bounds on.
    fn known_same_on(&self, other: &StreamCollector, cpu: CpuId) -> bool
        ensures { IsTrue result ↔ IsKnownSame self.now other.now cpu.0 }
    {
        self.missing_same_on(other, cpu) && self.records_same_on(other, cpu)
    }

    /// Whether a CPU has the same records in both, from its bounds on.
    fn records_same_on(&self, other: &StreamCollector, cpu: CpuId) -> bool
        ensures { IsTrue result ↔ ((number : ℕ) (r : Record)
            → (HasRecord self.now cpu.0 number r ↔ HasRecord other.now cpu.0 number r)) }
    {
        are_same_records(self.records(cpu), other.records(cpu))
    }

    /// Whether a CPU misses the same numbers in both, from its bounds on.
    fn missing_same_on(&self, other: &StreamCollector, cpu: CpuId) -> bool
        ensures { IsTrue result ↔ ((number : ℕ)
            → (IsMissing self.now cpu.0 number ↔ IsMissing other.now cpu.0 number)) }
    {
        are_same_runs(self.missing(cpu), other.missing(cpu))
    }

    /// Whether of each CPU of which numbers were given up here the same numbers are undelivered there.
    fn undelivered_same(&self, other: &StreamCollector) -> bool
        ensures { IsTrue result ↔ AllUndeliveredSame self.now other.now }
    {
        for cpu in self.given_up_cpus() {
            if !self.undelivered_same_on(other, cpu) {
                return false;
            }
        }
        true
    }

    /// Whether both have the same undelivered numbers of one CPU.
    fn undelivered_same_on(&self, other: &StreamCollector, cpu: CpuId) -> bool
        ensures { IsTrue result ↔ IsUndeliveredSame self.now other.now cpu.0 }
    {
        are_same_runs(self.undelivered(cpu), other.undelivered(cpu))
    }
}
