//! The missing numbers of a CPU, and those of which nothing is known, run by run.
use crate::collector::Collector;
use crate::kinds::{Kind, end_of_run, next_of_kind};
use std::fmt;
use std::iter::FusedIterator;
use std::marker::Model;
use trace_model::{CpuId, RecordNo};

/// Runs of a CPU's numbers, each by its first and its last number. They rise, and none touches the next.
#[derive(Drop)]
pub struct NumberRuns<'a> {
    collector: &'a Collector,
    kind: Kind,
    cpu: CpuId,
    /// The runs that are left are those from this number on.
    number: u64,
    /// They are of numbers below this one.
    end: u64,
}

/// The runs of a CPU's missing numbers.
pub type MissingRuns<'a> = NumberRuns<'a>;

/// The runs of a CPU's numbers of which nothing is known.
pub type UnknownRuns<'a> = NumberRuns<'a>;

impl<'a> Model for NumberRuns<'a> {
    ghost use Rattle.std.specs.Prelude.{ℕ, List};
    ghost use Rattle.collector.specs.Runs.{runs_from};

    ghost Value = { List (ℕ × ℕ) };

    ghost view = { λ r. runs_from r.kind r.collector.now r.cpu.0 r.number r.end };
}

/// The CPU, and from which number on the runs are left.
impl<'a> fmt::Debug for NumberRuns<'a> {
    fn fmt<W: fmt::Write>(&self, f: &mut fmt::Formatter<W>) -> fmt::Result {
        let name = match self.kind {
            Kind::Missing => "MissingRuns",
            Kind::Unknown => "UnknownRuns",
        };
        f.debug_struct(name)
            .field("cpu", &self.cpu)
            .field("number", &self.number)
            .finish_non_exhaustive()
    }
}

impl<'a> Iterator for NumberRuns<'a> {
    ghost use Rattle.std.specs.Iterator.{YieldsFirstBy, item_count};
    ghost use Rattle.collector.specs.Runs.{run_numbers};

    type Item = (RecordNo, RecordNo);

    // Each call gives the first of the runs that are left.
    ghost next_gives = { YieldsFirstBy run_numbers (λ left. left) };

    ghost remaining = { item_count (λ left. left) };

    fn next(&mut self) -> Option<(RecordNo, RecordNo)> {
        match next_of_kind(self.collector, self.kind, self.cpu, self.number, self.end) {
            Some(first) => {
                self.number = end_of_run(self.collector, self.kind, self.cpu, first, self.end);
                Some((RecordNo(first), RecordNo(self.number - 1)))
            }
            None => None,
        }
    }
}

impl<'a> FusedIterator for NumberRuns<'a> {}

impl Collector {
    ghost use Rattle.collector.specs.Runs.{AreMissingRuns, AreUnknownRuns};

    /// The runs of the numbers of a CPU that are missing, each by its first and its last number.
    pub fn missing(&self, cpu: CpuId) -> MissingRuns<'_>
        ensures { AreMissingRuns self.now cpu.0 result }
    {
        let _parcels = self.parcels();
        NumberRuns {
            collector: self,
            kind: Kind::Missing,
            cpu,
            number: 0,
            end: u64::MAX,
        }
    }

    /// The runs of the numbers of a CPU below this end that neither have a record nor are missing, each by its first
    /// and its last number: what a collector may still ask for.
    pub fn unknown(&self, cpu: CpuId, end: u64) -> UnknownRuns<'_>
        ensures { AreUnknownRuns self.now cpu.0 end result }
    {
        let _parcels = self.parcels();
        NumberRuns {
            collector: self,
            kind: Kind::Unknown,
            cpu,
            number: 0,
            end,
        }
    }
}
