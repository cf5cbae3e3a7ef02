//! The numbers of a CPU that are missing, undelivered or unknown yet, run by run.
use crate::kinds::{Kind, next_run};
use crate::stream::StreamCollector;
use std::fmt;
use std::iter::FusedIterator;
use std::marker::Model;
use trace_model::{CpuId, RecordNo};

/// Runs of a CPU's numbers, each by its first and its last number. They rise, and none touches the next.
#[derive(Drop)]
pub struct StreamRuns<'a> {
    stream: &'a StreamCollector,
    kind: Kind,
    cpu: CpuId,
    /// The runs that are left are those from this number on.
    number: u64,
    /// They are of numbers below this one.
    end: u64,
}

impl<'a> Model for StreamRuns<'a> {
    ghost use Rattle.std.specs.Prelude.{ℕ, List};
    ghost use Rattle.stream_collector.specs.Kinds.{runs_from};

    ghost Value = { List (ℕ × ℕ) };

    ghost view = { λ r. runs_from r.kind r.stream.now r.cpu.0 r.number r.end };
}

/// The CPU, and from which number on the runs are left.
impl<'a> fmt::Debug for StreamRuns<'a> {
    fn fmt<W: fmt::Write>(&self, f: &mut fmt::Formatter<W>) -> fmt::Result {
        f.debug_struct("StreamRuns")
            .field("cpu", &self.cpu)
            .field("number", &self.number)
            .finish_non_exhaustive()
    }
}

impl<'a> Iterator for StreamRuns<'a> {
    ghost use Rattle.std.specs.Iterator.{YieldsFirstBy, item_count};
    ghost use Rattle.collector.specs.Runs.{run_numbers};

    type Item = (RecordNo, RecordNo);

    // Each call gives the first of the runs that are left.
    ghost next_gives = { YieldsFirstBy run_numbers (λ left. left) };

    ghost remaining = { item_count (λ left. left) };

    fn next(&mut self) -> Option<(RecordNo, RecordNo)> {
        let number = RecordNo(self.number);
        match next_run(self.stream, self.kind, self.cpu, number, RecordNo(self.end)) {
            Some((first, stop)) => {
                self.number = stop.0;
                Some((first, RecordNo(stop.0 - 1)))
            }
            None => None,
        }
    }
}

impl<'a> FusedIterator for StreamRuns<'a> {}

impl StreamCollector {
    ghost use Rattle.std.specs.Prelude.{ℕ, ◌<◌, ◌↔◌};
    ghost use Rattle.trace_model.specs.Runs.{AreRuns};
    ghost use Rattle.stream_collector.specs.Kinds.{IsOfKindWithin};
    ghost use Rattle.stream_collector.specs.Stream.{IsMissing, IsUndelivered, IsUnknownYet, IsExpected};
    ghost use Rattle.collector.specs.Shown.{IsUnknown};

    /// The runs of the numbers of a CPU, from its bound on, that are missing.
    pub fn missing(&self, cpu: CpuId) -> StreamRuns<'_>
        ensures { AreRuns (IsMissing self.now cpu.0) result }
    {
        let _kept = self.known.parcels();
        self.runs(Kind::Missing, cpu, self.marks(cpu).bound, u64::MAX)
    }

    /// The runs of the numbers of a CPU that were given up: all of those below its bound, and from there on those that
    /// neither have a record nor are missing.
    pub fn undelivered(&self, cpu: CpuId) -> StreamRuns<'_>
        ensures { AreRuns (IsUndelivered self.now cpu.0) result }
    {
        let _given_up = self.given_up.parcels();
        self.runs(Kind::Undelivered, cpu, 0, u64::MAX)
    }

    /// The runs of the numbers of a CPU, from its bound on and below its greatest known number or its end, that neither
    /// have a record, nor are missing, nor were given up: what is to be asked for again.
    pub fn unknown(&self, cpu: CpuId) -> StreamRuns<'_>
        ensures { AreRuns (IsUnknownYet self.now cpu.0) result }
    {
        let _given_up = &self.given_up;
        self.runs(
            Kind::Open,
            cpu,
            self.marks(cpu).bound,
            self.expected_end(cpu),
        )
    }

    /// The runs of the numbers of a CPU of this kind, from a number on and below an end.
    fn runs(&self, kind: Kind, cpu: CpuId, number: u64, end: u64) -> StreamRuns<'_>
        ensures { AreRuns (IsOfKindWithin kind self.now cpu.0 number end) result }
    {
        StreamRuns {
            stream: self,
            kind,
            cpu,
            number,
            end,
        }
    }

    /// The number after the greatest one of a CPU that is known or below its end, or 0.
    fn expected_end(&self, cpu: CpuId) -> u64
        ensures { (n : ℕ) → IsUnknown self.now.parcels cpu.0 n → (n < result ↔ IsExpected self.now cpu.0 n) }
    {
        let known = self.known.known_end(cpu);
        match self.marks(cpu).end {
            Some(end) => known.max(end),
            None => known,
        }
    }
}
