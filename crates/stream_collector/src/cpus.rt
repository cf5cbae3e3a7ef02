//! The CPUs of which something is there, one by one.
use crate::marks::Marks;
use crate::stream::StreamCollector;
use collector::KnownCpus;
use std::collections::btree_map::Keys;
use std::fmt;
use std::iter::FusedIterator;
use std::marker::Model;
use trace_model::CpuId;

/// The CPUs of a stream that have a bound or an end, by rising number.
#[derive(Drop)]
pub struct MarkedCpus<'a> {
    numbers: Keys<'a, u32, Marks>,
}

impl<'a> Model for MarkedCpus<'a> {
    ghost use Rattle.std.specs.Prelude.{ℕ, List};

    ghost Value = { List ℕ };

    ghost view = { λ c. c.numbers };
}

impl<'a> fmt::Debug for MarkedCpus<'a> {
    fn fmt<W: fmt::Write>(&self, f: &mut fmt::Formatter<W>) -> fmt::Result {
        f.debug_struct("MarkedCpus").finish_non_exhaustive()
    }
}

impl<'a> Iterator for MarkedCpus<'a> {
    ghost use Rattle.std.specs.Iterator.{YieldsFirstBy, item_count};
    ghost use Rattle.collector.specs.Known.{cpu_number};

    type Item = CpuId;

    // Each call gives the first of the CPUs that are left.
    ghost next_gives = { YieldsFirstBy cpu_number (λ left. left) };

    ghost remaining = { item_count (λ left. left) };

    fn next(&mut self) -> Option<CpuId> {
        match self.numbers.next() {
            Some(number) => Some(CpuId(*number)),
            None => None,
        }
    }
}

impl<'a> FusedIterator for MarkedCpus<'a> {}

impl StreamCollector {
    ghost use Rattle.collector.specs.Known.{AreCpusOf};
    ghost use Rattle.stream_collector.specs.Marks.{AreMarkedCpus};

    /// The CPUs of which the kept parcels have or miss something, by rising number.
    pub fn known_cpus(&self) -> KnownCpus<'_>
        ensures { AreCpusOf self.now.parcels result }
    {
        self.known.cpus()
    }

    /// The CPUs of which numbers were given up as undelivered, by rising number.
    pub fn given_up_cpus(&self) -> KnownCpus<'_>
        ensures { AreCpusOf self.now.given_up result }
    {
        self.given_up.cpus()
    }

    /// The CPUs that have a bound above 0 or an end, by rising number. All others have neither.
    pub fn marked_cpus(&self) -> MarkedCpus<'_>
        ensures { AreMarkedCpus self.now.marks result }
    {
        MarkedCpus {
            numbers: self.marks.cpus(),
        }
    }
}
