//! The CPUs of which something is known, one by one.
use crate::ranges::Ranges;
use std::collections::btree_map::Keys;
use std::fmt;
use std::iter::FusedIterator;
use std::marker::Model;
use trace_model::CpuId;

/// The CPUs of which a collector knows something, by rising number.
#[derive(Drop)]
pub struct KnownCpus<'a> {
    pub(crate) numbers: Keys<'a, u32, Ranges>,
}

impl<'a> Model for KnownCpus<'a> {
    ghost use Rattle.std.specs.Prelude.{ℕ, List};

    ghost Value = { List ℕ };

    ghost view = { λ c. c.numbers };
}

impl<'a> fmt::Debug for KnownCpus<'a> {
    fn fmt<W: fmt::Write>(&self, f: &mut fmt::Formatter<W>) -> fmt::Result {
        f.debug_struct("KnownCpus").finish_non_exhaustive()
    }
}

impl<'a> Iterator for KnownCpus<'a> {
    ghost use Rattle.std.specs.Iterator.{YieldsFirstBy, item_count};
    ghost use Rattle.collector.specs.Known.{cpu_number};

    type Item = CpuId;

    // Each call gives the first of the CPUs that are left.
    ghost next_gives = { YieldsFirstBy cpu_number (λ left. left) };

    ghost remaining = { item_count (λ left. left) };

    fn next(&mut self) -> Option<CpuId> {
        match self.numbers.next() {
            Some(number) => Some(CpuId(*number)),
            None => None,
        }
    }
}

impl<'a> FusedIterator for KnownCpus<'a> {}
