//! What two collectors know of the same numbers.
ghost use Rattle.std.specs.Prelude.{◌≡◌};
ghost use Rattle.collector.specs.Beside.{pair_of};

use crate::collector::Collector;
use crate::ranges::Content;
use trace_model::CpuId;

/// What one collector knows of numbers, beside what another one knows of them.
#[derive(Clone, Copy)]
pub(crate) enum Beside {
    /// Both miss them, or know nothing of them.
    Alike,
    /// Both have their records, in the kept parcels at these indices.
    Records(usize, usize),
    /// One has their records, and the other misses them.
    AtOdds,
    /// One alone knows something of them.
    OneKnows,
}

/// What is known here and there, and the number up to which it is so, itself not among them.
#[derive(Clone, Copy)]
pub(crate) struct Both {
    pub(crate) end: u64,
    pub(crate) beside: Beside,
    /// Where to look next.
    pub(crate) next: u64,
}

fn pair(own: Option<Content>, other: Option<Content>) -> Beside
    ensures { result ≡ pair_of own other }
{
    match (own, other) {
        (None, None) => Beside::Alike,
        (None, Some(_)) => Beside::OneKnows,
        (Some(_), None) => Beside::OneKnows,
        (Some(Content::Missing), Some(Content::Missing)) => Beside::Alike,
        (Some(Content::Missing), Some(Content::Kept(_))) => Beside::AtOdds,
        (Some(Content::Kept(_)), Some(Content::Missing)) => Beside::AtOdds,
        (Some(Content::Kept(here)), Some(Content::Kept(there))) => Beside::Records(here, there),
    }
}

impl Collector {
    ghost use Rattle.std.specs.Prelude.{ℕ, ◌<◌, ◌≤◌};
    ghost use Rattle.collector.specs.Beside.{IsSeen};
    ghost use Rattle.collector.specs.Shown.{IsUnknown};

    /// What is known here and there of a number of a CPU and of those after it.
    pub(crate) fn beside(&self, other: &Collector, cpu: CpuId, number: u64) -> Both
        ensures { IsSeen self.now other.now cpu.0 number result }
    {
        let own = self.stretch(cpu, number);
        let that = other.stretch(cpu, number);
        let end = own.end.min(that.end);
        Both {
            end,
            beside: pair(own.content, that.content),
            next: end,
        }
    }

    /// What both know of this number, and then the next number of which something may be known there.
    pub(crate) fn beside_known(&self, other: &Collector, cpu: CpuId, number: u64) -> Both
        ensures seen { IsSeen self.now other.now cpu.0 number result }
        ensures next { result.end ≤ result.next }
        ensures unknown { (n : ℕ) → result.end ≤ n → n < result.next → IsUnknown other.now cpu.0 n }
    {
        let both = self.beside(other, cpu, number);
        Both {
            next: other.next_known(cpu, both.end),
            ..both
        }
    }

    /// A number from this one on: of none before it is something known here.
    fn next_known(&self, cpu: CpuId, number: u64) -> u64
        ensures from { number ≤ result }
        ensures unknown { (n : ℕ) → number ≤ n → n < result → IsUnknown self.now cpu.0 n }
    {
        let stretch = self.stretch(cpu, number);
        match stretch.content {
            Some(_) => number,
            None => number.max(stretch.end),
        }
    }
}
