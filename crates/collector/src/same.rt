//! Whether two collectors have and miss the same.
use crate::beside::Beside;
use crate::collector::Collector;
use crate::entries::first_difference;
use trace_model::CpuId;

impl Collector {
    ghost use Rattle.std.specs.Prelude.{ℕ, ◌<◌, ◌↔◌, IsTrue, MatchBool};
    ghost use Rattle.trace_model.specs.Collection.{IsSame};
    ghost use Rattle.collector.specs.Known.{IsCpuKnown};
    ghost use Rattle.collector.specs.Beside.{IsSameAt};

    /// Whether both have the same records under the same numbers of the same CPUs, and miss the same numbers.
    pub fn same(&self, other: &Collector) -> bool
        ensures { IsTrue result ↔ IsSame self.now other.now }
    {
        let _kept = self.parcels();
        let _others = other.parcels();
        for cpu in self.cpus() {
            if !self.same_on(other, cpu) {
                return false;
            }
        }
        self.knows_cpus_of(other)
    }

    /// Whether something is known here of each CPU of which something is known there.
    fn knows_cpus_of(&self, other: &Collector) -> bool
        ensures { IsTrue result ↔ ((cpu : ℕ) → IsCpuKnown other.now cpu → IsCpuKnown self.now cpu) }
    {
        for cpu in other.cpus() {
            if !self.knows(cpu) {
                return false;
            }
        }
        true
    }

    /// Whether the same is known of all numbers of one CPU.
    fn same_on(&self, other: &Collector, cpu: CpuId) -> bool
        ensures { MatchBool result ((n : ℕ) → n < u64.MAX → IsSameAt self.now other.now cpu.0 n)
            ((n : ℕ) × (IsSameAt self.now other.now cpu.0 n → ⊥)) }
    {
        let mut at = 0;
        while at < u64::MAX {
            let both = self.beside(other, cpu, at);
            match both.beside {
                Beside::Alike => {}
                Beside::Records(here, there) => {
                    if let Some(_number) = first_difference(
                        self.parcel(here),
                        other.parcel(there),
                        at,
                        both.end,
                    ) {
                        return false;
                    }
                }
                Beside::AtOdds => return false,
                Beside::OneKnows => return false,
            }
            at = both.end;
        }
        true
    }
}
