//! Up to where a CPU's numbers are known.
use crate::collector::Collector;
use crate::kinds::{Kind, next_of_kind};
use trace_model::{CpuId, RecordNo};

impl Collector {
    ghost use Rattle.std.specs.Prelude.{ℕ, ◌-◌, ◌<◌, ◌≤◌};
    ghost use Rattle.collector.specs.Shown.{IsUnknown};
    ghost use Rattle.collector.specs.Known.{IsKnown, IsFinal};

    /// The least number of a CPU, from this one on, that neither has a record nor is missing. There always is one,
    /// since no parcel has or misses the number `u64::MAX`.
    pub fn first_unknown(&self, cpu: CpuId, from: RecordNo) -> RecordNo
        ensures from { from.0 ≤ result.0 }
        ensures unknown { IsUnknown self.now cpu.0 result.0 }
        ensures first { (n : ℕ) → from.0 ≤ n → n < result.0 → IsKnown self.now cpu.0 n }
    {
        let _parcels = self.parcels();
        match next_of_kind(self, Kind::Unknown, cpu, from.0, u64::MAX) {
            Some(first) => RecordNo(first),
            None => RecordNo(u64::MAX),
        }
    }

    /// The least number of a CPU that neither has a record nor is missing. What is known of the numbers below it stays
    /// as it is, whatever parcels are added.
    pub fn watermark(&self, cpu: CpuId) -> RecordNo
        ensures unknown { IsUnknown self.now cpu.0 result.0 }
        ensures known { IsFinal self.now cpu.0 result.0 }
    {
        self.first_unknown(cpu, RecordNo(0))
    }
}
