//! The first run of a CPU's numbers of one kind, from a number on.
use crate::collector::Collector;
use crate::kinds::{Kind, end_of_run, next_of_kind};
use trace_model::{CpuId, RecordNo};

impl Collector {
    ghost use Rattle.std.specs.Prelude.{IfSome, IfNone};
    ghost use Rattle.trace_model.specs.Collection.{Misses};
    ghost use Rattle.collector.specs.Shown.{IsUnknown};
    ghost use Rattle.collector.specs.Runs.{IsOfKind};
    ghost use Rattle.collector.specs.FirstRun.{IsFirstRun, HoldsOfNone};

    /// The first run of a CPU's numbers that are missing, from this number on and below the end: its first number, and
    /// the number after its last.
    pub fn next_missing_run(
        &self,
        cpu: CpuId,
        from: RecordNo,
        end: RecordNo,
    ) -> Option<(RecordNo, RecordNo)>
        ensures run { IfSome result (λ run. IsFirstRun (Misses self.now cpu.0) from.0 end.0 run.0.0 run.1.0) }
        ensures none { IfNone result (HoldsOfNone (Misses self.now cpu.0) from.0 end.0) }
    {
        self.next_run(Kind::Missing, cpu, from, end)
    }

    /// The first run, at or above `from` and below `end`, of the numbers that neither have a record nor are missing.
    pub fn next_unknown_run(
        &self,
        cpu: CpuId,
        from: RecordNo,
        end: RecordNo,
    ) -> Option<(RecordNo, RecordNo)>
        ensures run { IfSome result (λ run. IsFirstRun (IsUnknown self.now cpu.0) from.0 end.0 run.0.0 run.1.0) }
        ensures none { IfNone result (HoldsOfNone (IsUnknown self.now cpu.0) from.0 end.0) }
    {
        self.next_run(Kind::Unknown, cpu, from, end)
    }

    /// The first run of a CPU's numbers of this kind.
    fn next_run(
        &self,
        kind: Kind,
        cpu: CpuId,
        from: RecordNo,
        end: RecordNo,
    ) -> Option<(RecordNo, RecordNo)>
        ensures run { IfSome result (λ run. IsFirstRun (IsOfKind kind self.now cpu.0) from.0 end.0 run.0.0 run.1.0) }
        ensures none { IfNone result (HoldsOfNone (IsOfKind kind self.now cpu.0) from.0 end.0) }
    {
        match next_of_kind(self, kind, cpu, from.0, end.0) {
            Some(first) => {
                let stop = end_of_run(self, kind, cpu, first, end.0);
                Some((RecordNo(first), RecordNo(stop)))
            }
            None => None,
        }
    }
}
