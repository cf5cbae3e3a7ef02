//! The runs of a fleet's numbers of one kind.
ghost use Rattle.std.specs.Prelude.{◌≡◌, ◌++◌, ℕ, List, map, IfOk, OnOk};
ghost use Rattle.trace_model.specs.Runs.{AreRuns};
ghost use Rattle.time_merge.specs.Lines.{AreOrdered};
ghost use Rattle.fleet_text.specs.Cpus.{cpu_seen, IsBefore};
ghost use Rattle.fleet_text.specs.Runs.{run_seen, run_at, IsOfKind, AreRunsOf, IsOfKindAmong};

use crate::cpus::StreamCpu;
use crate::run::{FleetRun, RunKind};
use parcel_streams::StreamId;
use std::alloc::Global;
use stream_collector::StreamRuns;
use trace_model::{CpuId, NoMemory, RecordNo};

/// Puts these runs of a CPU after the others.
fn put_all(
    runs: &mut Vec<FleetRun>,
    stream: StreamId,
    cpu: CpuId,
    of_cpu: StreamRuns<'_>,
) -> Result<(), NoMemory>
    ensures { OnOk result (map run_seen runs.new.items
        ≡ map run_seen runs.old.items ++ map (run_at stream.0 cpu.0) of_cpu.entry) }
{
    for (first, last) in of_cpu {
        runs.push(FleetRun {
            stream,
            cpu,
            first,
            last,
        })?;
    }
    Ok(())
}

/// Puts the run of the forgotten numbers of a CPU, if there are any.
fn put_forgotten(runs: &mut Vec<FleetRun>, at: &StreamCpu<'_>) -> Result<(), NoMemory>
    ensures { OnOk result ((list : List (ℕ × ℕ))
        × AreRuns (IsOfKind RunKind.Forgotten at.now.known.now at.now.cpu.0) list
        × (map run_seen runs.new.items
        ≡ map run_seen runs.old.items ++ map (run_at at.now.stream.0 at.now.cpu.0) list)) }
{
    let bound = at.known.bound(at.cpu);
    if bound.0 > 0 {
        runs.push(FleetRun {
            stream: at.stream,
            cpu: at.cpu,
            first: RecordNo(0),
            last: RecordNo(bound.0 - 1),
        })?;
    }
    Ok(())
}

/// Puts the runs of a CPU's numbers of this kind.
fn put_kind(runs: &mut Vec<FleetRun>, kind: RunKind, at: &StreamCpu<'_>) -> Result<(), NoMemory>
    ensures { OnOk result ((list : List (ℕ × ℕ)) × AreRuns (IsOfKind kind at.now.known.now at.now.cpu.0) list
        × (map run_seen runs.new.items
        ≡ map run_seen runs.old.items ++ map (run_at at.now.stream.0 at.now.cpu.0) list)) }
{
    match kind {
        RunKind::Missing => put_all(runs, at.stream, at.cpu, at.known.missing(at.cpu)),
        RunKind::Unknown => put_all(runs, at.stream, at.cpu, at.known.unknown(at.cpu)),
        RunKind::Undelivered => put_all(runs, at.stream, at.cpu, at.known.undelivered(at.cpu)),
        RunKind::Forgotten => put_forgotten(runs, at),
    }
}

/// The runs of these CPUs' numbers of this kind.
pub(crate) fn runs_of(
    alloc: Global,
    kind: RunKind,
    cpus: &[StreamCpu<'_>],
) -> Result<Vec<FleetRun>, NoMemory>
    requires { AreOrdered IsBefore (map cpu_seen cpus.now) }
    ensures { IfOk result (λ runs. AreRunsOf (IsOfKindAmong kind (map cpu_seen cpus.now)) (map run_seen runs.items)) }
{
    let mut runs = Vec::new(alloc);
    for at in cpus {
        put_kind(&mut runs, kind, at)?;
    }
    Ok(runs)
}
