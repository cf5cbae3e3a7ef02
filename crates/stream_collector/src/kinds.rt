//! The numbers of a CPU of one kind, run by run.
ghost use Rattle.std.specs.Prelude.{◌<◌, IfSome, IfNone};
ghost use Rattle.collector.specs.FirstRun.{IsFirstRun, HoldsOfNone};
ghost use Rattle.stream_collector.specs.Kinds.{IsOfKind};
ghost use Rattle.stream_collector.specs.Stream.{IsNotKnown};

use crate::stream::StreamCollector;
use trace_model::{CpuId, RecordNo};

/// What numbers have in common.
#[derive(Clone, Copy)]
pub(crate) enum Kind {
    /// They are missing.
    Missing,
    /// They were given up, and are below the bound, or nothing is known of them.
    Undelivered,
    /// Nothing is known of them, and they weren't given up.
    Open,
}

/// The first run of a CPU's numbers of this kind, from a number on and below an end: its first number, and the one
/// after its last.
pub(crate) fn next_run(
    stream: &StreamCollector,
    kind: Kind,
    cpu: CpuId,
    from: RecordNo,
    end: RecordNo,
) -> Option<(RecordNo, RecordNo)>
    ensures run { IfSome result (λ run. IsFirstRun (IsOfKind kind stream.now cpu.0) from.0 end.0 run.0.0 run.1.0) }
    ensures none { IfNone result (HoldsOfNone (IsOfKind kind stream.now cpu.0) from.0 end.0) }
{
    match kind {
        Kind::Missing => stream.known.next_missing_run(cpu, from, end),
        Kind::Undelivered => next_undelivered_run(stream, cpu, from, end),
        Kind::Open => next_open_run(stream, cpu, from, end),
    }
}

/// `next_run` of those that were given up, and are below the bound or unknown.
fn next_undelivered_run(
    stream: &StreamCollector,
    cpu: CpuId,
    from: RecordNo,
    end: RecordNo,
) -> Option<(RecordNo, RecordNo)>
    ensures run { IfSome result (λ run. IsFirstRun (IsOfKind Kind.Undelivered stream.now cpu.0)
        from.0 end.0 run.0.0 run.1.0) }
    ensures none { IfNone result (HoldsOfNone (IsOfKind Kind.Undelivered stream.now cpu.0) from.0 end.0) }
{
    let mut at = from;
    while let Some((first, stop)) = stream.given_up.next_missing_run(cpu, at, end) {
        if let Some(run) = next_not_known_run(stream, cpu, first, stop) {
            return Some(run);
        }
        at = stop;
    }
    None
}

/// `next_run` of those that are below the bound or unknown, if there is such a number.
fn next_not_known_run(
    stream: &StreamCollector,
    cpu: CpuId,
    from: RecordNo,
    end: RecordNo,
) -> Option<(RecordNo, RecordNo)>
    requires { from.0 < end.0 }
    ensures run { IfSome result (λ run. IsFirstRun (IsNotKnown stream.now cpu.0) from.0 end.0 run.0.0 run.1.0) }
    ensures none { IfNone result (HoldsOfNone (IsNotKnown stream.now cpu.0) from.0 end.0) }
{
    let bound = stream.bound(cpu);
    if bound <= from {
        return stream.known.next_unknown_run(cpu, from, end);
    }
    if end <= bound {
        return Some((from, end));
    }
    match stream.known.next_unknown_run(cpu, bound, end) {
        Some((first, stop)) => {
            if first == bound {
                Some((from, stop))
            } else {
                Some((from, bound))
            }
        }
        None => Some((from, bound)),
    }
}

/// `next_run` of those that weren't given up and are unknown.
fn next_open_run(
    stream: &StreamCollector,
    cpu: CpuId,
    from: RecordNo,
    end: RecordNo,
) -> Option<(RecordNo, RecordNo)>
    ensures run { IfSome result (λ run. IsFirstRun (IsOfKind Kind.Open stream.now cpu.0)
        from.0 end.0 run.0.0 run.1.0) }
    ensures none { IfNone result (HoldsOfNone (IsOfKind Kind.Open stream.now cpu.0) from.0 end.0) }
{
    let mut at = from;
    while let Some((first, stop)) = stream.given_up.next_unknown_run(cpu, at, end) {
        if let Some(run) = stream.known.next_unknown_run(cpu, first, stop) {
            return Some(run);
        }
        at = stop;
    }
    None
}
