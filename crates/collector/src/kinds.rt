//! The numbers of a CPU of one kind, stretch by stretch.
ghost use Rattle.std.specs.Prelude.{◌≡◌, ℕ, ◌<◌, ◌≤◌, IfSome, IfNone};
ghost use Rattle.collector.specs.Runs.{IsOfKind, states_kind};

use crate::collector::Collector;
use crate::ranges::Content;
use trace_model::CpuId;

/// What numbers have in common.
#[derive(Clone, Copy)]
pub(crate) enum Kind {
    /// They are missing.
    Missing,
    /// They neither have a record nor are missing.
    Unknown,
}

/// Whether numbers of which this is stated are of this kind.
fn states_kind(kind: Kind, content: Option<Content>) -> bool
    ensures { result ≡ states_kind kind content }
{
    match (kind, content) {
        (Kind::Missing, Some(Content::Missing)) => true,
        (Kind::Missing, Some(Content::Kept(_)) | None) => false,
        (Kind::Unknown, Some(_)) => false,
        (Kind::Unknown, None) => true,
    }
}

/// The first number of a CPU of this kind, from this number on and below the end.
pub(crate) fn next_of_kind(
    collector: &Collector,
    kind: Kind,
    cpu: CpuId,
    number: u64,
    end: u64,
) -> Option<u64>
    ensures there { IfSome result (λ n. IsOfKind kind collector.now cpu.0 n) }
    ensures from { IfSome result (λ n. number ≤ n) }
    ensures below { IfSome result (λ n. n < end) }
    ensures first { IfSome result (λ n. (m : ℕ) → number ≤ m → m < n → IsOfKind kind collector.now cpu.0 m → ⊥) }
    ensures none { IfNone result ((m : ℕ) → number ≤ m → m < end → IsOfKind kind collector.now cpu.0 m → ⊥) }
{
    let mut at = number;
    while at < end {
        let stretch = collector.stretch(cpu, at);
        if states_kind(kind, stretch.content) {
            return Some(at);
        }
        at = stretch.end;
    }
    None
}

/// The first number from this one on that isn't of this kind, or the end.
pub(crate) fn end_of_run(collector: &Collector, kind: Kind, cpu: CpuId, first: u64, end: u64) -> u64
    requires { first ≤ end }
    ensures from { first ≤ result }
    ensures up_to { result ≤ end }
    ensures run { (m : ℕ) → first ≤ m → m < result → IsOfKind kind collector.now cpu.0 m }
    ensures stop { result < end → IsOfKind kind collector.now cpu.0 result → ⊥ }
{
    let mut at = first;
    while at < end {
        let stretch = collector.stretch(cpu, at);
        if !states_kind(kind, stretch.content) {
            return at;
        }
        at = stretch.end.min(end);
    }
    at
}
