//! The streams of a fleet and the CPUs of a stream, one a call.
ghost use Rattle.std.specs.Prelude.{◌≡◌, ◌≤◌, ◌⊎◌, IfSome, IfNone, IsSomeAnd};
ghost use Rattle.std.specs.List.{Contains};
ghost use Rattle.std.specs.List.Sorted.{IsStrictlyIncreasing};
ghost use Rattle.library_values.specs.Cpus.{IsToldOf, IsLeastFrom, HasNoneFrom};

use crate::listed_fleet::listed::ListedFleet;
use crate::listed_fleet::state::known_of;
use collector::KnownCpus;
use parcel_streams::StreamId;
use std::alloc::Global;
use stream_collector::{MarkedCpus, StreamCollector};

/// The least of these CPUs from this one on.
fn least_known(cpus: KnownCpus<'_>, from: u32) -> Option<u32>
    requires { IsStrictlyIncreasing cpus }
    ensures least { IfSome result (λ cpu. IsLeastFrom (Contains cpus.entry) from cpu) }
    ensures none { IfNone result (HasNoneFrom (Contains cpus.entry) from) }
{
    for cpu in cpus {
        if cpu.0 >= from {
            return Some(cpu.0);
        }
    }
    None
}

/// The least CPU, from `from` on, of those that have marks.
fn least_marked(cpus: MarkedCpus<'_>, from: u32) -> Option<u32>
    requires { IsStrictlyIncreasing cpus }
    ensures least { IfSome result (λ cpu. IsLeastFrom (Contains cpus.entry) from cpu) }
    ensures none { IfNone result (HasNoneFrom (Contains cpus.entry) from) }
{
    for cpu in cpus {
        if cpu.0 >= from {
            return Some(cpu.0);
        }
    }
    None
}

/// The lower of two CPUs, or that which there is.
fn lower(left: Option<u32>, right: Option<u32>) -> Option<u32>
    ensures one { (result ≡ left) ⊎ (result ≡ right) }
    ensures left { IfSome left (λ cpu. IsSomeAnd result (λ low. low ≤ cpu)) }
    ensures right { IfSome right (λ cpu. IsSomeAnd result (λ low. low ≤ cpu)) }
{
    match (left, right) {
        (Some(left), Some(right)) => Some(left.min(right)),
        (Some(left), None) => Some(left),
        (None, right) => right,
    }
}

/// The least CPU of a stream, from this one on, of which something is there.
fn next_cpu_of(known: &StreamCollector, from: u32) -> Option<u32>
    ensures least { IfSome result (λ cpu. IsLeastFrom (IsToldOf known.now) from cpu) }
    ensures none { IfNone result (HasNoneFrom (IsToldOf known.now) from) }
{
    let kept = least_known(known.known_cpus(), from);
    let given_up = least_known(known.given_up_cpus(), from);
    let marked = least_marked(known.marked_cpus(), from);
    lower(lower(kept, given_up), marked)
}

impl ListedFleet {
    ghost use Rattle.std.specs.Prelude.{IsSome, IfSome, IfNone};
    ghost use Rattle.fleet_collector.specs.Fleet.{known_of, stream_at};
    ghost use Rattle.library_values.specs.Cpus.{IsToldOf, IsLeastFrom, HasNoneFrom};

    /// The least id, from this one on, of a stream that is there.
    pub fn next_stream(&self, from: u64) -> Option<u64>
        ensures least { IfSome result (IsLeastFrom (λ id. IsSome (known_of self.now.fleet id)) from) }
        ensures none { IfNone result (HasNoneFrom (λ id. IsSome (known_of self.now.fleet id)) from) }
    {
        match self.fleet.next_stream(StreamId(from)) {
            Some((stream, _)) => Some(stream.0),
            None => None,
        }
    }

    /// The number of the least CPU of a stream, from this one on, of which something is there: a record or a missing
    /// number, a number that was given up, a bound or an end.
    pub fn next_cpu(&self, alloc: Global, stream: StreamId, from: u32) -> Option<u32>
        ensures least { IfSome result (IsLeastFrom (IsToldOf (stream_at self.now.fleet stream.0)) from) }
        ensures none { IfNone result (HasNoneFrom (IsToldOf (stream_at self.now.fleet stream.0)) from) }
    {
        let empty = StreamCollector::new(alloc);
        next_cpu_of(known_of(&self.fleet, stream, &empty), from)
    }
}
