//! Merging two fleets, and comparing them.
ghost use Rattle.std.specs.Prelude.{◌≡◌, ◌↔◌, ℕ, Some, None, IsTrue, IsSome, OnOk, IfErr};
ghost use Rattle.stream_collector.specs.Same.{IsSameStream};
ghost use Rattle.fleet_collector.specs.Fleet.{known_of, stream_at, empty_stream, HasKnownCpus};
ghost use Rattle.fleet_collector.specs.Merging.{IsFleetMergeFault, AreMerges, OfEachThere};

use crate::fleet::Fleet;
use crate::merge_fault::FleetMergeFault;
use parcel_streams::StreamId;
use std::alloc::Global;
use stream_collector::{MergeFault, StreamCollector};

/// What is known of a stream: nothing, if it isn't there.
fn known_or<'a>(
    fleet: &'a Fleet,
    stream: StreamId,
    nothing: &'a StreamCollector,
) -> &'a StreamCollector
    requires { nothing.now ≡ empty_stream }
    ensures known { result.now ≡ stream_at fleet.now stream.0 }
    ensures cpus { HasKnownCpus result.now }
{
    match fleet.stream(stream) {
        Some(known) => known,
        None => nothing,
    }
}

/// Nothing is known of a stream.
fn nothing(alloc: Global) -> StreamCollector
    ensures { result ≡ empty_stream }
{
    StreamCollector::new(alloc)
}

/// Puts what two fleets know together of a stream, if it isn't there.
fn put_merged(
    joined: &mut Fleet,
    stream: StreamId,
    one: &Fleet,
    other: &Fleet,
) -> Result<(), FleetMergeFault>
    requires { AreMerges one.now other.now joined.old }
    ensures merges { AreMerges one.now other.now joined.new }
    ensures there { OnOk result (IsSome (known_of joined.new stream.0)) }
    ensures stays { (id : ℕ) → IsSome (known_of joined.old id) → IsSome (known_of joined.new id) }
    ensures fault { IfErr result (λ fault. IsFleetMergeFault one.now other.now fault) }
{
    if joined.stream(stream).is_some() {
        return Ok(());
    }
    let nothing = nothing(joined.alloc);
    let ours = known_or(one, stream, &nothing);
    let theirs = known_or(other, stream, &nothing);
    match ours.merged(theirs) {
        Ok(both) => {
            if joined.streams.insert(stream.0, both).is_err() {
                let fault = MergeFault::NoMemory;
                return Err(FleetMergeFault { stream, fault });
            }
            Ok(())
        }
        Err(fault) => Err(FleetMergeFault { stream, fault }),
    }
}

/// So it is with each stream of a fleet.
fn put_all_merged(
    joined: &mut Fleet,
    streams: &Fleet,
    one: &Fleet,
    other: &Fleet,
) -> Result<(), FleetMergeFault>
    requires { AreMerges one.now other.now joined.old }
    ensures merges { AreMerges one.now other.now joined.new }
    ensures there { OnOk result (OfEachThere (λ id. IsSome (known_of joined.new id)) streams.now) }
    ensures stays { (id : ℕ) → IsSome (known_of joined.old id) → IsSome (known_of joined.new id) }
    ensures fault { IfErr result (λ fault. IsFleetMergeFault one.now other.now fault) }
{
    for (stream, _known) in streams.streams() {
        put_merged(joined, stream, one, other)?;
    }
    Ok(())
}

/// Whether the same is known in two fleets of each stream of a fleet.
fn are_all_same(streams: &Fleet, one: &Fleet, other: &Fleet) -> bool
    ensures { IsTrue result ↔ OfEachThere (λ id. IsSameStream (stream_at one.now id)
        (stream_at other.now id)) streams.now }
{
    let nothing = nothing(one.alloc);
    for (stream, _known) in streams.streams() {
        if !known_or(one, stream, &nothing).same(known_or(other, stream, &nothing)) {
            return false;
        }
    }
    true
}

impl Fleet {
    ghost use Rattle.std.specs.Prelude.{List, ◌++◌, OnErr};
    ghost use Rattle.parcel_streams.specs.Pieces.{Packed};
    ghost use Rattle.fleet_collector.specs.Told.{IsFleetOf};
    ghost use Rattle.fleet_collector.specs.Merging.{IsFleetMerge, AllFitTogether, IsSameFleet};

    /// Adds all that another fleet knows, stream by stream, as `StreamCollector::merge` does: what two collectors have
    /// of one fleet is joined so. If a stream is at odds, nothing has changed. It takes time in proportion to all that
    /// both keep, and parcels are shared.
    pub fn merge(&mut self, other: &Fleet) -> Result<(), FleetMergeFault>
        ensures merged { OnOk result (IsFleetMerge self.old other.now self.new) }
        ensures fit { OnOk result (AllFitTogether self.old other.now) }
        ensures told { OnOk result ((pieces others : List Packed)
            → IsFleetOf pieces self.old → IsFleetOf others other.now → IsFleetOf (pieces ++ others) self.new) }
        ensures fault { IfErr result (λ fault. IsFleetMergeFault self.old other.now fault) }
        ensures refused { OnErr result (self.new ≡ self.old) }
    {
        let mut joined = Fleet::new(self.alloc);
        put_all_merged(&mut joined, self, self, other)?;
        put_all_merged(&mut joined, other, self, other)?;
        *self = joined;
        Ok(())
    }

    /// Whether the same is known of all streams, as with `StreamCollector::same`. A stream that isn't there is one of
    /// which nothing is known. It takes no memory.
    pub fn same(&self, other: &Fleet) -> bool
        ensures { IsTrue result ↔ IsSameFleet self.now other.now }
    {
        are_all_same(self, self, other) && are_all_same(other, self, other)
    }
}
