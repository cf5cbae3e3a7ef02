//! What is known of the streams of a fleet.
use crate::streams::Streams;
use parcel_streams::StreamId;
use std::alloc::Global;
use std::collections::BTreeMap;
use std::fmt;
use std::marker::Model;
use stream_collector::StreamCollector;

/// What is known of the streams of a fleet, each by its id. A stream is there once something of it was added.
///
/// ```
/// let mut fleet = Fleet::new(rt.alloc());
/// assert!(rt; fleet.add(StreamId(7), parcel)? == Added::New);
/// assert!(rt; fleet.stream(StreamId(7)).is_some());
/// ```
#[derive(Drop)]
pub struct Fleet {
    pub(crate) streams: BTreeMap<u64, StreamCollector>,
    pub(crate) alloc: Global,
}

impl Model for Fleet {
    ghost use Rattle.std.specs.Prelude.{ℕ, List};
    ghost use Rattle.stream_collector.specs.Stream.{Stream};

    ghost Value = { List (ℕ × Stream) };

    ghost view = { λ f. f.streams.entries };

    ghost use Rattle.fleet_collector.specs.Fleet.{AllHaveKnownCpus};

    ghost invariant = { λ f. AllHaveKnownCpus f.streams.entries };
}

impl Fleet {
    ghost use Rattle.std.specs.Prelude.{◌≡◌, [], IfSome, IfNone, Some, None, map};
    ghost use Rattle.std.specs.List.Sorted.{IsStrictlyIncreasing};
    ghost use Rattle.fleet_collector.specs.Fleet.{known_of, HasKnownCpus, AllHaveKnownCpus};
    ghost use Rattle.fleet_collector.specs.Told.{IsFleetOf};

    /// No stream is there.
    pub fn new(alloc: Global) -> Fleet
        ensures empty { result ≡ [] }
        ensures told { IsFleetOf [] result }
    {
        Fleet {
            streams: BTreeMap::new(alloc),
            alloc,
        }
    }

    /// What is known of a stream, if it is there.
    pub fn stream(&self, stream: StreamId) -> Option<&StreamCollector>
        ensures there { IfSome result (λ known. known_of self.now stream.0 ≡ Some known.now) }
        ensures known_cpus { IfSome result (λ known. HasKnownCpus known.now) }
        ensures none { IfNone result (known_of self.now stream.0 ≡ None) }
    {
        self.streams.get(&stream.0)
    }

    /// The streams that are there, by rising id, each with what is known of it.
    pub fn streams(&self) -> Streams<'_>
        ensures all { result ≡ self.now }
        ensures rising { IsStrictlyIncreasing (map (λ entry. entry.0) self.now) }
        ensures known_cpus { AllHaveKnownCpus self.now }
    {
        Streams {
            entries: self.streams.iter(),
        }
    }
}

impl fmt::Debug for Fleet {
    fn fmt<W: fmt::Write>(&self, f: &mut fmt::Formatter<W>) -> fmt::Result {
        f.debug_struct("Fleet").finish_non_exhaustive()
    }
}
