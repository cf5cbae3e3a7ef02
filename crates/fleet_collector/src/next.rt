//! The next stream.
use crate::fleet::Fleet;
use parcel_streams::StreamId;
use stream_collector::StreamCollector;

impl Fleet {
    ghost use Rattle.std.specs.Prelude.{◌≡◌, ℕ, ◌≤◌, Some, None, IsSome, IfSome, IfNone};
    ghost use Rattle.fleet_collector.specs.Fleet.{known_of};

    /// The stream of the least id from this one on, with what is known of it.
    pub fn next_stream(&self, from: StreamId) -> Option<(StreamId, &StreamCollector)>
        ensures there { IfSome result (λ next. known_of self.now next.0.0 ≡ Some next.1.now) }
        ensures above { IfSome result (λ next. from.0 ≤ next.0.0) }
        ensures least { IfSome result (λ next. (other : ℕ) → from.0 ≤ other
            → IsSome (known_of self.now other) → next.0.0 ≤ other) }
        ensures none { IfNone result ((other : ℕ) → from.0 ≤ other → known_of self.now other ≡ None) }
    {
        match self.streams.range(from.0..).next() {
            Some((stream, known)) => Some((StreamId(*stream), known)),
            None => None,
        }
    }
}
