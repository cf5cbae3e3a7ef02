//! The streams of a fleet, one by one.
use parcel_streams::StreamId;
use std::collections::btree_map::Iter;
use std::fmt;
use std::iter::FusedIterator;
use std::marker::Model;
use stream_collector::StreamCollector;

/// The streams of a fleet by rising id, each with what is known of it.
#[derive(Drop)]
pub struct Streams<'a> {
    pub(crate) entries: Iter<'a, u64, StreamCollector>,
}

impl<'a> Model for Streams<'a> {
    ghost use Rattle.std.specs.Prelude.{ℕ, List};
    ghost use Rattle.stream_collector.specs.Stream.{Stream};

    ghost Value = { List (ℕ × Stream) };

    ghost view = { λ s. s.entries };
}

impl<'a> fmt::Debug for Streams<'a> {
    fn fmt<W: fmt::Write>(&self, f: &mut fmt::Formatter<W>) -> fmt::Result {
        f.debug_struct("Streams").finish_non_exhaustive()
    }
}

impl<'a> Iterator for Streams<'a> {
    ghost use Rattle.std.specs.Iterator.{YieldsFirstBy, item_count};
    ghost use Rattle.fleet_collector.specs.Fleet.{entry_seen};

    type Item = (StreamId, &'a StreamCollector);

    // Each call gives the first of the streams that are left.
    ghost next_gives = { YieldsFirstBy entry_seen (λ left. left) };

    ghost remaining = { item_count (λ left. left) };

    fn next(&mut self) -> Option<(StreamId, &'a StreamCollector)> {
        match self.entries.next() {
            Some((stream, known)) => Some((StreamId(*stream), known)),
            None => None,
        }
    }
}

impl<'a> FusedIterator for Streams<'a> {}
