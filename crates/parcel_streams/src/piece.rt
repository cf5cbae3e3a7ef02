//! What a stream of parcels consists of.
ghost use Rattle.std.specs.Prelude.{◌≡◌, ◌↔◌, IsTrue};
ghost use Rattle.parcel_streams.specs.Pieces.{kind_of_mark, IsMark};

use page_numbers::Parcel;
use trace_model::CpuId;

/// A stream, by the number that its owner gave to one incarnation of a ring's host. Numbers of records are compared
/// only within a stream.
#[derive(Clone, Copy, Debug, PartialEq, Eq, PartialOrd, Ord, Hash)]
pub struct StreamId(pub u64);

/// What is said of the numbers of a CPU's records.
#[derive(Clone, Copy, Debug, PartialEq, Eq)]
pub enum Mark {
    /// How many records the CPU has: there is none of this number, nor of a greater one.
    End(u64),
    /// What is below this number, which isn't 0, is kept no longer. All of it was accounted for.
    Forgotten(u64),
    /// The numbers from the first one up to the second, which is greater and not one of them, were given up.
    Undelivered(u64, u64),
}

/// The kind of the end of a CPU's records.
pub(crate) const END: u64 = 1;

/// The kind of the number below which a CPU's records are kept no longer.
pub(crate) const FORGOTTEN: u64 = 2;

/// The kind of a run of numbers that were given up.
pub(crate) const UNDELIVERED: u64 = 3;

impl Mark {
    /// Whether it says something: a bound is above 0, and the second number of a run above the first one.
    pub fn is_sound(&self) -> bool
        ensures { IsTrue result ↔ IsMark self.now }
    {
        match *self {
            Mark::End(_count) => true,
            Mark::Forgotten(bound) => bound > 0,
            Mark::Undelivered(first, end) => first < end,
        }
    }

    /// The kind of its piece.
    pub(crate) fn kind(&self) -> u64
        ensures { result ≡ kind_of_mark self.now }
    {
        match self {
            Mark::End(_) => END,
            Mark::Forgotten(_) => FORGOTTEN,
            Mark::Undelivered(_, _) => UNDELIVERED,
        }
    }
}

/// A piece of a stream.
#[derive(Debug, Drop)]
pub enum Piece {
    /// A parcel of this stream.
    Parcel(StreamId, Parcel),
    /// What is said of this CPU of the stream.
    Mark(StreamId, CpuId, Mark),
}
