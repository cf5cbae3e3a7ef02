//! The reader's end.
mod new;
mod steps;
mod taking;

use ring_frames::TakeState;
use ring_steps::ReaderSeat;
use std::fmt;
use std::marker::Model;

/// The end of a running ring at which pages are taken.
#[derive(Drop)]
pub struct Reader {
    pub(crate) seat: ReaderSeat,
    /// The page at each position. It has room for the ring's pages, and never takes more.
    pub(crate) order: Vec<u16>,
    /// The reader's page, outside the ring.
    pub(crate) spare: u16,
    /// How far its take has come.
    pub(crate) at: TakeState,
    /// The number of the oldest fill that isn't closed, as the last take answered it, if it found nothing.
    pub(crate) empty_at: Option<u64>,
}

impl Model for Reader {
    ghost use Rattle.std.specs.Prelude.{◌≡◌, vec_capacity};
    ghost use Rattle.ring_steps.specs.Ends.{reading_in, reader_table};
    ghost use Rattle.ring_shared.specs.Value.{ReaderValue};

    ghost Value = { ReaderValue };

    ghost view = { λ r. record {
      shape = r.seat.shape;
      table = reader_table r.seat;
      part = reading_in r.seat;
      order = r.order.items;
      spare = r.spare;
      at = r.at;
      empty_at = r.empty_at;
    } };

    ghost invariant = { λ r. r.seat.shape.pages ≡ vec_capacity r.order };
}

/// What the last take answered if it found nothing: the rest of a reader has no short text.
impl fmt::Debug for Reader {
    fn fmt<W: fmt::Write>(&self, f: &mut fmt::Formatter<W>) -> fmt::Result {
        f.debug_struct("Reader")
            .field("empty_at", &self.empty_at())
            .finish_non_exhaustive()
    }
}
