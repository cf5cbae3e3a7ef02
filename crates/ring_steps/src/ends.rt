//! The two seats of a ring, and its receipts.
ghost use Rattle.std.specs.Prelude.{◌≡◌};
ghost use Rattle.std.specs.Arc.{arc_value};
ghost use Rattle.ring_steps.specs.Views.{writing, reading};
ghost use Rattle.ring_steps.specs.Seats.{IsTableOf, IsWriting, IsSeatOfReader, IsSeatOfReceipt, IsReaderWithin, Leads};
ghost use Rattle.ring_steps.specs.Paging.{IsWriterReached};

use crate::ghost_part::GhostPart;
use crate::plays::TableSeat;
use crate::rule::{Board, Shape};
use std::fmt;
use std::sync::Arc;

/// The writer's seat, and what the writer did in private since its last step on a word.
#[derive(Drop)]
pub struct WriterSeat {
    pub(crate) board: Arc<Board>,
    pub(crate) seat: TableSeat,
    pub(crate) ghost_part: GhostPart,
    /// The shape of its ring.
    pub shape: Shape,
    ghost key_is: { (arc_value board).shared.key ≡ shape },
    ghost table: { IsTableOf shape (arc_value board).shared.table_id },
    ghost seated: { seat.table_id ≡ (arc_value board).shared.table_id },
    ghost is_writing: { IsWriting seat.me },
    ghost reached: { ∥ IsWriterReached shape (writing seat.me.0) ∥₁ },
    ghost pending: { ∥ Leads shape (writing seat.me.0) ghost_part.now ∥₁ },
}

impl fmt::Debug for WriterSeat {
    fn fmt<W: fmt::Write>(&self, f: &mut fmt::Formatter<W>) -> fmt::Result {
        f.debug_struct("WriterSeat")
            .field("shape", &self.shape)
            .finish_non_exhaustive()
    }
}

/// The reader's seat.
#[derive(Drop)]
pub struct ReaderSeat {
    pub(crate) board: Arc<Board>,
    pub(crate) seat: TableSeat,
    /// The shape of its ring.
    pub shape: Shape,
    ghost key_is: { (arc_value board).shared.key ≡ shape },
    ghost table: { IsTableOf shape (arc_value board).shared.table_id },
    ghost seated: { seat.table_id ≡ (arc_value board).shared.table_id },
    ghost is_reading: { IsSeatOfReader seat.me },
    ghost within: { IsReaderWithin shape (reading seat.me.0) },
}

impl fmt::Debug for ReaderSeat {
    fn fmt<W: fmt::Write>(&self, f: &mut fmt::Formatter<W>) -> fmt::Result {
        f.debug_struct("ReaderSeat")
            .field("shape", &self.shape)
            .finish_non_exhaustive()
    }
}

/// A receipt, which has no bytes: contracts see the steps that the writer had made when it gave it.
#[derive(Drop)]
pub struct ReceiptSeat {
    pub(crate) seat: TableSeat,
    ghost is_receipt: { IsSeatOfReceipt seat.me },
}

impl fmt::Debug for ReceiptSeat {
    fn fmt<W: fmt::Write>(&self, f: &mut fmt::Formatter<W>) -> fmt::Result {
        f.debug_struct("ReceiptSeat").finish_non_exhaustive()
    }
}
