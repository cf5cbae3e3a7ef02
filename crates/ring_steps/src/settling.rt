//! The two seats of a ring, joined at its end.
ghost use Rattle.std.specs.Prelude.{◌≡◌};
ghost use Rattle.ring_steps.specs.Views.{writing, reading, joined};
ghost use Rattle.ring_steps.specs.Seats.{IsTableOf, without_slot, AreParts};
ghost use Rattle.ring_steps.specs.Ends.{writing_in, reading_in, writing_settled, reading_settled, writer_table};
ghost use Rattle.ring_steps.specs.Ends.{reader_table, SameReaderSeat};

use crate::ends::{ReaderSeat, WriterSeat};
use crate::ghost_part::GhostPart;
use crate::plays::{TableSeat, load};
use crate::rule::{Board, Shape};
use crate::views::View;
use crate::words::Word;
use atomic_table::Join;
use std::fmt;
use std::marker::Brand;

/// Both parts in one view.
struct Both;

impl Join<View> for Both {
    ghost use Rattle.ring_steps.specs.Views.{writing, reading, joined, spent};

    ghost both = { λ left right. joined (writing left) (reading right) };

    ghost spent = { spent };
}

/// A load of the number of closed fills by both seats in one, which shows what they know.
fn load_done_joined(board: &Board, shape: Shape, seat: &mut TableSeat)
    requires key { board.now.shared.key ≡ shape }
    requires table { IsTableOf shape board.now.shared.table_id }
    requires seated { seat.old.table_id ≡ board.now.shared.table_id }
    requires seat { seat.old.me.0 ≡ joined (writing seat.old.me.0) (reading seat.old.me.0) }
    ensures same { seat.new.me.0 ≡ seat.old.me.0 }
    ensures parts { AreParts shape (writing seat.old.me.0) (reading seat.old.me.0) }
{
    load::<Brand, _>(board, shape, seat, Word::Done, &());
}

/// The two seats of a ring in one, which has no bytes: what contracts see of it is the part of each end, as it was when
/// they were joined.
#[derive(Drop)]
pub struct SettledSeats {
    pub(crate) seat: TableSeat,
    pub(crate) ghost_part: GhostPart,
}

impl fmt::Debug for SettledSeats {
    fn fmt<W: fmt::Write>(&self, f: &mut fmt::Formatter<W>) -> fmt::Result {
        f.debug_struct("SettledSeats").finish_non_exhaustive()
    }
}

impl ReaderSeat {
    /// A load of the number of closed fills, by which the spare's slot is put home, if the reader has it. Nothing else
    /// of its part changes, and the model has no such step.
    fn give_back_slot(&mut self)
        ensures same { SameReaderSeat self.old self.new }
        ensures part { reading_in self.new ≡ without_slot (reading_in self.old) }
    {
        load::<Brand, _>(&self.board, self.shape, &mut self.seat, Word::Done, &());
    }
}

/// Joins the two seats of a ring at any moment, and loads once how many fills are closed. So what both know are the
/// parts of one state that the ring reached. If the reader has the spare's slot, it gives that back first.
pub fn settle(writer: WriterSeat, reader: ReaderSeat) -> SettledSeats
    requires one_table { reader_table reader ≡ writer_table writer }
    ensures writing { writing_settled result ≡ writing_in writer }
    ensures reading { reading_settled result ≡ without_slot (reading_in reader) }
    ensures parts { AreParts writer.shape (writing_in writer) (reading_in reader) }
{
    let mut reader = reader;
    reader.give_back_slot();
    writer.recall();
    let WriterSeat {
        board,
        mut seat,
        ghost_part,
        shape,
    } = writer;
    let ReaderSeat { seat: other, .. } = reader;
    board.shared.join_seat::<Both>(&mut seat, other);
    load_done_joined(&board, shape, &mut seat);
    SettledSeats { seat, ghost_part }
}
