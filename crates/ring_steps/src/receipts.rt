//! Receipts: the steps that the writer had made by some moment, of which its reader learns.
ghost use Rattle.std.specs.Prelude.{◌≡◌, ◌<◌, []};
ghost use Rattle.ring_steps.specs.Seats.{IsSeatOfReceipt, SitsAt, Leads};
ghost use Rattle.ring_steps.specs.Ends.{writing_in, passed_in, reading_in, writer_table, reader_table, made_in};
ghost use Rattle.ring_steps.specs.Ends.{receipt_table, SameSeat, SameReaderSeat};
ghost use Rattle.ring_steps.specs.Views.{writes, reads, saw, writing, passed, reading, with_lesson, made_seen};

use crate::ends::{ReaderSeat, ReceiptSeat, WriterSeat};
use crate::ghost_part::ghost_part_known;
use crate::noting::ChosenPart;
use crate::plays::TableSeat;
use crate::rule::{Board, Shape};
use crate::views::View;
use atomic_table::{Join, Split};
use std::marker::{Brand, PhantomData};

/// The writer's seat goes on with the part that is picked, and the receipt has what was made to reach it.
struct Given<J> {
    of: PhantomData<J>,
}

impl<J: ChosenPart> Split<View> for Given<J> {
    ghost use Rattle.ring_steps.specs.Views.{writes, passed, saw};

    ghost left = { λ view. writes J.now (passed view) };

    ghost right = { λ _. saw J.now.made };
}

/// The reader's seat has learned what a receipt has.
struct Learned;

impl Join<View> for Learned {
    ghost use Rattle.ring_steps.specs.Views.{reads, reading, with_lesson, made_seen, spent};

    ghost both = { λ view receipt. reads (with_lesson (reading view) (made_seen receipt)) };

    ghost spent = { spent };
}

/// A load by which the writer's seat gets the part that the caller picks, and a receipt is cut off. `given` is what
/// the caller states to the proof; no code reads it.
#[inline(always)]
fn cut<J: ChosenPart, G>(board: &Board, shape: Shape, seat: &mut TableSeat, given: &G) -> TableSeat
    requires at { SitsAt shape board.now.shared.key board.now.shared.table_id seat.old.table_id }
    requires words { 0 < board.now.shared.table_id.words }
    requires view { seat.old.me.0 ≡ writes (writing seat.old.me.0) (passed seat.old.me.0) }
    requires due { Leads shape (writing seat.old.me.0) J.now }
    ensures seated { seat.new.table_id ≡ seat.old.table_id }
    ensures seat { seat.new.me ≡ (writes J.now (passed seat.old.me.0), seat.old.me.1) }
    ensures beside { result.table_id ≡ seat.old.table_id }
    ensures receipt { result.me ≡ (saw J.now.made, []) }
{
    let _shape = shape;
    let _given = given;
    board.shared.split_seat::<Given<J>>(seat)
}

/// A load by which the reader's seat takes a receipt in.
#[inline(always)]
fn take_in(board: &Board, shape: Shape, seat: &mut TableSeat, receipt: TableSeat)
    requires at { SitsAt shape board.now.shared.key board.now.shared.table_id seat.old.table_id }
    requires words { 0 < board.now.shared.table_id.words }
    requires view { seat.old.me.0 ≡ reads (reading seat.old.me.0) }
    requires beside { receipt.table_id ≡ seat.old.table_id }
    requires receipt { IsSeatOfReceipt receipt.me }
    ensures seated { seat.new.table_id ≡ seat.old.table_id }
    ensures seat { seat.new.me
        ≡ (reads (with_lesson (reading seat.old.me.0) (made_seen receipt.me.0)), seat.old.me.1) }
{
    let _shape = shape;
    board.shared.join_seat::<Learned>(seat, receipt);
}

impl WriterSeat {
    /// A receipt for all steps that the writer has made: a load, of which no contract states what it finds. What the
    /// writer did in private is part of the ring's run from then on.
    pub fn receipt(&mut self) -> ReceiptSeat
        ensures same { SameSeat self.old self.new }
        ensures part { writing_in self.new ≡ writing_in self.old }
        ensures passed { passed_in self.new ≡ passed_in self.old }
        ensures table { receipt_table result ≡ writer_table self.new }
        ensures made { made_in result ≡ (writing_in self.new).made }
    {
        self.recall();
        let seat = cut::<Brand, _>(&self.board, self.shape, &mut self.seat, &self.ghost_part);
        self.ghost_part = ghost_part_known(&self.seat);
        ReceiptSeat { seat }
    }
}

impl ReaderSeat {
    /// The reader learns of the steps that a receipt of its ring has: a load. They are before all that it does from
    /// then on.
    pub fn learn(&mut self, receipt: ReceiptSeat)
        requires table { receipt_table receipt ≡ reader_table self.old }
        ensures same { SameReaderSeat self.old self.new }
        ensures learned { reading_in self.new ≡ with_lesson (reading_in self.old) (made_in receipt) }
    {
        let ReceiptSeat { seat } = receipt;
        take_in(&self.board, self.shape, &mut self.seat, seat);
    }
}
