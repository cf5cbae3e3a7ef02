//! The reader's swap of its spare for the head.
ghost use Rattle.std.specs.Prelude.{◌≡◌, ◌<◌, true, ◌∷◌, length, Some, None, IfOk, IfErr};
ghost use Rattle.trace_model.specs.declared.limits.TheConstants.{LINK_PAGES};
ghost use Rattle.trace_model.specs.Ring.{swapping};
ghost use Rattle.atomic_table.specs.Table.{rest};
ghost use Rattle.page_image.specs.Contents.{Contents};
ghost use Rattle.ring_steps.specs.Shown.{page_before};
ghost use Rattle.ring_steps.specs.Ends.{reading_in, SameReaderSeat};
ghost use Rattle.ring_steps.specs.Swapping.{HeadTaken, HeadGone};

use crate::ends::ReaderSeat;
use crate::links::{header_word, normal_word};
use crate::plays::{TableSeat, compare_exchange};
use crate::rule::Board;
use crate::words::Word;
use page_image::{Body, Page};
use std::marker::Brand;
use trace_model::{FillNo, RecordNo};

impl ReaderSeat {
    /// A compare and exchange of the link to the head, this page as this fill, in the word of the page before. If it
    /// still was the link to that head, it becomes the link to the reader's spare: `body` is in the ring at the spare's
    /// number, and the head's page is answered, whose number is the spare's from now on. Else a body of the same size
    /// is returned. In both cases the reader keeps the spare's slot until its next load of a link.
    pub fn swap_head(
        &mut self,
        front: u16,
        page: u16,
        fill: FillNo,
        spare: u16,
        body: Body,
    ) -> Result<Page, Body>
        requires due { (reading_in self.old).reader.phase ≡ swapping page fill.0 }
        requires kept { (reading_in self.old).keeps_spare ≡ true }
        requires front { front ≡ page_before self.old.shape.pages (reading_in self.old).order fill.0 }
        requires fits { page < LINK_PAGES }
        requires spare { spare ≡ (reading_in self.old).spare }
        requires size { length body ≡ self.old.shape.size }
        ensures same { SameReaderSeat self.old self.new }
        ensures taken { IfOk result (λ taken. HeadTaken self.old.shape (reading_in self.old) page fill.0 taken
            (reading_in self.new)) }
        ensures failed { IfErr result (λ _. HeadGone self.old.shape (reading_in self.old) page fill.0
            (reading_in self.new)) }
        ensures given_back { IfErr result (λ back. length back ≡ length body) }
        ensures spare { (reading_in self.new).keeps_spare ≡ true }
    {
        let blank = Page::fresh(body, RecordNo(0), FillNo(0));
        self.board
            .shared
            .exchange(&mut self.seat, spare as usize, Some(blank));
        let word = Word::Link(front);
        let from = header_word(page, fill);
        let to = normal_word(spare, FillNo(fill.0 + self.shape.pages as u64));
        if compare_exchange::<Brand>(&self.board, self.shape, &mut self.seat, word, from, to)
            == from
        {
            Ok(lift(&self.board, &mut self.seat, page))
        } else {
            Err(lift(&self.board, &mut self.seat, spare).into_body())
        }
    }
}

/// Moves the page out of the slot of this number, the one that the seat took last.
fn lift(board: &Board, seat: &mut TableSeat, number: u16) -> Page
    requires seated { seat.old.table_id ≡ board.now.shared.table_id }
    requires slot { (page : Contents) × (seat.old.me.1 ≡ (number, Some page) ∷ rest seat.old.me.1) }
    ensures seated { seat.new.table_id ≡ seat.old.table_id }
    ensures page { seat.old.me.1 ≡ (number, Some result) ∷ rest seat.old.me.1 }
    ensures seat { seat.new.me ≡ (seat.old.me.0, (number, None) ∷ rest seat.old.me.1) }
{
    let slot = number as usize;
    match board.shared.exchange(seat, slot, None) {
        Some(page) => page,
        None => unreachable!(),
    }
}
