//! The writer's steps.
ghost use Rattle.std.specs.Prelude.{◌≡◌, ◌≢◌, ◌↔◌, ◌+◌, ◌-◌, ◌<◌, ◌≤◌, ◌==◌, ⊤, true, length, slice_index_or};
ghost use prog.Atomic.{either};
ghost use Rattle.trace_model.specs.declared.limits.TheConstants.{LINK_PAGES};
ghost use Rattle.trace_model.specs.Links.{FitsWord, normal_link, header_link, update_link};
ghost use Rattle.trace_model.specs.Frames.{looking, claiming, clearing, opening, releasing, wishing};
ghost use Rattle.trace_model.specs.Ring.{link_into, fill_of};
ghost use Rattle.trace_model.specs.Steps.{steps, going, after_next, Answer};
ghost use Rattle.link_marks.specs.declared.link.Mark.TheVariants.{Normal};
ghost use Rattle.link_marks.specs.ModelLinks.{mark_of, link_of};
ghost use Rattle.nested_writer.specs.Released.{IsWrittenPage};
ghost use Rattle.ring_steps.specs.Views.{writing};
ghost use Rattle.ring_steps.specs.Seats.{Leads, IsWriterStep};
ghost use Rattle.ring_steps.specs.Ends.{writing_in, passed_in, SameSeat};
ghost use Rattle.ring_steps.specs.Paging.{IsTopIn, begun_answer};
ghost use Rattle.ring_steps.specs.Linking.{tail_in, noted_on_top, role_on_top, LooksNext, MarksNext, part_in, found_at};
ghost use Rattle.ring_steps.specs.Linking.{claimed_at, next_at};
ghost use Rattle.ring_steps.specs.Moving.{IsWriterMove, HasStepped};
ghost use Rattle.ring_steps.specs.Notes.{part_after, part_after_wish};
ghost use Rattle.ring_steps.specs.Words.{place_of, word_count};

use crate::ends::WriterSeat;
use crate::ghost_part::ghost_part_known;
use crate::links::{header_word, link_in, normal_word, update_word};
use crate::plays::{StepReport, compare_exchange, load, store};
use crate::words::Word;
use link_marks::Link;
use page_image::{Body, Page};
use std::marker::Brand;
use trace_model::FillNo;

impl WriterSeat {
    /// What the writer did in private since its last step on a word leads from the part that its seat knows to its
    /// present part.
    #[inline(always)]
    pub(crate) fn recall(&self)
        ensures { Leads self.now.shape (writing self.now.seat.me.0) (writing_in self.now) }
    {}

    /// A load of this word, as a step of the writer.
    #[inline(always)]
    fn load_step<J: StepReport>(&mut self, word: Word) -> u64
        requires word { place_of word < word_count self.old.shape.pages }
        requires moves { IsWriterMove self.old.shape self.old.seat.me (place_of word) (λ n. n)
            (J.reports self.old.seat.me) }
        ensures { HasStepped self.old self.new (J.reports self.old.seat.me result) }
    {
        let found = load::<J, _>(&self.board, self.shape, &mut self.seat, word, &());
        self.ghost_part = ghost_part_known(&self.seat);
        found
    }

    /// A compare and exchange of this word, as a step of the writer; what the word was.
    #[inline(always)]
    fn compare_exchange_step<J: StepReport>(&mut self, word: Word, from: u64, to: u64) -> u64
        requires word { place_of word < word_count self.old.shape.pages }
        requires moves { IsWriterMove self.old.shape self.old.seat.me (place_of word) (λ n. either (n == from) to n)
            (J.reports self.old.seat.me) }
        ensures { HasStepped self.old self.new (J.reports self.old.seat.me result) }
    {
        let found = compare_exchange::<J>(&self.board, self.shape, &mut self.seat, word, from, to);
        self.ghost_part = ghost_part_known(&self.seat);
        found
    }

    /// A load of the link into the position of the fill to open, which is in the word of the tail page. What the
    /// seat knew to be passed is at most the head of the state that is seen.
    pub fn load_link(&mut self, tail: u16) -> Link
        requires phase { IsTopIn (writing_in self.old).frames (looking (writing_in self.old).opened) }
        requires tail { tail ≡ tail_in (writing_in self.old) }
        ensures same { SameSeat self.old self.new }
        ensures fits { FitsWord (link_of result) }
        ensures step { IsWriterStep self.old.shape (writing_in self.old)
            (λ core. (passed_in self.old ≤ core.head)
            × (link_into self.old.shape.pages core.links (writing_in self.old).opened ≡ link_of result)) going
            (writing_in self.new) }
        ensures next { result.mark ≡ Normal → result.fill ≡ (writing_in self.old).opened }
        ensures lost { result.mark ≢ Normal → result.fill + self.old.shape.pages ≡ (writing_in self.old).opened }
        ensures part { writing_in self.new ≡ part_in (writing_in self.old)
            (found_at (mark_of result.mark) (writing_in self.old).opened result.page) }
    {
        self.recall();
        let found = self.load_step::<Brand>(Word::Link(tail));
        link_in(found)
    }

    /// A load of the next link, which is in the word of this page: that into the position of the fill after the
    /// lost one. The code needs only the page; the contract says by this fill which link it is.
    pub fn load_next(&mut self, page: u16, after_lost: FillNo) -> Link
        requires phase { LooksNext self.old.shape.pages (writing_in self.old) page after_lost.0 }
        ensures same { SameSeat self.old self.new }
        ensures fits { FitsWord (link_of result) }
        ensures step { IsWriterStep self.old.shape (writing_in self.old)
            (λ core. link_into self.old.shape.pages core.links after_lost.0 ≡ link_of result) going
            (writing_in self.new) }
        ensures part { writing_in self.new ≡ part_in (writing_in self.old)
            (next_at (mark_of result.mark) (result.fill == after_lost.0) (role_on_top (writing_in self.old).frames)
            (noted_on_top (writing_in self.old).frames) page result.page) }
    {
        let _after_lost = after_lost;
        self.recall();
        let found = self.load_step::<Brand>(Word::Link(page));
        link_in(found)
    }

    /// A load of the reader's wish, by a frame that had no fill left to close; another may have begun one since.
    pub fn load_wish(&mut self) -> u64
        requires phase { IsTopIn (writing_in self.old).frames wishing }
        ensures same { SameSeat self.old self.new }
        ensures step { (answer : Answer)
            × IsWriterStep self.old.shape (writing_in self.old) (λ core. core.wish ≡ result) answer
            (writing_in self.new) }
        ensures part { writing_in self.new ≡ part_after_wish self.old.shape (writing_in self.old) result }
    {
        self.recall();
        self.load_step::<Brand>(Word::Wish)
    }

    /// A compare and exchange of the link in the tail page's word from HEADER to UPDATE, by which the head, this page
    /// as this fill, is lost; whether it was done. If not, the head was moved on before: the fill is passed either way.
    pub fn claim_head(&mut self, tail: u16, page: u16, lost: FillNo) -> bool
        requires phase { IsTopIn (writing_in self.old).frames (claiming (writing_in self.old).opened page) }
        requires tail { tail ≡ tail_in (writing_in self.old) }
        requires lost { lost.0 + self.old.shape.pages ≡ (writing_in self.old).opened }
        requires fits { page < LINK_PAGES }
        ensures same { SameSeat self.old self.new }
        ensures passed { lost.0 < passed_in self.new }
        ensures step { IsWriterStep self.old.shape (writing_in self.old)
            (λ core. result ≡ true
            ↔ link_into self.old.shape.pages core.links (writing_in self.old).opened ≡ header_link page lost.0)
            going (writing_in self.new) }
        ensures part { writing_in self.new ≡ part_in (writing_in self.old)
            (claimed_at result (writing_in self.old).opened page) }
    {
        self.recall();
        let word = Word::Link(tail);
        let from = header_word(page, lost);
        let to = update_word(page, lost);
        let found = self.compare_exchange_step::<Brand>(word, from, to);
        found == from
    }

    /// A compare and exchange of the next link, in the word of this page, from NORMAL to HEADER; whether it was done.
    pub fn mark_head(&mut self, page: u16, next: u16, after_lost: FillNo) -> bool
        requires phase { MarksNext self.old.shape.pages (writing_in self.old) page next after_lost.0 }
        requires fits { next < LINK_PAGES }
        ensures same { SameSeat self.old self.new }
        ensures step { IsWriterStep self.old.shape (writing_in self.old)
            (λ core. result ≡ true
            ↔ link_into self.old.shape.pages core.links after_lost.0 ≡ normal_link next after_lost.0)
            going (writing_in self.new) }
        ensures part { writing_in self.new ≡ part_in (writing_in self.old)
            (after_next (role_on_top (writing_in self.old).frames) (noted_on_top (writing_in self.old).frames) page) }
    {
        self.recall();
        let word = Word::Link(page);
        let from = normal_word(next, after_lost);
        let to = header_word(next, after_lost);
        let found = self.compare_exchange_step::<Brand>(word, from, to);
        found == from
    }

    /// A compare and exchange of the link in the word of the page before from the frame's own UPDATE to NORMAL with
    /// the fill that it noted; whether it was done. It always is: only the frame that set an UPDATE replaces it.
    pub fn clear_update(&mut self, front: u16, page: u16, noted: FillNo) -> bool
        requires phase { IsTopIn (writing_in self.old).frames (clearing noted.0 page) }
        requires front { front
            ≡ slice_index_or (writing_in self.old).open_pages (noted.0 - 1 - (writing_in self.old).done) 0 }
        ensures same { SameSeat self.old self.new }
        ensures done { result ≡ true }
        ensures step { IsWriterStep self.old.shape (writing_in self.old)
            (λ core. result ≡ true ↔ link_into self.old.shape.pages core.links noted.0
            ≡ update_link page (noted.0 - self.old.shape.pages)) going (writing_in self.new) }
        ensures part { writing_in self.new ≡ part_in (writing_in self.old) (opening noted.0 page) }
    {
        self.recall();
        let word = Word::Link(front);
        let from = update_word(page, FillNo(noted.0 - self.shape.pages as u64));
        let to = normal_word(page, noted);
        let found = self.compare_exchange_step::<Brand>(word, from, to);
        found == from
    }

    /// A store of the number of begun fills: the next fill, which the frame on top noted, is begun on the page of this
    /// number, whose body is answered.
    pub fn open_fill(&mut self, number: u16, fill: FillNo) -> Body
        requires phase { IsTopIn (writing_in self.old).frames (opening fill.0 number) }
        requires next { fill.0 ≡ (writing_in self.old).opened }
        ensures same { SameSeat self.old self.new }
        ensures step { IsWriterStep self.old.shape (writing_in self.old) (λ _. ⊤)
            (begun_answer (writing_in self.old).frames) (writing_in self.new) }
        ensures part { writing_in self.new ≡ part_after self.old.shape (writing_in self.old) steps }
        ensures body { length result ≡ self.old.shape.size }
    {
        self.recall();
        store::<Brand, _>(
            &self.board,
            self.shape,
            &mut self.seat,
            Word::Opened,
            fill.0 + 1,
            &self.ghost_part,
        );
        let slot = number as usize;
        let Some(page) = self.board.shared.exchange(&mut self.seat, slot, None) else {
            unreachable!()
        };
        // In the seat's hand this slot comes after those of the older open pages.
        self.seat.turn();
        self.ghost_part = ghost_part_known(&self.seat);
        page.into_body()
    }

    /// A store of the number of closed fills: the oldest fill that isn't closed is, and its page, of this number, is
    /// put home.
    pub fn release_fill(&mut self, number: u16, page: Page)
        requires phase { IsTopIn (writing_in self.old).frames releasing }
        requires oldest { number ≡ slice_index_or (writing_in self.old).open_pages 0 0 }
        requires written { IsWrittenPage self.old.shape.size (writing_in self.old).done
            (fill_of (writing_in self.old).history self.old.shape.start (writing_in self.old).done) page }
        ensures same { SameSeat self.old self.new }
        ensures step { IsWriterStep self.old.shape (writing_in self.old) (λ _. ⊤) going (writing_in self.new) }
        ensures part { writing_in self.new ≡ part_after self.old.shape (writing_in self.old) steps }
    {
        self.recall();
        let fill = page.fill();
        let slot = number as usize;
        self.board.shared.exchange(&mut self.seat, slot, Some(page));
        let done = fill.0 + 1;
        store::<Brand, _>(
            &self.board,
            self.shape,
            &mut self.seat,
            Word::Done,
            done,
            &self.ghost_part,
        );
        self.ghost_part = ghost_part_known(&self.seat);
    }
}
