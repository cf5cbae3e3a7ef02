//! The reader's steps but the swap, which is in `swapping.rt`.
ghost use Rattle.std.specs.Prelude.{◌≡◌, ◌≢◌, ◌+◌, ◌-◌, ◌<◌, ◌≤◌, ⊤, true, false};
ghost use Rattle.trace_model.specs.Links.{FitsWord, header_link};
ghost use Rattle.trace_model.specs.Ring.{loading_head, loading_done, storing_spare_link, page_at};
ghost use Rattle.trace_model.specs.Steps.{wishes, wished_for, reading, moving, empty};
ghost use Rattle.link_marks.specs.ModelLinks.{link_of};
ghost use Rattle.link_marks.specs.declared.link.Mark.TheVariants.{Normal, Header, Update};
ghost use Rattle.ring_steps.specs.Shown.{page_before};
ghost use Rattle.ring_steps.specs.Seats.{IsReaderStep};
ghost use Rattle.ring_steps.specs.Ends.{reading_in, SameReaderSeat};
ghost use Rattle.ring_steps.specs.Taking.{page_found, fill_found, IsLoadingDone, IsStoringLink, LinkLoaded, DoneLoaded};
ghost use Rattle.ring_steps.specs.Taking.{SpareLinked};

use crate::ends::ReaderSeat;
use crate::links::link_in;
use crate::plays::{load, store};
use crate::words::Word;
use link_marks::Link;
use std::marker::Brand;
use trace_model::FillNo;

impl ReaderSeat {
    /// A store of the reader's wish for this fill, the first that it doesn't know to be closed.
    pub fn store_wish(&mut self, fill: FillNo)
        requires due { fill.0 ≡ (reading_in self.old).reader.seen }
        ensures same { SameReaderSeat self.old self.new }
        ensures step { IsReaderStep self.old.shape (reading_in self.old) (λ _. ⊤) wishes (wished_for fill.0)
            (reading_in self.new) }
        ensures spare { (reading_in self.new).keeps_spare ≡ (reading_in self.old).keeps_spare }
    {
        store::<Brand, _>(
            &self.board,
            self.shape,
            &mut self.seat,
            Word::Wish,
            fill.0 + 1,
            &(),
        );
    }

    /// A load of the number of closed fills: the fill that the reader found is closed, and it will store the spare's
    /// link; or no closed fill is unread, all below its hint are passed, and it looks for the head again.
    pub fn load_done(&mut self) -> u64
        requires due { IsLoadingDone (reading_in self.old) }
        ensures same { SameReaderSeat self.old self.new }
        ensures closed { fill_found (reading_in self.old) < result
            → DoneLoaded self.old.shape (reading_in self.old) result reading
            (storing_spare_link (page_found (reading_in self.old)) (fill_found (reading_in self.old)))
            (reading_in self.new) }
        ensures none { result ≤ fill_found (reading_in self.old)
            → DoneLoaded self.old.shape (reading_in self.old) result (empty result) loading_head
            (reading_in self.new) }
        ensures all { result ≤ fill_found (reading_in self.old) → (reading_in self.old).reader.hint ≡ result }
        ensures spare { (reading_in self.new).keeps_spare ≡ (reading_in self.old).keeps_spare }
    {
        load::<Brand, _>(&self.board, self.shape, &mut self.seat, Word::Done, &())
    }

    /// A load of the link into the position of the reader's hint, from the word of the page before that position. At a
    /// HEADER the reader has found the head, the link's page as the link's fill; at an UPDATE that fill is lost, and
    /// the head is moved on to the next one; at a NORMAL that has the hint as its fill the HEADER is still owed there;
    /// and at any other NORMAL the reader looks on, at the fill one round before the next one, since all fills below
    /// that are taken or lost. A reader that keeps the spare's slot gives it back.
    pub fn load_head(&mut self, front: u16) -> Link
        requires due { (reading_in self.old).reader.phase ≡ loading_head }
        requires front { front ≡ page_before self.old.shape.pages (reading_in self.old).order
            (reading_in self.old).reader.hint }
        ensures same { SameReaderSeat self.old self.new }
        ensures fits { FitsWord (link_of result) }
        ensures header { result.mark ≡ Header
            → LinkLoaded self.old.shape (reading_in self.old) (link_of result) reading
            (loading_done result.page result.fill) result.fill (reading_in self.new) }
        ensures update { result.mark ≡ Update
            → LinkLoaded self.old.shape (reading_in self.old) (link_of result) (moving (result.fill + 1))
            loading_head (result.fill + 1) (reading_in self.new) }
        ensures owed { result.mark ≡ Normal
            → result.fill ≡ (reading_in self.old).reader.hint
            → LinkLoaded self.old.shape (reading_in self.old) (link_of result) (moving result.fill) loading_head
            result.fill (reading_in self.new) }
        ensures passed { result.mark ≡ Normal
            → result.fill ≢ (reading_in self.old).reader.hint
            → LinkLoaded self.old.shape (reading_in self.old) (link_of result) reading loading_head
            (result.fill + 1 - self.old.shape.pages) (reading_in self.new) }
        ensures behind { result.mark ≡ Normal
            → result.fill ≢ (reading_in self.old).reader.hint
            → (reading_in self.old).reader.hint + self.old.shape.pages ≤ result.fill }
        ensures spare { (reading_in self.new).keeps_spare ≡ false }
    {
        let word = Word::Link(front);
        link_in(load::<Brand, _>(&self.board, self.shape, &mut self.seat, word, &()))
    }

    /// A store of the link of the spare, which will lead to the fill after the one that is taken. The reader takes
    /// the spare's slot.
    pub fn store_spare_link(&mut self, spare: u16, link: Link)
        requires due { IsStoringLink (reading_in self.old) }
        requires link { link_of link
            ≡ header_link (page_at self.old.shape.pages (reading_in self.old).order
            (fill_found (reading_in self.old) + 1)) (fill_found (reading_in self.old) + 1) }
        requires spare { spare ≡ (reading_in self.old).spare }
        requires given_back { (reading_in self.old).keeps_spare ≡ false }
        ensures same { SameReaderSeat self.old self.new }
        ensures linked { SpareLinked self.old.shape (reading_in self.old) (link_of link) (reading_in self.new) }
        ensures spare { (reading_in self.new).keeps_spare ≡ true }
    {
        let new = link.pack();
        store::<Brand, _>(
            &self.board,
            self.shape,
            &mut self.seat,
            Word::Link(spare),
            new,
            &(),
        );
    }
}
