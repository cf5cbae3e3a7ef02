//! A page turn of the frame on top: its steps one after the other, each when its phase is due.
use crate::writer::Writer;
use ring_frames::Phase;

impl Writer {
    ghost use Rattle.ring_shared.specs.Calls.{IsWriter};
    ghost use Rattle.ring_shared.specs.Turning.{IsReservingTop, TurnsOn};

    /// The frame on top, which has a record to reserve, makes the steps of a page turn in their order, each of them at
    /// most once, and none that isn't due.
    #[inline(always)]
    pub(crate) fn turn_over(&mut self)
        requires writer { IsWriter self.old }
        requires top { IsReservingTop self.old.part.frames }
        ensures { TurnsOn self.old self.new }
    {
        self.load_link_if_due();
        self.claim_head_if_due();
        self.load_next_if_due();
        self.mark_head_if_due();
        self.clear_update_if_due();
        self.open_fill_if_due();
    }

    /// `load_link`, if that is due: the link into the position of the fill to open is loaded.
    #[inline(always)]
    fn load_link_if_due(&mut self)
        requires writer { IsWriter self.old }
        requires top { IsReservingTop self.old.part.frames }
        ensures { TurnsOn self.old self.new }
    {
        if let Phase::Looking { noted } = self.frames.phase() {
            self.load_link(noted);
        }
    }

    /// `claim_head`, if that is due: the head is lost.
    #[inline(always)]
    fn claim_head_if_due(&mut self)
        requires writer { IsWriter self.old }
        requires top { IsReservingTop self.old.part.frames }
        ensures { TurnsOn self.old self.new }
    {
        if let Phase::Claiming { noted, page } = self.frames.phase() {
            self.claim_head(noted, page);
        }
    }

    /// `load_next`, if that is due: the link after the page that is passed is loaded.
    #[inline(always)]
    fn load_next_if_due(&mut self)
        requires writer { IsWriter self.old }
        requires top { IsReservingTop self.old.part.frames }
        ensures { TurnsOn self.old self.new }
    {
        if let Phase::LookingNext { role, noted, page } = self.frames.phase() {
            self.load_next(role, noted, page);
        }
    }

    /// `mark_head`, if that is due: the next page becomes the head.
    #[inline(always)]
    fn mark_head_if_due(&mut self)
        requires writer { IsWriter self.old }
        requires top { IsReservingTop self.old.part.frames }
        ensures { TurnsOn self.old self.new }
    {
        if let Phase::Marking {
            role,
            noted,
            page,
            next,
        } = self.frames.phase()
        {
            self.mark_head(role, noted, page, next);
        }
    }

    /// `clear_update`, if that is due: the UPDATE of the claim is replaced.
    #[inline(always)]
    fn clear_update_if_due(&mut self)
        requires writer { IsWriter self.old }
        requires top { IsReservingTop self.old.part.frames }
        ensures { TurnsOn self.old self.new }
    {
        if let Phase::Clearing { noted, page } = self.frames.phase() {
            self.clear_update(noted, page);
        }
    }

    /// `open_fill`, if that is due: the page is the tail.
    #[inline(always)]
    fn open_fill_if_due(&mut self)
        requires writer { IsWriter self.old }
        requires top { IsReservingTop self.old.part.frames }
        ensures { TurnsOn self.old self.new }
    {
        if let Phase::Opening { noted, page } = self.frames.phase() {
            self.open_fill(noted, page);
        }
    }
}
