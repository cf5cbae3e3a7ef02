//! The halves of those steps by which the writer gets and gives up pages, and of the look for the reader's wish, that
//! are made in the frames.
use crate::frames::Frames;
use crate::phase::{Phase, StepAnswer};
use page_image::{Body, Page};
use trace_model::LINK_FILLS;

impl Frames {
    ghost use Rattle.std.specs.Prelude.{◌≡◌, ◌≢◌, ◌↔◌, ℕ, ◌+◌, ◌<◌, List, [], length, IsTrue, false};
    ghost use Rattle.trace_model.specs.declared.limits.TheConstants.{LINK_FILLS};
    ghost use Rattle.trace_model.specs.History.{HistoryEvent};
    ghost use Rattle.trace_model.specs.Ring.{fill_of};
    ghost use Rattle.nested_writer.specs.Stack.{opened};
    ghost use Rattle.nested_writer.specs.IsStack.{IsStack};
    ghost use Rattle.nested_writer.specs.Released.{IsWrittenPage, IsRestingTail};
    ghost use Rattle.ring_frames.specs.declared.phase.Phase.TheVariants.{Opening, Releasing};
    ghost use Rattle.ring_frames.specs.declared.answer.Answer.TheVariants.{Going};
    ghost use Rattle.ring_frames.specs.Answers.{KeepsPayloads};
    ghost use Rattle.ring_frames.specs.Phases.{as_answer};
    ghost use Rattle.ring_frames.specs.Steps.{IsFrames};
    ghost use Rattle.ring_frames.specs.Fills.{OpensFill, Releases, IsWishing, LooksForWish, GrantsNone};

    /// The next fill, which the frame on top noted, is begun in this body, and the frame begins again.
    #[inline(always)]
    pub fn open_fill(&mut self, body: Body) -> StepAnswer
        requires frames { IsFrames self.old }
        requires top { self.old.stack.frames ≢ [] }
        requires phase { (page : ℕ) × (self.old.phase ≡ Opening (opened self.old.stack) page) }
        requires size { length body ≡ self.old.stack.size }
        ensures opens { OpensFill self.old (as_answer result) self.new }
        ensures payloads { KeepsPayloads self.old.stack self.new.stack }
    {
        self.stack.add_page(body);
        self.begin_again()
    }

    /// The oldest fill that isn't closed is closed, and its page let go.
    #[inline(always)]
    pub fn release_fill(&mut self) -> Page
        requires frames { IsFrames self.old }
        requires top { self.old.stack.frames ≢ [] }
        requires phase { self.old.phase ≡ Releasing }
        ensures releases { Releases self.old result self.new }
        ensures payloads { KeepsPayloads self.old.stack self.new.stack }
    {
        let page = self.stack.drop_front();
        self.start_closing();
        page
    }

    /// The tail page, to be read, of a writer with no frame on its stack.
    #[inline(always)]
    pub fn resting_tail(&self) -> &Page
        requires none { self.now.stack.frames ≡ [] }
        ensures tail { result.now ≡ self.now.stack.tail }
        ensures rests { (start : ℕ) (history : List HistoryEvent)
            → IsStack start history self.now.stack
            → IsRestingTail self.now.stack.size self.now.stack.done
            (fill_of history start self.now.stack.done) history result.now }
    {
        self.stack.resting_tail()
    }

    /// The tail page, of a writer with no frame on its stack: all else that it wrote is closed.
    pub fn into_tail(self) -> Page
        requires none { self.stack.frames ≡ [] }
        ensures written { (start : ℕ) (history : List HistoryEvent)
            → IsStack start history self.stack
            → IsWrittenPage self.stack.size self.stack.done (fill_of history start self.stack.done) result }
    {
        let Frames { stack, .. } = self;
        stack.into_tail()
    }

    /// What is made of the reader's wish: if it is for the tail, which holds a record and isn't the last fill that may
    /// be begun, the frame on top notes the next fill; else it closes what was begun meanwhile, or is gone.
    #[inline(always)]
    pub fn load_wish(&mut self, wish: u64) -> StepAnswer
        requires { IsWishing self.old }
        ensures looks { LooksForWish self.old wish (as_answer result) self.new }
        ensures payloads { KeepsPayloads self.old.stack self.new.stack }
    {
        if wish <= self.stack.done() && self.stack.opened() == self.stack.done() + 1 {
            self.stack.pop_bottom();
            return StepAnswer::Gone;
        }
        self.load_wish_any(wish)
    }

    /// `load_wish`, whatever the wish and the fills.
    #[cold]
    #[inline(never)]
    fn load_wish_any(&mut self, wish: u64) -> StepAnswer
        requires { IsWishing self.old }
        ensures looks { LooksForWish self.old wish (as_answer result) self.new }
        ensures payloads { KeepsPayloads self.old.stack self.new.stack }
    {
        if self.grant_wish(wish) {
            return StepAnswer::Going;
        }
        let opened = self.stack.opened();
        if self.stack.done() + 1 < opened {
            self.phase.set_releasing();
            return StepAnswer::Going;
        }
        self.stack.pop_bottom();
        StepAnswer::Gone
    }

    /// Whether the reader's wish is for the tail, and that isn't the last fill that may be begun.
    #[inline(always)]
    pub(crate) fn may_grant(&self, wish: u64) -> bool
        ensures { IsTrue result
            ↔ ((wish ≡ opened self.now.stack) × (wish + self.now.stack.pages < LINK_FILLS)) }
    {
        let opened = self.stack.opened();
        wish == opened && opened + (self.stack.pages() as u64) < LINK_FILLS
    }

    /// Whether the reader's wish is for the tail, which holds a record and isn't the last fill that may be begun: then
    /// the frame notes the next fill.
    #[inline(always)]
    fn grant_wish(&mut self, wish: u64) -> bool
        requires { IsWishing self.old }
        ensures granted { IsTrue result → LooksForWish self.old wish Going self.new }
        ensures refused { result ≡ false → GrantsNone self.old wish × (self.new ≡ self.old) }
    {
        if !self.may_grant(wish) {
            return false;
        }
        if !self.stack.ask_close() {
            return false;
        }
        self.phase.set(Phase::Looking { noted: wish });
        true
    }
}
