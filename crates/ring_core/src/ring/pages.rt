//! The steps by which the writer gets and gives up pages: a fill is begun, fills are closed, and the reader's wish is
//! looked for.
use crate::ring::Core;
use ring_frames::StepAnswer;

impl Core {
    ghost use Rattle.std.specs.Prelude.{◌≡◌, ◌≢◌, []};
    ghost use Rattle.trace_model.specs.Steps as model;
    ghost use Rattle.nested_writer.specs.Stack.{opened};
    ghost use Rattle.ring_frames.specs.declared.phase.Phase.TheVariants.{Opening, Releasing, Wishing};
    ghost use Rattle.ring_frames.specs.Phases.{as_answer};
    ghost use Rattle.ring_frames.specs.Answers.{KeepsPayloads};
    ghost use Rattle.ring_core.specs.Steps.{MakesStep, IsReachedCore};

    /// The page to open is taken from its home and is the tail from now on, unless another frame has begun the fill.
    #[inline(never)]
    pub(crate) fn open_fill(&mut self, noted: u64, page: u16) -> StepAnswer
        requires ring { IsReachedCore self.old }
        requires top { self.old.stack.frames ≢ [] }
        requires phase { self.old.phase ≡ Opening noted page }
        ensures makes { MakesStep self.old model.steps (as_answer result) self.new }
        ensures payloads { KeepsPayloads self.old.stack self.new.stack }
    {
        if noted != self.frames.opened() {
            return self.begin_again();
        }
        self.begin_fill(page)
    }

    /// The next fill is begun on the page of this number.
    fn begin_fill(&mut self, page: u16) -> StepAnswer
        requires ring { IsReachedCore self.old }
        requires top { self.old.stack.frames ≢ [] }
        requires phase { self.old.phase ≡ Opening (opened self.old.stack) page }
        ensures makes { MakesStep self.old model.steps (as_answer result) self.new }
        ensures payloads { KeepsPayloads self.old.stack self.new.stack }
    {
        match self.homes[page as usize].take() {
            Some(blank) => self.frames.open_fill(blank.into_body()),
            None => unreachable!(),
        }
    }

    /// The oldest fill that isn't closed is closed: its page goes home.
    #[inline(never)]
    pub(crate) fn release_fill(&mut self) -> StepAnswer
        requires ring { IsReachedCore self.old }
        requires top { self.old.stack.frames ≢ [] }
        requires phase { self.old.phase ≡ Releasing }
        ensures makes { MakesStep self.old model.steps (as_answer result) self.new }
        ensures payloads { KeepsPayloads self.old.stack self.new.stack }
    {
        let page = self.page_at(self.frames.done());
        self.homes[page as usize] = Some(self.frames.release_fill());
        StepAnswer::Going
    }

    /// A load of the reader's wish: if it is for the tail, which holds a record and isn't the last fill that may be
    /// begun, the frame closes it; else it closes what was begun meanwhile, or is gone.
    #[inline(always)]
    pub(crate) fn load_wish(&mut self) -> StepAnswer
        requires ring { IsReachedCore self.old }
        requires top { self.old.stack.frames ≢ [] }
        requires phase { self.old.phase ≡ Wishing }
        ensures makes { MakesStep self.old model.steps (as_answer result) self.new }
        ensures payloads { KeepsPayloads self.old.stack self.new.stack }
    {
        self.frames.load_wish(self.wish)
    }
}
