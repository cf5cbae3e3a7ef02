//! The steps by which the writer gets and gives up pages: a fill is begun, fills are closed, and the reader's wish is
//! looked for.
use crate::writer::Writer;
use ring_frames::StepAnswer;
use trace_model::FillNo;

impl Writer {
    ghost use Rattle.std.specs.Prelude.{◌≡◌};
    ghost use Rattle.trace_model.specs.Steps as model;
    ghost use Rattle.ring_frames.specs.declared.phase.Phase.TheVariants.{Opening, Releasing, Wishing};
    ghost use Rattle.ring_frames.specs.Answers.{KeepsPayloads};
    ghost use Rattle.ring_frames.specs.Phases.{as_answer};
    ghost use Rattle.ring_shared.specs.Calls.{MakesSome};
    ghost use Rattle.ring_shared.specs.Nearer.{IsNearer};
    ghost use Rattle.ring_shared.specs.Promises.{HasFrame};

    /// A store of the number of begun fills, unless another frame has begun the fill: the page to open is taken from
    /// its home, and is the tail from now on.
    #[inline(always)]
    pub(crate) fn open_fill(&mut self, noted: u64, page: u16) -> StepAnswer
        requires framed { HasFrame self.old }
        requires phase { self.old.frames.phase ≡ Opening noted page }
        ensures makes { MakesSome self.old model.steps (as_answer result) self.new }
        ensures nearer { IsNearer self.old self.new }
        ensures payloads { KeepsPayloads self.old.frames.stack self.new.frames.stack }
    {
        if noted != self.frames.opened() {
            return self.begin_again();
        }
        let body = self.seat.open_fill(page, FillNo(noted));
        self.pages.push_back_reserved(page);
        self.frames.open_fill(body)
    }

    /// A store of the number of closed fills: the oldest open fill is closed, and its page goes home.
    #[inline(always)]
    pub(crate) fn release_fill(&mut self) -> StepAnswer
        requires framed { HasFrame self.old }
        requires phase { self.old.frames.phase ≡ Releasing }
        ensures makes { MakesSome self.old model.steps (as_answer result) self.new }
        ensures nearer { IsNearer self.old self.new }
        ensures payloads { KeepsPayloads self.old.frames.stack self.new.frames.stack }
    {
        let page = self.frames.release_fill();
        match self.pages.pop_front() {
            Some(number) => self.seat.release_fill(number, page),
            None => unreachable!(),
        }
        StepAnswer::Going
    }

    /// A load of the reader's wish: if it is for the tail, which holds a record and isn't the last fill that may be
    /// begun, the frame closes it; else it closes what was begun meanwhile, or is gone.
    #[inline(always)]
    pub(crate) fn load_wish(&mut self) -> StepAnswer
        requires framed { HasFrame self.old }
        requires phase { self.old.frames.phase ≡ Wishing }
        ensures makes { MakesSome self.old model.steps (as_answer result) self.new }
        ensures nearer { IsNearer self.old self.new }
        ensures payloads { KeepsPayloads self.old.frames.stack self.new.frames.stack }
    {
        let wish = self.seat.load_wish();
        self.frames.load_wish(wish)
    }
}
