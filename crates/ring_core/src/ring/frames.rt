//! Frames that come and go, and the steps that they make in private.
use crate::event::Answer;
use crate::ring::Core;
use ring_frames::{Phase, StepAnswer};

impl Core {
    ghost use Rattle.std.specs.Prelude.{◌≡◌, ◌≢◌, []};
    ghost use Rattle.trace_model.specs.Steps as model;
    ghost use Rattle.ring_frames.specs.declared.phase.Phase.TheVariants.{Idle};
    ghost use Rattle.ring_frames.specs.declared.phase.StepAnswer.TheVariants.{Going};
    ghost use Rattle.ring_frames.specs.Answers.{EndsPayload, KeepsPayloads, ZerosSlot};
    ghost use Rattle.ring_frames.specs.Phases.{as_answer};
    ghost use Rattle.ring_core.specs.declared.event.Event.TheVariants.{End};
    ghost use Rattle.ring_core.specs.Answers.{event_of};
    ghost use Rattle.ring_core.specs.Steps.{MakesStep, IsReachedCore, IsLate};

    /// A frame is pushed for a record of this moment and of a payload of `len` bytes.
    #[inline(always)]
    pub(crate) fn push(&mut self, moment: u64, len: usize) -> Answer
        requires ring { IsReachedCore self.old }
        ensures makes { MakesStep self.old (model.pushes moment len) result self.new }
        ensures payloads { KeepsPayloads self.old.stack self.new.stack }
    {
        self.frames.push(moment, len)
    }

    /// A close frame is pushed: it begins the next fill, if the tail page holds a record.
    pub(crate) fn push_close(&mut self) -> Answer
        requires ring { IsReachedCore self.old }
        ensures makes { MakesStep self.old model.pushes_close result self.new }
        ensures payloads { KeepsPayloads self.old.stack self.new.stack }
    {
        self.frames.push_close()
    }

    /// The frame on top ends with the payload that is in its slot.
    #[inline(always)]
    pub(crate) fn end(&mut self) -> Answer
        requires ring { IsReachedCore self.old }
        ensures makes { MakesStep self.old (event_of self.old End) result self.new }
        ensures payloads { EndsPayload self.old.stack self.new.stack }
    {
        self.frames.end()
    }

    /// The record of the frame on top is reserved in the tail page, or there is nothing to close; or a page is needed,
    /// and refused or noted. A frame that has reserved gets its number again.
    #[inline(always)]
    pub(crate) fn reserve(&mut self) -> Answer
        requires ring { IsReachedCore self.old }
        requires top { self.old.stack.frames ≢ [] }
        requires phase { self.old.phase ≡ Idle }
        ensures makes { MakesStep self.old model.steps result self.new }
        ensures payloads { KeepsPayloads self.old.stack self.new.stack }
        ensures zeros { ZerosSlot self.old.stack result self.new.stack }
    {
        self.frames.reserve()
    }

    /// The frame on top begins again, since another frame has begun a fill since it noted what to open.
    #[inline(always)]
    pub(crate) fn begin_again(&mut self) -> StepAnswer
        requires ring { IsReachedCore self.old }
        requires top { self.old.stack.frames ≢ [] }
        requires late { IsLate self.old }
        ensures makes { MakesStep self.old model.steps (as_answer result) self.new }
        ensures payloads { KeepsPayloads self.old.stack self.new.stack }
    {
        self.frames.begin_again()
    }

    /// The frame on top continues in this phase.
    #[inline(always)]
    pub(crate) fn go_on(&mut self, phase: Phase) -> StepAnswer
        ensures answer { result ≡ Going }
        ensures phase { self.new ≡ record self.old { phase = phase } }
    {
        self.frames.go_on(phase)
    }
}
