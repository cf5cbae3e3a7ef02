//! One step of the frame on top.
use crate::writer::Writer;
use nested_writer::WriteFault;
use ring_frames::{Answer, Phase, StepAnswer};

impl Writer {
    ghost use Rattle.std.specs.Prelude.{◌≡◌, ◌≢◌};
    ghost use Rattle.trace_model.specs.Steps as model;
    ghost use Rattle.ring_frames.specs.declared.answer.Answer.TheVariants.{Going};
    ghost use Rattle.ring_frames.specs.declared.phase.Phase.TheVariants.{Idle};
    ghost use Rattle.ring_frames.specs.Answers.{KeepsPayloads};
    ghost use Rattle.ring_frames.specs.Phases.{as_answer};
    ghost use Rattle.ring_shared.specs.Value.{SameWriter};
    ghost use Rattle.ring_shared.specs.Calls.{IsWriter, MakesSome};
    ghost use Rattle.ring_shared.specs.Nearer.{IsNearer};
    ghost use Rattle.ring_shared.specs.Rooms.{rooms};
    ghost use Rattle.ring_shared.specs.FewSteps.{MakesAtMost};
    ghost use Rattle.ring_shared.specs.Promises.{HasFrame, KeepsSlots};

    /// One step of the frame on top, in its phase: a step on one word, or one that touches none. `Going` if it is on
    /// the stack, and has reserved nothing yet, or has left and has more to do; `Reserved` with its record's number,
    /// whose slot holds only zeros when it is reserved; `Gone` once it has left the stack. Refused with `NoFrame` if
    /// there is no frame; and a frame that needs a page is refused, and leaves, as `Crowded` if all pages of the ring
    /// have fills that aren't closed, as `Worn` after the last fill that may be begun.
    #[inline(always)]
    pub fn step(&mut self) -> Answer
        requires writer { IsWriter self.old }
        ensures makes { MakesSome self.old model.steps result self.new }
        ensures few { MakesAtMost 1 self.old.part self.new.part }
        ensures nearer { IsNearer self.old self.new }
        ensures slots { KeepsSlots self.old result self.new }
        ensures going { result ≡ Going → rooms self.new ≡ rooms self.old }
        ensures ring { SameWriter self.old self.new }
        ensures writer { IsWriter self.new }
    {
        if self.frames.is_empty() {
            self.seat.note_step();
            return Answer::Refused(WriteFault::NoFrame);
        }
        match self.frames.phase() {
            Phase::Idle => self.reserve(),
            Phase::Wishing => self.load_wish().answer(),
            _ => self.word_step().answer(),
        }
    }

    /// One step of the frame on top, which has more to do at the words. It is called rarely.
    #[inline(never)]
    fn word_step(&mut self) -> StepAnswer
        requires framed { HasFrame self.old }
        requires busy { self.old.frames.phase ≢ Idle }
        ensures makes { MakesSome self.old model.steps (as_answer result) self.new }
        ensures nearer { IsNearer self.old self.new }
        ensures payloads { KeepsPayloads self.old.frames.stack self.new.frames.stack }
    {
        match self.frames.phase() {
            Phase::Idle => unreachable!(),
            Phase::Looking { noted } => self.load_link(noted),
            Phase::Claiming { noted, page } => self.claim_head(noted, page),
            Phase::LookingNext { role, noted, page } => self.load_next(role, noted, page),
            Phase::Marking {
                role,
                noted,
                page,
                next,
            } => self.mark_head(role, noted, page, next),
            Phase::Clearing { noted, page } => self.clear_update(noted, page),
            Phase::Opening { noted, page } => self.open_fill(noted, page),
            Phase::Releasing => self.release_fill(),
            Phase::Wishing => self.load_wish(),
        }
    }
}
