//! One event of a ring.
use crate::event::{Answer, Event};
use crate::ring::Core;
use nested_writer::WriteFault;
use ring_frames::{Phase, StepAnswer};

impl Core {
    ghost use Rattle.trace_model.specs.Steps as model;
    ghost use Rattle.std.specs.Prelude.{◌≡◌, ◌≢◌, []};
    ghost use Rattle.ring_frames.specs.declared.phase.Phase.TheVariants.{Idle, Wishing};
    ghost use Rattle.ring_frames.specs.Answers.{KeepsPayloads, ZerosSlot};
    ghost use Rattle.ring_frames.specs.Phases.{as_answer};
    ghost use Rattle.ring_core.specs.Answers.{HasWholePage};
    ghost use Rattle.ring_core.specs.Steps.{MakesStep, MakesEvent, IsReachedCore, HasItsSize};

    /// One event, which is one step of the ring's model: its answer means the model's, and the ring is in the state
    /// after it. The body of a `Read` is returned with every answer but `Taken`.
    #[inline(always)]
    pub fn step(&mut self, event: Event) -> Answer
        requires ring { IsReachedCore self.old }
        requires size { HasItsSize self.old event }
        ensures obeys { MakesEvent event self.old result self.new }
        ensures ring { IsReachedCore self.new }
        ensures size { self.new.stack.size ≡ self.old.stack.size }
        ensures page { HasWholePage self.old.stack.size result }
    {
        self.obey(event)
    }

    /// Passes the event to the function of its kind.
    #[inline(always)]
    fn obey(&mut self, event: Event) -> Answer
        requires ring { IsReachedCore self.old }
        requires size { HasItsSize self.old event }
        ensures { MakesEvent event self.old result self.new }
    {
        match event {
            Event::Push { moment, len } => self.push(moment, len),
            Event::PushClose => self.push_close(),
            Event::Step => self.step_top(),
            Event::End => self.end(),
            Event::Read(body) => self.read(body),
            Event::Wish => self.store_wish(),
        }
    }

    /// One step of the frame on top: it reserves its record, or makes a step on a word.
    #[inline(always)]
    fn step_top(&mut self) -> Answer
        requires ring { IsReachedCore self.old }
        ensures makes { MakesStep self.old model.steps result self.new }
        ensures payloads { KeepsPayloads self.old.stack self.new.stack }
        ensures zeros { ZerosSlot self.old.stack result self.new.stack }
    {
        if self.frames.is_empty() {
            return Answer::Refused(WriteFault::NoFrame);
        }
        if self.frames.is_idle() {
            return self.reserve();
        }
        self.step_on_word().answer()
    }

    /// One step of the frame on top on a word. Most are looks for the reader's wish, so that is asked first.
    #[inline(always)]
    fn step_on_word(&mut self) -> StepAnswer
        requires ring { IsReachedCore self.old }
        requires top { self.old.stack.frames ≢ [] }
        requires phase { self.old.phase ≢ Idle }
        ensures makes { MakesStep self.old model.steps (as_answer result) self.new }
        ensures payloads { KeepsPayloads self.old.stack self.new.stack }
    {
        if self.frames.is_wishing() {
            return self.load_wish();
        }
        self.turn_page()
    }

    /// One step of the frame on top by which the head moves, or a fill is begun or closed.
    #[inline(never)]
    fn turn_page(&mut self) -> StepAnswer
        requires ring { IsReachedCore self.old }
        requires top { self.old.stack.frames ≢ [] }
        requires reserves { self.old.phase ≢ Idle }
        requires closes { self.old.phase ≢ Wishing }
        ensures makes { MakesStep self.old model.steps (as_answer result) self.new }
        ensures payloads { KeepsPayloads self.old.stack self.new.stack }
    {
        match self.frames.phase() {
            Phase::Looking { noted } => self.load_link(noted),
            Phase::Claiming { noted, page } => self.claim_head(noted, page),
            Phase::LookingNext { role, noted, page } => self.load_next(role, noted, page),
            Phase::Marking {
                role,
                noted,
                page,
                next,
            } => self.mark_head(role, noted, page, next),
            Phase::Clearing { noted, page } => self.clear_update(noted, page),
            Phase::Opening { noted, page } => self.open_fill(noted, page),
            Phase::Releasing => self.release_fill(),
            Phase::Idle | Phase::Wishing => unreachable!(),
        }
    }
}
