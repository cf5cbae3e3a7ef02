//! Frames that leave.
use crate::answer::Answer;
use crate::frames::Frames;
use crate::phase::StepAnswer;
use nested_writer::Ended;

impl Frames {
    ghost use Rattle.std.specs.Prelude.{◌≡◌, ◌≢◌, []};
    ghost use Rattle.trace_model.specs.Steps as model;
    ghost use Rattle.ring_frames.specs.Answers.{top_bytes, EndsPayload};
    ghost use Rattle.ring_frames.specs.Steps.{MakesPrivate, AreSomeFrames};
    ghost use Rattle.ring_frames.specs.Phases.{with_left_phase, left_answer, as_answer, closing_phase};

    /// The frame on top ends with the payload that is in its slot.
    #[inline(always)]
    pub fn end(&mut self) -> Answer
        requires shown { AreSomeFrames self.old }
        ensures step { MakesPrivate self.old (model.ends (top_bytes self.old.stack self.old.stack.frames)) result
            self.new }
        ensures payloads { EndsPayload self.old.stack self.new.stack }
    {
        match self.stack.end() {
            Ok(Ended::Full) => {
                self.start_closing();
                Answer::Ended(Ended::Full)
            }
            Ok(Ended::Pending) => {
                self.uncover_phase();
                Answer::Ended(Ended::Pending)
            }
            Err(fault) => Answer::Refused(fault),
        }
    }

    /// The frame on top has left: one with a frame below it is gone, and the bottom one is still on the stack.
    #[inline(always)]
    pub(crate) fn pop_phase(&mut self) -> StepAnswer
        ensures answer { as_answer result ≡ left_answer self.old.below }
        ensures phase { self.new ≡ with_left_phase self.old }
    {
        if self.below.is_empty() {
            self.start_closing();
            StepAnswer::Going
        } else {
            self.uncover_phase();
            StepAnswer::Gone
        }
    }

    /// The frame below the one on top is on top.
    #[inline(never)]
    fn uncover_phase(&mut self)
        requires below { self.old.below ≢ [] }
        ensures phase { self.new ≡ with_left_phase self.old }
    {
        match self.below.pop_front() {
            Some(phase) => self.phase.set(phase),
            None => unreachable!(),
        }
    }

    /// The frame on top, which has left, closes fills, or if none is left to close looks for a wish.
    #[inline(always)]
    pub(crate) fn start_closing(&mut self)
        ensures { self.new ≡ record self.old { phase = closing_phase self.old.stack } }
    {
        let opened = self.stack.opened();
        if self.stack.done() + 1 == opened {
            self.phase.set_wishing();
        } else {
            self.phase.set_releasing();
        }
    }
}
