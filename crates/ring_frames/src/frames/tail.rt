//! The steps of a frame at the tail: it reserves, and tries again once a fill was begun.
use crate::answer::Answer;
use crate::frames::Frames;
use crate::phase::{Phase, StepAnswer};
use nested_writer::Allot;
use nested_writer::frame::{Progress, Purpose, Pushed};
use trace_model::RecordNo;

impl Frames {
    ghost use Rattle.std.specs.Prelude.{◌≡◌, ◌≢◌, ℕ, [], List, Some, IfSome};
    ghost use Rattle.trace_model.specs.Steps as model;
    ghost use Rattle.trace_model.specs.Frames.{noted_fill};
    ghost use Rattle.trace_model.specs.History.{HistoryEvent};
    ghost use Rattle.ring_model.specs.Seats.{PhaseIsPrivate};
    ghost use Rattle.nested_writer.specs.Stack.{opened};
    ghost use Rattle.nested_writer.specs.Ends.{MayEndTop, IsEnd};
    ghost use Rattle.nested_writer.specs.IsStack.{IsStack};
    ghost use Rattle.nested_writer.specs.PlainTop.{IsPlainTop};
    ghost use Rattle.ring_frames.specs.declared.phase.StepAnswer.TheVariants.{Going};
    ghost use Rattle.ring_frames.specs.declared.phase.Phase.TheVariants.{Idle};
    ghost use Rattle.ring_frames.specs.Value.{phase_of};
    ghost use Rattle.ring_frames.specs.Answers.{KeepsPayloads, ZerosSlot};
    ghost use Rattle.ring_frames.specs.Phases.{with_left_phase, left_answer, as_answer};
    ghost use Rattle.ring_frames.specs.Steps.{MakesPrivate, IsFrames, AreSomeFrames, GoesOnIn, IsNotedIn, BeginsAgain};
    ghost use Rattle.ring_frames.specs.Steps.{LeavesWithout, IsCloseTop};

    /// What the frame on top was pushed with, if it is a record frame that tried nothing yet, and its record is plain
    /// (`docs/GLOSSARY.md`): short, and far enough from the page's end for any short record. `None` says nothing of the
    /// frame.
    #[inline(always)]
    pub fn plain_top(&self) -> Option<Pushed>
        requires shown { AreSomeFrames self.now }
        ensures { IfSome result (λ pushed. IsPlainTop self.now.stack pushed) }
    {
        self.stack.plain_top()
    }

    /// The record of the frame on top, as `plain_top` answered it, is reserved in the tail page: its number.
    #[inline(always)]
    pub fn reserve_plain(&mut self, pushed: Pushed) -> RecordNo
        requires frames { IsFrames self.old }
        requires plain { IsPlainTop self.old.stack pushed }
        ensures step { MakesPrivate self.old model.steps (Answer.Reserved result) self.new }
        ensures payloads { KeepsPayloads self.old.stack self.new.stack }
        ensures zeros { ZerosSlot self.old.stack (Answer.Reserved result) self.new.stack }
    {
        RecordNo(self.stack.reserve_plain(pushed))
    }

    /// The record of the frame on top is reserved in the tail page, or there is nothing to close; or a page is needed,
    /// and refused or noted. A frame that has reserved gets its number again.
    #[inline(always)]
    pub fn reserve(&mut self) -> Answer
        requires frames { IsFrames self.old }
        requires top { self.old.stack.frames ≢ [] }
        requires phase { self.old.phase ≡ Idle }
        ensures step { MakesPrivate self.old model.steps result self.new }
        ensures payloads { KeepsPayloads self.old.stack self.new.stack }
        ensures zeros { ZerosSlot self.old.stack result self.new.stack }
    {
        match self.stack.allot() {
            Ok(Allot::Fits(_)) => match self.stack.top_slot() {
                Ok(slot) => Answer::Reserved(RecordNo(slot.number)),
                Err(_) => self.end_close().answer(),
            },
            Ok(Allot::NeedsPage) => {
                let noted = self.stack.opened();
                self.phase.set(Phase::Looking { noted });
                Answer::Going
            }
            Err(fault) => {
                self.pop_phase();
                Answer::Refused(fault)
            }
        }
    }

    /// The close frame on top, for which no page is needed, leaves.
    #[inline(never)]
    fn end_close(&mut self) -> StepAnswer
        requires stack { (start : ℕ) × (history : List HistoryEvent) × IsStack start history self.old.stack }
        requires through { MayEndTop self.old.stack.frames }
        ensures answer { as_answer result ≡ left_answer self.old.below }
        ensures left { IsEnd self.old.stack self.old.stack.frames self.new.stack }
        ensures phase { self.new ≡ with_left_phase (record self.old { stack = self.new.stack }) }
    {
        match self.stack.end() {
            Ok(_) => self.pop_phase(),
            Err(_) => unreachable!(),
        }
    }

    /// A fill was begun since the frame on top noted what to open: a record frame tries again, a close frame has what
    /// it wanted and leaves, and one that has left continues to close fills. If another frame has begun the fill, that
    /// is a step by itself.
    #[inline(always)]
    pub fn begin_again(&mut self) -> StepAnswer
        requires shown { AreSomeFrames self.old }
        requires top { self.old.stack.frames ≢ [] }
        requires passed { (noted : ℕ) × (noted_fill (phase_of self.old.phase) ≡ Some noted)
            × (noted ≢ opened self.old.stack) }
        ensures again { BeginsAgain self.old (as_answer result) self.new }
        ensures late { PhaseIsPrivate (phase_of self.old.phase) (opened self.old.stack)
            → MakesPrivate self.old model.steps (as_answer result) self.new }
        ensures payloads { KeepsPayloads self.old.stack self.new.stack }
    {
        self.again()
    }

    /// The frame on top begins again, by what it is.
    #[inline(always)]
    fn again(&mut self) -> StepAnswer
        requires shown { AreSomeFrames self.old }
        requires top { self.old.stack.frames ≢ [] }
        requires passed { (noted : ℕ) × (noted_fill (phase_of self.old.phase) ≡ Some noted)
            × (noted ≢ opened self.old.stack) }
        ensures again { BeginsAgain self.old (as_answer result) self.new }
        ensures payloads { KeepsPayloads self.old.stack self.new.stack }
    {
        let Some(top) = self.stack.top() else {
            unreachable!()
        };
        match top.progress {
            Progress::Waiting(_) => match top.purpose {
                Purpose::Record { .. } => self.go_on(Phase::Idle),
                Purpose::Close => self.leave_closed(),
            },
            Progress::Left(_) => {
                self.start_closing();
                StepAnswer::Going
            }
            Progress::Through(_) | Progress::Reserved(_) => self.go_on(Phase::Idle),
        }
    }

    /// The frame on top continues in this phase.
    #[inline(always)]
    pub fn go_on(&mut self, phase: Phase) -> StepAnswer
        ensures answer { result ≡ Going }
        ensures phase { self.new ≡ record self.old { phase = phase } }
        ensures goes_on { (noted : ℕ) → IsNotedIn self.old.phase phase noted → GoesOnIn self.old phase self.new }
        ensures payloads { KeepsPayloads self.old.stack self.new.stack }
    {
        self.phase.set(phase);
        StepAnswer::Going
    }

    /// The close frame on top leaves, since the fill after the tail that it was to close is begun.
    fn leave_closed(&mut self) -> StepAnswer
        requires shown { AreSomeFrames self.old }
        requires close { (noted : ℕ) × IsCloseTop self.old noted × (noted ≢ opened self.old.stack) }
        ensures without { LeavesWithout self.old (as_answer result) self.new }
        ensures payloads { KeepsPayloads self.old.stack self.new.stack }
    {
        match self.stack.allot() {
            Ok(_) => self.end_close(),
            Err(_) => unreachable!(),
        }
    }
}
