//! The frame on top, stepped as far as it gets by itself.
use crate::writer::Writer;
use nested_writer::WriteFault;
use nested_writer::frame::{Frame, Progress, Purpose};
use ring_frames::{Answer, Phase, StepAnswer};
use trace_model::RecordNo;

/// What `finish_top` makes of the frame on top.
enum Finished {
    /// Its record is reserved.
    Reserved,
    /// It is gone.
    Gone,
    /// It was refused, or no frame is on the stack.
    Refused(WriteFault),
}

/// What the frame on top is stepped to.
enum Target {
    /// Its record is reserved, or it is refused.
    Record,
    /// It is gone.
    End,
    /// One step is made: the frame has reserved, or no frame is on the stack, and the step says so.
    Step,
}

impl Writer {
    ghost use Rattle.std.specs.Prelude.{◌≡◌, ◌∷◌, List};
    ghost use Rattle.trace_model.specs.Frames.{Frame as ModelFrame};
    ghost use Rattle.ring_model.specs.FrameOutcomes.{IsReserving};
    ghost use Rattle.ring_shared.specs.Value.{SameWriter};
    ghost use Rattle.ring_shared.specs.Calls.{IsWriter};
    ghost use Rattle.ring_frames.specs.declared.phase.Phase.TheVariants.{Wishing};
    ghost use Rattle.ring_frames.specs.Answers.{KeepsPayloads, ZerosSlot};
    ghost use Rattle.ring_shared.specs.FewSteps.{MakesAtMost, most_to_finish};
    ghost use Rattle.ring_shared.specs.Promises.{HasLeavingTop, KeepsSlots, LeavesTop};
    ghost use Rattle.ring_shared.specs.Finishing.{Finishes, IsFinished, ZerosFinished, Reserves, Leaves, Closes};
    ghost use Rattle.ring_shared.specs.Finishing.{IsGoneOrRefused, met_behind};

    /// Steps a close frame, or one that was ended or refused, until it is gone, and a record frame that waits until its
    /// record is reserved, in a slot that holds only zeros, or it is refused; one that has reserved gets its number
    /// again, and its slot stays. It answers the refusal that it met, if any, else as its last step does. Each of its
    /// steps is one of `step`; in a ring of N pages they are at most 3N + 53, whatever the reader does. If there is no
    /// frame, it is refused with `NoFrame`.
    #[inline(always)]
    pub fn finish_top(&mut self) -> Answer
        requires writer { IsWriter self.old }
        ensures finished { Finishes self.old.shape self.old.part result self.new.part }
        ensures few { MakesAtMost (most_to_finish self.old.shape) self.old.part self.new.part }
        ensures slots { KeepsSlots self.old result self.new }
        ensures ring { SameWriter self.old self.new }
        ensures writer { IsWriter self.new }
    {
        if matches!(self.frames.phase(), Phase::Wishing) && !self.frames.is_empty() {
            return self.finish_wishing();
        }
        if let Some(pushed) = self.frames.plain_top() {
            return Answer::Reserved(self.reserve_plain(pushed));
        }
        match self.finish_any() {
            Finished::Refused(fault) => Answer::Refused(fault),
            Finished::Gone => Answer::Gone,
            Finished::Reserved => match self.top_slot() {
                Ok(slot) => Answer::Reserved(RecordNo(slot.number)),
                Err(_) => unreachable!(),
            },
        }
    }

    /// `finish_top`, whatever the frame on top, if any, with what it makes of that frame.
    #[cold]
    #[inline(never)]
    fn finish_any(&mut self) -> Finished
        requires writer { IsWriter self.old }
        ensures finished { IsFinished self.old result self.new }
        ensures payloads { KeepsPayloads self.old.frames.stack self.new.frames.stack }
        ensures zeros { ZerosFinished self.old.frames.stack result self.new.frames.stack }
        ensures ring { SameWriter self.old self.new }
        ensures writer { IsWriter self.new }
    {
        match target_of(self.frames.top()) {
            Target::Record => brief(self.reserve_top()),
            Target::End => match self.leave_on() {
                Some(fault) => Finished::Refused(fault),
                None => Finished::Gone,
            },
            Target::Step => brief(self.step()),
        }
    }

    /// The frame on top, which looks for the reader's wish, makes steps until it is gone: mostly one.
    #[inline(always)]
    fn finish_wishing(&mut self) -> Answer
        requires leaving { HasLeavingTop self.old }
        requires phase { self.old.frames.phase ≡ Wishing }
        ensures { LeavesTop self.old result self.new }
    {
        match self.load_wish() {
            StepAnswer::Going => self.finish_leaving(),
            StepAnswer::Gone => Answer::Gone,
        }
    }

    /// Finishes a frame that leaves, as `leave_on` does, and gives the answer of `finish_top`.
    #[inline(always)]
    fn finish_leaving(&mut self) -> Answer
        requires { HasLeavingTop self.old }
        ensures { LeavesTop self.old result self.new }
    {
        match self.leave_on() {
            Some(fault) => Answer::Refused(fault),
            None => Answer::Gone,
        }
    }

    /// The frame on top makes steps until it is gone, those that close fills and look for the wish first, without
    /// `step`: the refusal that it met, if any.
    #[inline(never)]
    pub(crate) fn leave_on(&mut self) -> Option<WriteFault>
        requires { HasLeavingTop self.old }
        ensures leaves { (answer : Answer) × (result ≡ met_behind None answer) × IsGoneOrRefused answer
            × ((frame : ModelFrame) (below : List ModelFrame) → self.old.part.frames ≡ frame ∷ below
            → Leaves self.old.shape below self.old.part answer self.new.part) }
        ensures payloads { KeepsPayloads self.old.frames.stack self.new.frames.stack }
        ensures ring { SameWriter self.old self.new }
        ensures writer { IsWriter self.new }
    {
        if let StepAnswer::Gone = self.close_fills() {
            return None;
        }
        met_first(None, self.leave_top())
    }

    /// The frame on top closes fills and looks for the reader's wish, as long as it is up to these: if it has left, and
    /// isn't about to close the tail.
    #[inline(always)]
    fn close_fills(&mut self) -> StepAnswer
        requires { HasLeavingTop self.old }
        ensures closes { (frame : ModelFrame) (below : List ModelFrame) → self.old.part.frames ≡ frame ∷ below
            → Closes self.old.shape below self.old.part result self.new.part }
        ensures payloads { KeepsPayloads self.old.frames.stack self.new.frames.stack }
        ensures ring { SameWriter self.old self.new }
        ensures writer { IsWriter self.new }
    {
        loop {
            match self.frames.phase() {
                Phase::Releasing => {
                    self.release_fill();
                }
                Phase::Wishing => return self.load_wish(),
                _ => return StepAnswer::Going,
            }
        }
    }

    /// The frame on top makes steps until its record is reserved, or it is refused.
    #[inline(always)]
    fn reserve_top(&mut self) -> Answer
        requires writer { IsWriter self.old }
        requires top { (frame : ModelFrame) × (below : List ModelFrame) × (self.old.part.frames ≡ frame ∷ below)
            × IsReserving frame.kind frame.state }
        ensures reserves { (frame : ModelFrame) (below : List ModelFrame) → self.old.part.frames ≡ frame ∷ below
            → Reserves self.old.shape frame.kind below self.old.part result self.new.part }
        ensures payloads { KeepsPayloads self.old.frames.stack self.new.frames.stack }
        ensures zeros { ZerosSlot self.old.frames.stack result self.new.frames.stack }
        ensures ring { SameWriter self.old self.new }
        ensures writer { IsWriter self.new }
    {
        loop {
            if let Some(last) = unless_going(self.step()) {
                return last;
            }
            self.turn_over();
        }
    }

    /// Reserves the record of the frame on top, as `reserve_top` does, and answers the refusal that it met, if any.
    #[inline(never)]
    pub(crate) fn reserve_on(&mut self) -> Option<WriteFault>
        requires writer { IsWriter self.old }
        requires top { (frame : ModelFrame) × (below : List ModelFrame) × (self.old.part.frames ≡ frame ∷ below)
            × IsReserving frame.kind frame.state }
        ensures reserves { (answer : Answer) × (result ≡ met_behind None answer)
            × ((frame : ModelFrame) (below : List ModelFrame) → self.old.part.frames ≡ frame ∷ below
            → Reserves self.old.shape frame.kind below self.old.part answer self.new.part) }
        ensures payloads { KeepsPayloads self.old.frames.stack self.new.frames.stack }
        ensures ring { SameWriter self.old self.new }
        ensures writer { IsWriter self.new }
    {
        met_first(None, self.reserve_top())
    }

    /// The frame on top, in whatever phase, is stepped by `step` until it is gone.
    #[inline(always)]
    fn leave_top(&mut self) -> Answer
        requires { HasLeavingTop self.old }
        ensures { LeavesTop self.old result self.new }
    {
        let depth = self.depth();
        let mut met = None;
        loop {
            let answer = self.step();
            if self.depth() < depth {
                return refusal_or_last(met, answer);
            }
            met = met_first(met, answer);
        }
    }
}

/// The answer, without the record's number, which the slot on top states.
fn brief(answer: Answer) -> Finished
    requires { IsNumberOrRefused answer }
    ensures { IsOutcomeOf answer result }
{
    match answer {
        Answer::Refused(fault) => Finished::Refused(fault),
        _ => Finished::Reserved,
    }
}

/// The answer, if it isn't `Going`.
fn unless_going(answer: Answer) -> Option<Answer>
    ensures going { result ≡ None → answer ≡ Going }
    ensures other { (last : Answer) → result ≡ Some last → (last ≡ answer) × (answer ≢ Going) }
{
    match answer {
        Answer::Going => None,
        last => Some(last),
    }
}

/// The refusal that was met first, after this answer.
pub(crate) fn met_first(met: Option<WriteFault>, answer: Answer) -> Option<WriteFault>
    ensures { result ≡ met_behind met answer }
{
    match (met, answer) {
        (None, Answer::Refused(fault)) => Some(fault),
        _ => met,
    }
}

/// The refusal that was met, or else the last answer.
fn refusal_or_last(met: Option<WriteFault>, last: Answer) -> Answer
    ensures { result ≡ refusal_or_last met last }
{
    match met {
        Some(fault) => Answer::Refused(fault),
        None => last,
    }
}

/// What this frame, on top, is stepped to.
fn target_of(top: Option<Frame>) -> Target
    ensures { IsTarget top result }
{
    let Some(top) = top else {
        return Target::Step;
    };
    match top.progress {
        Progress::Reserved(_) => Target::Step,
        Progress::Left(_) => Target::End,
        Progress::Waiting(_) | Progress::Through(_) => match top.purpose {
            Purpose::Record { .. } => Target::Record,
            Purpose::Close => Target::End,
        },
    }
}

ghost use Rattle.std.specs.Prelude.{◌≡◌, ◌≢◌};
ghost use Rattle.ring_frames.specs.declared.answer.Answer.TheVariants.{Going};
ghost use Rattle.ring_shared.specs.Finishing.{IsNumberOrRefused, IsOutcomeOf, IsTarget, met_behind, refusal_or_last};
