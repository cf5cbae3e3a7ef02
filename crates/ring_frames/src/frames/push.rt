//! Frames that are pushed.
use crate::answer::Answer;
use crate::frames::Frames;

impl Frames {
    ghost use Rattle.std.specs.Prelude.{◌≡◌, ◌<◌, ◌↔◌, length, IsTrue};
    ghost use Rattle.trace_model.specs.declared.limits.TheConstants.{MAX_FRAMES};
    ghost use Rattle.trace_model.specs.Steps as model;
    ghost use Rattle.ring_frames.specs.Steps.{MakesPrivate, AreSomeFrames};
    ghost use Rattle.ring_frames.specs.Answers.{KeepsPayloads};
    ghost use Rattle.ring_frames.specs.Phases.{with_pushed_phase};

    /// A frame is pushed for a record of this moment and of a payload of `len` bytes.
    #[inline(always)]
    pub fn push(&mut self, moment: u64, len: usize) -> Answer
        requires shown { AreSomeFrames self.old }
        ensures step { MakesPrivate self.old (model.pushes moment len) result self.new }
        ensures payloads { KeepsPayloads self.old.stack self.new.stack }
    {
        let covers = self.stack.depth() > 0;
        match self.stack.begin(moment, len) {
            Ok(()) => self.push_phase(covers),
            Err(fault) => Answer::Refused(fault),
        }
    }

    /// A close frame is pushed: it begins the next fill, if the tail page holds a record.
    pub fn push_close(&mut self) -> Answer
        requires shown { AreSomeFrames self.old }
        ensures step { MakesPrivate self.old model.pushes_close result self.new }
        ensures payloads { KeepsPayloads self.old.stack self.new.stack }
    {
        let covers = self.stack.depth() > 0;
        match self.stack.begin_close() {
            Ok(()) => self.push_phase(covers),
            Err(fault) => Answer::Refused(fault),
        }
    }

    /// The frame that was pushed has noted nothing; `covers` says whether there is one below it.
    #[inline(always)]
    fn push_phase(&mut self, covers: bool) -> Answer
        requires room { length self.old.below < MAX_FRAMES }
        requires covers { IsTrue covers ↔ 1 < length self.old.stack.frames }
        ensures pushed { result ≡ Answer.Pushed }
        ensures phase { self.new ≡ with_pushed_phase self.old }
    {
        if covers {
            self.below.push_front_reserved(self.phase.get());
        }
        self.phase.set_idle();
        Answer::Pushed
    }
}
