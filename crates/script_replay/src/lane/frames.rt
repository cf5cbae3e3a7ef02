//! The steps of the frame on top.
use crate::lane::Lane;
use crate::log::At;
use crate::reports::Reports;
use crate::{Asked, Teller};
use nested_writer::WriteFault;
use ring_core::{Answer, Event};
use ring_frames::write_padded;
use trace_model::NoMemory;

/// More steps than a frame or a take makes in a ring of the most pages.
pub(crate) const MOST_STEPS: u64 = 8192;

impl<'a> Lane<'a> {
    ghost use Rattle.std.specs.Prelude.{◌≡◌, ◌≢◌, ℕ, ◌-◌, [], drop, length, OnOk};
    ghost use Rattle.text_model.specs.Script.{step_frame, finish_frame};
    ghost use Rattle.script_replay.specs.Lanes.{IsLaneOf, IsReportedLane, MakesExchanges, HasLine};
    ghost use Rattle.script_replay.specs.Frames.{AsksTop, StepsOnce, FollowsFrame};

    /// Lets the frame on top make `count` steps, or fewer if it is gone before.
    #[inline(never)]
    pub(crate) fn step<T: Teller>(
        &mut self,
        at: At,
        count: u64,
        reports: &mut Reports<T>,
    ) -> Result<(), NoMemory>
        requires { IsReportedLane at.cpu.0 self.old reports.old }
        ensures { OnOk result (HasLine (step_frame at.cpu.0 count) at.line at.cpu.0
            self.old reports.old self.new reports.new) }
    {
        if self.core.depth() == 0 {
            let refused = Answer::Refused(WriteFault::NoFrame);
            return reports.report(at, Asked::Top(&[]), refused, &self.core);
        }
        self.follow(at, count, reports)
    }

    /// Has the frame on top make steps until it is gone: `MOST_STEPS` is more than any frame makes.
    #[inline(never)]
    pub(crate) fn finish<T: Teller>(
        &mut self,
        at: At,
        reports: &mut Reports<T>,
    ) -> Result<(), NoMemory>
        requires { IsReportedLane at.cpu.0 self.old reports.old }
        ensures { OnOk result (HasLine (finish_frame at.cpu.0) at.line at.cpu.0
            self.old reports.old self.new reports.new) }
    {
        self.step(at, MOST_STEPS, reports)
    }

    /// Has the frame on top make `count` steps, or fewer if it is gone before: then fewer payloads are kept.
    #[inline(always)]
    fn follow<T: Teller>(
        &mut self,
        at: At,
        count: u64,
        reports: &mut Reports<T>,
    ) -> Result<(), NoMemory>
        requires lane { IsReportedLane at.cpu.0 self.old reports.old }
        requires stands { self.old.core.stack.frames ≢ [] }
        ensures { OnOk result (MakesExchanges (FollowsFrame count) at.line at.cpu.0
            self.old reports.old self.new reports.new) }
    {
        let depth = self.payloads.len();
        let payload = self.payloads[depth - 1];
        let mut steps = 0;
        while steps < count && self.payloads.len() == depth {
            let answer = self.step_once::<T>();
            reports.report(at, Asked::Top(payload), answer, &self.core)?;
            steps += 1;
        }
        Ok(())
    }

    /// One step of the frame on top (`ask_top`). The payload of a frame that is gone is dropped.
    ///
    /// This and `ask_top` name who is told, so that each replay has a copy: so large a function is inlined only if it
    /// has one call.
    #[inline(always)]
    fn step_once<T: Teller>(&mut self) -> Answer
        requires { (cpu : ℕ) × IsLaneOf cpu self.old }
        ensures { StepsOnce self.old result self.new }
    {
        let answer = self.ask_top::<T>();
        self.forget_gone();
        answer
    }

    /// One step of the ring's frame on top: if its record is reserved, its payload is written, and it ends.
    #[inline(always)]
    fn ask_top<T: Teller>(&mut self) -> Answer
        requires { (cpu : ℕ) × IsLaneOf cpu self.old }
        ensures ring { self.new ≡ record self.old { core = self.new.core } }
        ensures step { AsksTop self.old result self.new.core }
    {
        let Ok(slot) = self.core.top_mut() else {
            return self.core.step(Event::Step);
        };
        let payload = self.payloads[self.payloads.len() - 1];
        write_padded(slot, payload);
        self.core.step(Event::End)
    }

    /// Drops the payloads of frames that are gone.
    #[inline(always)]
    fn forget_gone(&mut self)
        ensures { self.new ≡ record self.old {
          payloads = drop (length self.old.payloads - length self.old.core.stack.frames) self.old.payloads;
        } }
    {
        self.payloads.truncate(self.core.depth());
    }
}
