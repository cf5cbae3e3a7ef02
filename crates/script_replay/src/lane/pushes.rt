//! Frames that are pushed.
use crate::lane::Lane;
use crate::log::At;
use crate::reports::Reports;
use crate::{Asked, Teller};
use nested_writer::Wrote;
use ring_core::{Answer, Event};
use trace_model::NoMemory;

impl<'a> Lane<'a> {
    ghost use Rattle.std.specs.Prelude.{◌≡◌, ℕ, None, IfOk, OnOk};
    ghost use Rattle.trace_model.specs.Ring as model;
    ghost use Rattle.text_model.specs.Script.{begin_frame, write, close};
    ghost use Rattle.script_replay.specs.Tells.{IsAsked};
    ghost use Rattle.script_replay.specs.Lanes.{IsLaneOf, IsReportedLane, HasLine};
    ghost use Rattle.script_replay.specs.Frames.{IsPushOf, push_event, Pushes, HasWritten, HasWrittenAtOnce};

    /// Pushes a record frame of this moment and payload.
    #[inline(never)]
    pub(crate) fn begin<T: Teller>(
        &mut self,
        at: At,
        moment: u64,
        payload: &'a [u8],
        reports: &mut Reports<T>,
    ) -> Result<(), NoMemory>
        requires { IsReportedLane at.cpu.0 self.old reports.old }
        ensures { OnOk result (HasLine (begin_frame at.cpu.0 moment payload.now) at.line at.cpu.0
            self.old reports.old self.new reports.new) }
    {
        let len = payload.len();
        let answer = self.push(Event::Push { moment, len }, payload)?;
        reports.report(at, Asked::Push, answer, &self.core)
    }

    /// Pushes a record frame of this moment and payload, and lets it make steps until it is gone.
    #[inline(never)]
    pub(crate) fn write<T: Teller>(
        &mut self,
        at: At,
        moment: u64,
        payload: &'a [u8],
        reports: &mut Reports<T>,
    ) -> Result<(), NoMemory>
        requires { IsReportedLane at.cpu.0 self.old reports.old }
        ensures { OnOk result (HasLine (write at.cpu.0 moment payload.now) at.line at.cpu.0
            self.old reports.old self.new reports.new) }
    {
        match self.write_at_once(moment, payload, reports) {
            Wrote::Record => Ok(()),
            Wrote::Nothing => self.write_by_steps(at, moment, payload, reports),
        }
    }

    /// Writes a record of this moment and payload in one call, if the ring does that and nothing is to be told of the
    /// steps of its frame: nothing is logged of them.
    #[inline(always)]
    fn write_at_once<T: Teller>(
        &mut self,
        moment: u64,
        payload: &'a [u8],
        reports: &Reports<T>,
    ) -> Wrote
        requires { (cpu : ℕ) × IsLaneOf cpu self.old }
        ensures wrote { result ≡ Wrote.Record → HasWrittenAtOnce moment payload.now self.old self.new }
        ensures untold { result ≡ Wrote.Record → reports.now.steps ≡ None }
        ensures nothing { result ≡ Wrote.Nothing → self.new ≡ self.old }
    {
        if reports.tells() {
            return Wrote::Nothing;
        }
        if self.core.depth() == 0 {
            return self.core.write(moment, payload);
        }
        self.core.write_above(moment, payload)
    }

    /// Writes a record of this moment and payload step by step.
    #[inline(never)]
    fn write_by_steps<T: Teller>(
        &mut self,
        at: At,
        moment: u64,
        payload: &'a [u8],
        reports: &mut Reports<T>,
    ) -> Result<(), NoMemory>
        requires { IsReportedLane at.cpu.0 self.old reports.old }
        ensures { OnOk result (HasLine (write at.cpu.0 moment payload.now) at.line at.cpu.0
            self.old reports.old self.new reports.new) }
    {
        let len = payload.len();
        self.push_and_finish(
            at,
            Asked::Push,
            Event::Push { moment, len },
            payload,
            reports,
        )
    }

    /// Pushes a close frame, and lets it make steps until it is gone.
    #[inline(never)]
    pub(crate) fn close<T: Teller>(
        &mut self,
        at: At,
        reports: &mut Reports<T>,
    ) -> Result<(), NoMemory>
        requires { IsReportedLane at.cpu.0 self.old reports.old }
        ensures { OnOk result (HasLine (close at.cpu.0) at.line at.cpu.0
            self.old reports.old self.new reports.new) }
    {
        self.push_and_finish(at, Asked::PushClose, Event::PushClose, &[], reports)
    }

    /// Pushes a frame with this payload, and lets it make steps until it is gone.
    #[inline(always)]
    fn push_and_finish<T: Teller>(
        &mut self,
        at: At,
        asked: Asked,
        event: Event,
        payload: &'a [u8],
        reports: &mut Reports<T>,
    ) -> Result<(), NoMemory>
        requires lane { IsReportedLane at.cpu.0 self.old reports.old }
        requires push { IsPushOf event payload.now }
        requires asked { (core : model.Core) → IsAsked asked core (push_event event) }
        ensures { OnOk result (HasWritten (push_event event) payload.now at.line at.cpu.0
            self.old reports.old self.new reports.new) }
    {
        let answer = self.push(event, payload)?;
        match answer {
            Answer::Pushed => {
                reports.report(at, asked, Answer::Pushed, &self.core)?;
                self.finish(at, reports)
            }
            refused => reports.report(at, asked, refused, &self.core),
        }
    }

    /// Pushes a frame, and keeps its payload if it isn't refused.
    #[inline(always)]
    fn push(&mut self, event: Event, payload: &'a [u8]) -> Result<Answer, NoMemory>
        requires lane { (cpu : ℕ) × IsLaneOf cpu self.old }
        requires push { IsPushOf event payload.now }
        ensures { IfOk result (λ answer. Pushes (push_event event) payload.now self.old answer self.new) }
    {
        let answer = self.core.step(event);
        if let Answer::Pushed = answer {
            self.payloads.push(payload)?;
        }
        Ok(answer)
    }
}
