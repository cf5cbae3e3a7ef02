//! What a replay reports as it goes: its log, and its steps if somebody is told of them.
ghost use Rattle.std.specs.Prelude.{◌≡◌, None, IsFalse, OnOk};
ghost use Rattle.page_numbers.specs.Parcels.{as_parcel};
ghost use Rattle.script_replay.specs.Tells.{IsStepTold};
ghost use Rattle.script_replay.specs.Reports.{GainsAreReported, IsReported, LineIsReported, MayReport};

use crate::log::{At, LogLine, report, report_any};
use crate::{Asked, Teller};
use page_numbers::Parcel;
use ring_core::{Answer, Core};
use std::marker::Model;
use trace_model::NoMemory;

/// What a replay reports. What a call leaves if memory is refused is not used.
#[derive(Drop)]
pub(crate) struct Reports<T: Teller> {
    /// What the lines met.
    pub(crate) log: Vec<LogLine>,
    /// Who is told of their steps.
    pub(crate) steps: T,
}

impl<T: Teller> Model for Reports<T> {
    ghost use Rattle.script_replay.specs.Reports.{ReportsValue};

    ghost Value = { ReportsValue };

    ghost view = { λ a. record { log = a.log.items; steps = T.told a.steps } };
}

impl<T: Teller> Reports<T> {
    /// Tells a step, if that is asked for.
    #[inline(always)]
    fn tell(&mut self, at: At, asked: Asked, answer: &Answer, ring: &Core) -> Result<(), NoMemory>
        requires { MayReport at.cpu.0 asked answer.now ring.now self.old }
        ensures log { OnOk result (self.new.log ≡ self.old.log) }
        ensures steps { OnOk result (IsStepTold at.line at.cpu.0 asked.entry answer.now ring.now
            self.old.steps self.new.steps) }
    {
        self.steps.tell(at, asked, answer, ring)
    }

    /// Reports a step of a ring: what was asked, what it answered, and the ring after it.
    pub(crate) fn report_any(
        &mut self,
        at: At,
        asked: Asked,
        answer: &Answer,
        ring: &Core,
    ) -> Result<(), NoMemory>
        requires { MayReport at.cpu.0 asked answer.now ring.now self.old }
        ensures { OnOk result (IsReported at.line at.cpu.0 asked.entry answer.now ring.now self.old self.new) }
    {
        self.tell(at, asked, answer, ring)?;
        report_any(at, answer, &mut self.log)
    }

    /// Whether steps are told.
    #[inline(always)]
    pub(crate) fn tells(&self) -> bool
        ensures { IsFalse result → self.now.steps ≡ None }
    {
        let _told = &self.steps;
        T::TELLS
    }

    /// Reports a step of a ring by an answer that isn't needed any more. If nobody is told, the answer needs no place
    /// in memory.
    #[inline(always)]
    pub(crate) fn report(
        &mut self,
        at: At,
        asked: Asked,
        answer: Answer,
        ring: &Core,
    ) -> Result<(), NoMemory>
        requires { MayReport at.cpu.0 asked answer ring.now self.old }
        ensures { OnOk result (IsReported at.line at.cpu.0 asked.entry answer ring.now self.old self.new) }
    {
        self.tell(at, asked, &answer, ring)?;
        report(at, answer, &mut self.log)
    }

    /// Reports a delivery by its line of the log.
    #[inline(never)]
    pub(crate) fn report_delivery(&mut self, logged: LogLine) -> Result<(), NoMemory>
        ensures { OnOk result (LineIsReported logged self.old self.new) }
    {
        self.steps.tell_delivery(&logged)?;
        self.log.push(logged)?;
        Ok(())
    }

    /// Reports what a delivery brings to a collector that hasn't all of it.
    #[inline(never)]
    pub(crate) fn report_gains(&mut self, parcel: &Parcel) -> Result<(), NoMemory>
        ensures { OnOk result (GainsAreReported (as_parcel parcel.now) self.old self.new) }
    {
        self.steps.tell_gains(parcel)
    }
}
