//! The reader of a lane: takes, and its wish.
use crate::lane::Lane;
use crate::lane::frames::MOST_STEPS;
use crate::log::At;
use crate::reports::Reports;
use crate::{Asked, Teller};
use page_image::{Body, Page};
use page_numbers::Parcel;
use ring_core::{Answer, Event};
use std::alloc::Global;
use trace_model::{CpuId, NoMemory};

impl<'a> Lane<'a> {
    ghost use Rattle.std.specs.Prelude.{◌≡◌, ℕ, ◌+◌, ◌^◌, ◌<◌, ◌≤◌, None, IfOk, OnOk, length};
    ghost use Rattle.trace_model.specs.declared.limits.TheConstants.{MAX_CPUS};
    ghost use Rattle.page_image.specs.Contents.{IsPage, records_of_page};
    ghost use Rattle.text_model.specs.Script.{step_reader, take_page, wish};
    ghost use Rattle.script_replay.specs.Lanes.{IsLaneOf, IsReportedLane, MakesExchanges, HasLine};
    ghost use Rattle.script_replay.specs.Takes.{ReadsOnce, Keeps, KeepsPage, MayKeep};

    /// Lets the reader make `count` steps, or fewer if its take ends before.
    pub(crate) fn step_reader<T: Teller>(
        &mut self,
        alloc: Global,
        at: At,
        count: u64,
        reports: &mut Reports<T>,
    ) -> Result<(), NoMemory>
        requires { IsReportedLane at.cpu.0 self.old reports.old }
        ensures { OnOk result (HasLine (step_reader at.cpu.0 count) at.line at.cpu.0
            self.old reports.old self.new reports.new) }
    {
        let mut steps = 0;
        let mut goes_on = true;
        while steps < count && goes_on {
            goes_on = self.read_once(alloc, at, reports)?;
            steps += 1;
        }
        Ok(())
    }

    /// Has the reader make steps until it answers: `MOST_STEPS` is more than any take makes.
    pub(crate) fn take<T: Teller>(
        &mut self,
        alloc: Global,
        at: At,
        reports: &mut Reports<T>,
    ) -> Result<(), NoMemory>
        requires { IsReportedLane at.cpu.0 self.old reports.old }
        ensures { OnOk result (HasLine (take_page at.cpu.0) at.line at.cpu.0
            self.old reports.old self.new reports.new) }
    {
        self.step_reader(alloc, at, MOST_STEPS, reports)
    }

    /// Lets the reader wish for the tail page.
    pub(crate) fn wish<T: Teller>(
        &mut self,
        at: At,
        reports: &mut Reports<T>,
    ) -> Result<(), NoMemory>
        requires { IsReportedLane at.cpu.0 self.old reports.old }
        ensures { OnOk result (HasLine (wish at.cpu.0) at.line at.cpu.0
            self.old reports.old self.new reports.new) }
    {
        let answer = self.core.step(Event::Wish);
        reports.report(at, Asked::Wish, answer, &self.core)
    }

    /// One step of the reader: the answer says whether its take continues.
    fn read_once<T: Teller>(
        &mut self,
        alloc: Global,
        at: At,
        reports: &mut Reports<T>,
    ) -> Result<bool, NoMemory>
        requires { IsReportedLane at.cpu.0 self.old reports.old }
        ensures { IfOk result (λ goes_on. MakesExchanges (ReadsOnce goes_on) at.line at.cpu.0
            self.old reports.old self.new reports.new) }
    {
        let body = self.next_body(alloc)?;
        let answer = self.core.step(Event::Read(body));
        reports.report_any(at, Asked::Read, &answer, &self.core)?;
        self.keep(alloc, at.cpu, answer)
    }

    /// The body that comes with the reader's next step.
    fn next_body(&mut self, alloc: Global) -> Result<Body, NoMemory>
        requires { (cpu : ℕ) × IsLaneOf cpu self.old }
        ensures size { IfOk result (λ body. length body ≡ self.old.core.stack.size) }
        ensures rest { OnOk result (self.new ≡ record self.old { body = None }) }
    {
        match self.body.take() {
            Some(body) => Ok(body),
            None => Body::new(alloc, self.core.size()),
        }
    }

    /// Keeps what an answer of the reader brings, a body or a page. The answer says whether the take continues.
    #[inline(always)]
    fn keep(&mut self, alloc: Global, cpu: CpuId, answer: Answer) -> Result<bool, NoMemory>
        requires { MayKeep cpu.0 answer }
        ensures { IfOk result (λ goes_on. Keeps cpu.0 answer goes_on self.old self.new) }
    {
        match answer {
            Answer::Looking(body) => {
                self.body = Some(body);
                Ok(true)
            }
            Answer::Empty(_, body) | Answer::Moving(_, body) => {
                self.body = Some(body);
                Ok(false)
            }
            Answer::Taken(page, missed) => {
                self.keep_page(alloc, cpu, page, missed)?;
                Ok(false)
            }
            _ => unreachable!(),
        }
    }

    /// Keeps the records of a page that was taken as a parcel, in as many bytes as they take; and the page's own body
    /// for the next take.
    fn keep_page(
        &mut self,
        alloc: Global,
        cpu: CpuId,
        page: Page,
        missed: u64,
    ) -> Result<(), NoMemory>
        requires page { IsPage page }
        requires known { cpu.0 < MAX_CPUS }
        requires numbers { page.first + length (records_of_page page) < 2 ^ 64 }
        requires missed { missed ≤ page.first }
        ensures { OnOk result (KeepsPage cpu.0 page missed self.old self.new) }
    {
        let parcel = Parcel::fitted(alloc, cpu, &page, missed)?;
        self.taken.push(parcel)?;
        self.body = Some(page.into_body());
        Ok(())
    }
}
