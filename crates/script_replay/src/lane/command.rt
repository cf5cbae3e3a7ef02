//! What a line of a script asks of the lane of its CPU, and how it is done.
use crate::Teller;
use crate::lane::Lane;
use crate::log::At;
use crate::reports::Reports;
use std::alloc::Global;
use trace_model::NoMemory;
use trace_script::Command;

impl<'a> Lane<'a> {
    ghost use Rattle.std.specs.Prelude.{OnOk};
    ghost use Rattle.trace_script.specs.ScriptTypes.{shown_command};
    ghost use Rattle.script_replay.specs.Lanes.{IsReportedLane, HasLine};
    ghost use Rattle.script_replay.specs.RingCommands.{IsOfRing, cpu_of};

    /// Does what the line of this number asks, which is no delivery.
    #[inline(always)]
    pub(crate) fn obey<T: Teller>(
        &mut self,
        alloc: Global,
        line: u64,
        command: Command<'a>,
        reports: &mut Reports<T>,
    ) -> Result<(), NoMemory>
        requires ring { IsOfRing (shown_command command) }
        requires lane { IsReportedLane (cpu_of (shown_command command)) self.old reports.old }
        ensures { OnOk result (HasLine (shown_command command.entry) line (cpu_of (shown_command command.entry))
            self.old reports.old self.new reports.new) }
    {
        match command {
            Command::Begin {
                cpu,
                moment,
                payload,
            } => self.begin(At { line, cpu }, moment.0, payload, reports),
            Command::Step { cpu, count } => self.step(At { line, cpu }, count, reports),
            Command::Finish { cpu } => self.finish(At { line, cpu }, reports),
            Command::Write {
                cpu,
                moment,
                payload,
            } => self.write(At { line, cpu }, moment.0, payload, reports),
            Command::Close { cpu } => self.close(At { line, cpu }, reports),
            Command::StepReader { cpu, count } => {
                self.step_reader(alloc, At { line, cpu }, count, reports)
            }
            Command::Take { cpu } => self.take(alloc, At { line, cpu }, reports),
            Command::Wish { cpu } => self.wish(At { line, cpu }, reports),
            Command::Deliver { .. } => unreachable!(),
        }
    }
}
