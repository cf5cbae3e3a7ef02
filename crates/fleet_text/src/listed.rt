//! What is printed of a fleet.
use crate::cpus::all_cpus;
use crate::lines::{put_lines, put_runs_of};
use crate::run::{FleetRun, RunKind};
use crate::runs::runs_of;
use capture_text::Form;
use command_io::Sink;
use fleet_collector::{Fleet, FleetLine};
use std::alloc::Global;
use text_values::Out;
use trace_model::NoMemory;

/// What is printed of a fleet: its records, and the runs of its numbers that are missing, unknown, undelivered or
/// forgotten.
#[derive(Debug, Drop)]
pub struct Listed<'a> {
    lines: Vec<FleetLine<'a>>,
    missing: Vec<FleetRun>,
    unknown: Vec<FleetRun>,
    undelivered: Vec<FleetRun>,
    forgotten: Vec<FleetRun>,
}

impl<'a> Listed<'a> {
    ghost use Rattle.std.specs.Prelude.{IfOk};
    ghost use Rattle.text_values.specs.Putting.{Puts};
    ghost use Rattle.fleet_text.specs.Listed.{shown_of, shown_text, IsFleetShown};

    /// What is printed of this fleet. Nothing that is done with it takes memory.
    pub fn new(alloc: Global, fleet: &'a Fleet) -> Result<Listed<'a>, NoMemory>
        ensures { IfOk result (λ listed. IsFleetShown fleet.now (shown_of listed)) }
    {
        let cpus = all_cpus(alloc, fleet)?;
        Ok(Listed {
            lines: fleet.listing(alloc)?,
            missing: runs_of(alloc, RunKind::Missing, &cpus)?,
            unknown: runs_of(alloc, RunKind::Unknown, &cpus)?,
            undelivered: runs_of(alloc, RunKind::Undelivered, &cpus)?,
            forgotten: runs_of(alloc, RunKind::Forgotten, &cpus)?,
        })
    }

    /// Puts the lines of the records by time, and those of the runs, by kind, stream, CPU and number.
    pub fn put<W: Sink>(&self, out: &mut Out<'_, W>, form: Form)
        ensures { Puts (shown_text form (shown_of self.now)) out.old out.new }
    {
        put_lines(out, form, &self.lines);
        put_runs_of(out, form, RunKind::Missing, &self.missing);
        put_runs_of(out, form, RunKind::Unknown, &self.unknown);
        put_runs_of(out, form, RunKind::Undelivered, &self.undelivered);
        put_runs_of(out, form, RunKind::Forgotten, &self.forgotten);
    }
}
