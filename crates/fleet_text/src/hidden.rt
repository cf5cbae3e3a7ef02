//! The numbers that marks hide.
ghost use Rattle.std.specs.Prelude.{◌≡◌, ℕ, ◌+◌, ◌<◌, min, IfOk, OnOk, List, map};
ghost use Rattle.trace_model.specs.declared.limits.TheConstants.{MAX_CPUS};
ghost use Rattle.parcel_streams.specs.Pieces.{Packed};
ghost use Rattle.stream_collector.specs.Stream.{bound_of};
ghost use Rattle.fleet_collector.specs.Fleet.{stream_at};
ghost use Rattle.fleet_collector.specs.Told.{IsFleetOf};
ghost use Rattle.fleet_text.specs.Hidden.{AreHiddenRuns, IsNoted, NotesOne, given_by_all, hidden_text};
ghost use Rattle.fleet_text.specs.Runs.{run_seen};
ghost use Rattle.text_values.specs.Putting.{Puts};

use crate::cpus::all_cpus;
use crate::given::Given;
use crate::lines::put_runs;
use crate::run::{FleetRun, RunKind};
use crate::runs::runs_of;
use capture_text::Form;
use command_io::Sink;
use fleet_collector::Fleet;
use parcel_streams::StreamId;
use std::alloc::Global;
use text_values::Out;
use trace_model::{CpuId, NoMemory, RecordNo};

/// The bound of a CPU of a stream: 0 if nothing was forgotten.
fn bound_of(fleet: &Fleet, stream: StreamId, cpu: CpuId) -> u64
    ensures bound { result ≡ bound_of (stream_at fleet.now stream.0) cpu.0 }
    ensures known { 0 < result → cpu.0 < MAX_CPUS }
{
    match fleet.stream(stream) {
        Some(known) => known.bound(cpu).0,
        None => 0,
    }
}

/// The number after the last one of a run that is below a bound.
fn end_below(last: u64, bound: u64) -> u64
    ensures { result ≡ min (last + 1) bound }
{
    if last < bound { last + 1 } else { bound }
}

/// Notes the numbers of a run that are below the bound of its CPU, as undelivered ones of another fleet.
fn note_run(noted: &mut Fleet, run: &FleetRun, fleet: &Fleet) -> Result<(), NoMemory>
    ensures { OnOk result (NotesOne (run_seen run.now) fleet.now noted.old noted.new) }
{
    let bound = bound_of(fleet, run.stream, run.cpu);
    if run.first.0 >= bound {
        return Ok(());
    }
    let end = RecordNo(end_below(run.last.0, bound));
    match noted.mark_undelivered(run.stream, run.cpu, run.first, end) {
        Ok(_) => Ok(()),
        // (The other fleet has no end of a CPU, so that nothing else is refused.)
        Err(_) => Err(NoMemory),
    }
}

/// The numbers of these runs that are below the bounds of their CPUs, as undelivered ones of another fleet.
fn noted_of(alloc: Global, runs: &[FleetRun], fleet: &Fleet) -> Result<Fleet, NoMemory>
    ensures { IfOk result (λ noted. IsNoted (map run_seen runs.now) fleet.now noted) }
{
    let mut noted = Fleet::new(alloc);
    for run in runs {
        note_run(&mut noted, run, fleet)?;
    }
    Ok(noted)
}

/// The runs of the numbers that marks hide.
#[derive(Debug, Drop)]
pub struct Hidden {
    runs: Vec<FleetRun>,
}

impl Hidden {
    ghost use Rattle.std.specs.Prelude.{IsTrue, ◌↔◌, []};
    ghost use Rattle.fleet_text.specs.Hidden.{hidden_of};

    /// The numbers that marks hide among the pieces of which this fleet is, and these are the numbers of their records.
    /// Nothing that is done with them takes memory.
    pub fn new(alloc: Global, given: &Given, fleet: &Fleet) -> Result<Hidden, NoMemory>
        ensures { (pieces : List Packed) → given.now ≡ given_by_all pieces → IsFleetOf pieces fleet.now
            → IfOk result (λ hidden. AreHiddenRuns pieces (hidden_of hidden)) }
    {
        let noted = noted_of(alloc, &given.runs, fleet)?;
        let cpus = all_cpus(alloc, &noted)?;
        let runs = runs_of(alloc, RunKind::Undelivered, &cpus)?;
        Ok(Hidden { runs })
    }

    /// Whether nothing is hidden.
    pub fn is_empty(&self) -> bool
        ensures { IsTrue result ↔ (hidden_of self.now ≡ []) }
    {
        self.runs.is_empty()
    }

    /// Puts the lines of the runs, by stream, CPU and number.
    pub fn put<W: Sink>(&self, out: &mut Out<'_, W>, form: Form)
        ensures { Puts (hidden_text form (hidden_of self.now)) out.old out.new }
    {
        put_runs(out, form, b"hidden", &self.runs);
    }
}
