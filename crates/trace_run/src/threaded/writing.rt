//! A writer's thread.
ghost use Rattle.std.specs.Prelude.{◌≡◌};
ghost use Rattle.ring_steps.specs.NewRings.{first_writing};
ghost use Rattle.trace_run.specs.writers.Obeying.{AreLinesOf, ObeysLines};

use crate::writers::{Gate, LineIndexes, WriterEnd, obey_lines};
use std::snapshot::Snapshot;
use std::sync::atomic::{AtomicBool, Ordering};
use std::thread::Promise;
use trace_model::{CpuId, FillNo};
use trace_script::Script;

/// The promise of a writer's thread, kept by what it returns: the lines of its CPU are obeyed, or the gate stopped it.
#[derive(Drop)]
pub(crate) struct Writes<'a, G: Gate> {
    pub(crate) gate: &'a G,
    pub(crate) script: &'a Script,
    pub(crate) cpu: CpuId,
    pub(crate) was: Snapshot<WriterEnd>,
}

impl<'a, G: Gate> Promise<Result<WriterEnd, FillNo>> for Writes<'a, G> {
    ghost kept_by = { λ p r. ObeysLines G.answers p.gate.now p.cpu.0 p.script.now.commands p.was.value r };
}

/// Obeys the lines of the CPU's writer. In every case the reader then finds that they are over.
pub(crate) fn write_lines<G: Gate>(
    end: WriterEnd,
    script: &Script,
    indexes: &LineIndexes,
    cpu: CpuId,
    gate: &G,
    over: &AtomicBool,
) -> Result<WriterEnd, FillNo>
    requires first { end.part ≡ first_writing end.shape }
    requires indexes { AreLinesOf cpu.0 script.now.commands indexes.now }
    ensures { ObeysLines G.answers gate.now cpu.0 script.now.commands end result }
{
    let wrote = obey_lines(end, script, indexes, cpu, gate);
    over.store(true, Ordering::SeqCst);
    wrote
}
