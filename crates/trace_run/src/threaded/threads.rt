//! The two threads of a CPU's ring.
ghost use Rattle.std.specs.Prelude.{◌≡◌, ◌≢◌, ◌<◌, IfOk, IfErr};
ghost use Rattle.trace_model.specs.declared.numbers.FillNo.{FillNo as FillSeen};
ghost use Rattle.ring_steps.specs.NewRings.{first_writing};
ghost use Rattle.trace_script.specs.declared.replay_fault.ReplayFault.TheVariants.{GateShut};
ghost use Rattle.trace_run.specs.writers.Obeying.{AreLinesOf, ObeysLines};
ghost use Rattle.trace_run.specs.threaded.Asked.{IsPassedLedger};
ghost use Rattle.trace_run.specs.threaded.Taking.{HasTaken};
ghost use Rattle.trace_run.specs.declared.threaded.reading.Stop.TheVariants.{Shut};
ghost use Rattle.trace_run.specs.threaded.Threads.{IsJoined, ArePassedEnds, IsByGate};

use crate::ledgers::Ledger;
use crate::readers::ReaderEnd;
use crate::threaded::reading::{Stop, Takes, take_pages};
use crate::threaded::settling::settle_ends;
use crate::threaded::sharing::Passing;
use crate::threaded::writing::{Writes, write_lines};
use crate::writers::{Gate, LineIndexes, WriterEnd};
use crossbeam_channel::Sender;
use page_numbers::Parcel;
use ring_shared::{Writer, ring_at};
use std::alloc::Global;
use std::marker::Model;
use std::snapshot::Snapshot;
use std::sync::Wait;
use std::sync::atomic::{AtomicBool, Ordering};
use std::thread::{PromisedHandle, Scope, Threads};
use trace_model::{CpuId, FillNo};
use trace_script::{ReplayFault, Script};

/// What the rings' threads share.
#[derive(Drop)]
pub(crate) struct Job<'a, G: Gate> {
    pub(crate) script: &'a Script,
    pub(crate) gate: &'a G,
    pub(crate) collectors: &'a [Sender<Parcel>],
}

/// The two threads of a CPU's ring.
#[derive(Drop)]
pub(crate) struct Running<'a, G: Gate> {
    cpu: CpuId,
    writer: PromisedHandle<Result<WriterEnd, FillNo>, Writes<'a, G>>,
    reader: PromisedHandle<Result<ReaderEnd, Stop>, Takes<'a, G>>,
}

impl<'a, G: Gate> Model for Running<'a, G> {
    ghost use Rattle.std.specs.Prelude.{◌≡◌, ◌<◌, []};
    ghost use Rattle.ring_shared.specs.NewEnds.{AreNewEnds};
    ghost use Rattle.trace_run.specs.threaded.Runs.{shape_of};
    ghost use Rattle.trace_run.specs.threaded.Threads.{RunningValue};

    ghost Value = { RunningValue G };

    ghost view = { λ r. record {
      cpu = r.cpu.0;
      script = r.writer.promise.script.now;
      gate = r.writer.promise.gate.now;
    } };

    ghost invariant = { λ r. AreNewEnds (shape_of r.writer.promise.script.now)
        r.writer.promise.was.value r.reader.promise.was.value.reader
        × (r.writer.promise.cpu.0 ≡ r.cpu.0)
        × (r.reader.promise.cpu.0 ≡ r.cpu.0)
        × (r.reader.promise.was.value.cpu ≡ r.cpu.0)
        × (r.reader.promise.was.value.taken ≡ [])
        × (r.reader.promise.gate.now ≡ r.writer.promise.gate.now)
        × (r.cpu.0 < r.writer.promise.script.now.cpus) };
}

/// Starts a writer's thread.
fn start_writer<'s, E, G: Gate>(
    scope: &Scope<'s, E>,
    job: &Job<'s, G>,
    cpu: CpuId,
    indexes: &'s LineIndexes,
    end: WriterEnd,
    over: &'s AtomicBool,
) -> Result<PromisedHandle<Result<WriterEnd, FillNo>, Writes<'s, G>>, ReplayFault>
    requires first { end.part ≡ first_writing end.shape }
    requires indexes { AreLinesOf cpu.0 job.now.script.now.commands indexes.now }
    ensures was { IfOk result (λ h. h.promise.was.value ≡ end) }
    ensures cpu { IfOk result (λ h. h.promise.cpu.0 ≡ cpu.0) }
    ensures script { IfOk result (λ h. h.promise.script.now ≡ job.now.script.now) }
    ensures gate { IfOk result (λ h. h.promise.gate.now ≡ job.now.gate.now) }
    ensures fault { IfErr result (λ fault. fault ≢ GateShut) }
{
    let script = job.script;
    let gate = job.gate;
    let promise = Writes {
        gate,
        script,
        cpu,
        was: Snapshot::of(&end),
    };
    let writes = move || -> Result<WriterEnd, FillNo>
        requires { (end.part ≡ first_writing end.shape) × AreLinesOf cpu.0 script.now.commands indexes.now }
        ensures { ObeysLines G.answers gate.entry.now cpu.0 script.entry.now.commands end result }
    { write_lines(end, script, indexes, cpu, gate, over) };
    match scope.spawn_with(promise, writes) {
        Ok(handle) => Ok(handle),
        Err(_) => Err(ReplayFault::NoThread),
    }
}

/// What a reader's thread does: its pages go to the collectors, and then it asks the gate.
fn read_pages<R: Wait, G: Gate>(
    rt: &R,
    alloc: Global,
    end: ReaderEnd,
    cpu: CpuId,
    gate: &G,
    over: &AtomicBool,
    collectors: &[Sender<Parcel>],
) -> Result<ReaderEnd, Stop>
    ensures { HasTaken G.answers gate.now cpu.0 end result }
{
    let passing = Passing { gate, collectors };
    take_pages(rt, alloc, end, cpu, &passing, over)
}

/// Starts a reader's thread.
fn start_reader<'s, E, R: Wait + Sync, G: Gate>(
    rt: &'s R,
    scope: &Scope<'s, E>,
    alloc: Global,
    job: &Job<'s, G>,
    cpu: CpuId,
    end: ReaderEnd,
    over: &'s AtomicBool,
) -> Result<PromisedHandle<Result<ReaderEnd, Stop>, Takes<'s, G>>, ReplayFault>
    ensures was { IfOk result (λ h. h.promise.was.value ≡ end) }
    ensures cpu { IfOk result (λ h. h.promise.cpu.0 ≡ cpu.0) }
    ensures gate { IfOk result (λ h. h.promise.gate.now ≡ job.now.gate.now) }
    ensures fault { IfErr result (λ fault. fault ≢ GateShut) }
{
    let gate = job.gate;
    let collectors = job.collectors;
    let promise = Takes {
        gate,
        cpu,
        was: Snapshot::of(&end),
    };
    let reads = move || -> Result<ReaderEnd, Stop>
        ensures { HasTaken G.answers gate.entry.now cpu.0 end result }
    { read_pages(rt, alloc, end, cpu, gate, over, collectors) };
    match scope.spawn_with(promise, reads) {
        Ok(handle) => Ok(handle),
        Err(_) => Err(ReplayFault::NoThread),
    }
}

/// Starts both threads of a new ring, the reader's first. If the writer's isn't started, the reader's finds that the
/// writer is over, and is joined.
pub(crate) fn start<'s, E, R: Threads + Wait + Sync, G: Gate>(
    rt: &'s R,
    scope: &Scope<'s, E>,
    alloc: Global,
    job: &Job<'s, G>,
    cpu: CpuId,
    indexes: &'s LineIndexes,
    over: &'s AtomicBool,
) -> Result<Running<'s, G>, ReplayFault>
    requires known { cpu.0 < job.now.script.now.cpus }
    requires indexes { AreLinesOf cpu.0 job.now.script.now.commands indexes.now }
    ensures cpu { IfOk result (λ r. r.cpu ≡ cpu.0) }
    ensures script { IfOk result (λ r. r.script ≡ job.now.script.now) }
    ensures gate { IfOk result (λ r. r.gate ≡ job.now.gate.now) }
    ensures fault { IfErr result (λ fault. fault ≢ GateShut) }
{
    let script = job.script;
    let _cpus = script.cpus();
    let size = script.size();
    let (writer, reader) = ring_at(alloc, script.pages(), size, script.start().0)?;
    let end = ReaderEnd::new(alloc, cpu, size, reader);
    let reader = start_reader(rt, scope, alloc, job, cpu, end, over)?;
    match start_writer(scope, job, cpu, indexes, WriterEnd { writer }, over) {
        Ok(writer) => Ok(Running {
            cpu,
            writer,
            reader,
        }),
        Err(fault) => {
            over.store(true, Ordering::SeqCst);
            drop(reader.join(rt));
            Err(fault)
        }
    }
}

/// Why a run ends if a reader's thread was stopped.
fn fault_of(stop: Stop) -> ReplayFault
    ensures { result ≡ GateShut → (fill : FillSeen) × (stop ≡ Shut fill) }
{
    match stop {
        Stop::NoMemory => ReplayFault::NoMemory,
        Stop::Shut(_) => ReplayFault::GateShut,
    }
}

/// Joins both threads.
fn join<R: Threads, G: Gate>(
    rt: &R,
    running: Running<'_, G>,
) -> Result<(Writer, ReaderEnd), ReplayFault>
    ensures joined { IfOk result (IsJoined running.entry.script running.entry.cpu) }
    ensures passed { IfOk result (ArePassedEnds G.answers running.entry.gate running.entry.script running.entry.cpu) }
    ensures shut { IfErr result (IsByGate G.answers running.entry.gate running.entry.script.cpus) }
{
    let Running { writer, reader, .. } = running;
    let wrote = writer.join(rt);
    let took = reader.join(rt);
    let Ok(end) = wrote else {
        return Err(ReplayFault::GateShut);
    };
    let WriterEnd { writer } = end;
    match took {
        Ok(reader) => Ok((writer, reader)),
        Err(stop) => Err(fault_of(stop)),
    }
}

/// Joins both threads, and settles what they leave.
pub(crate) fn complete<R: Threads + Wait, G: Gate>(
    rt: &R,
    alloc: Global,
    running: Running<'_, G>,
    gate: &G,
    collectors: &[Sender<Parcel>],
) -> Result<Ledger, ReplayFault>
    requires gate { running.gate ≡ gate.now }
    ensures ledger { IfOk result (IsPassedLedger G.answers gate.now running.entry.script running.entry.cpu) }
    ensures shut { IfErr result (IsByGate G.answers gate.now running.entry.script.cpus) }
{
    let cpu = running.cpu;
    let (writer, reader) = join(rt, running)?;
    match settle_ends(
        rt,
        alloc,
        writer,
        reader,
        cpu,
        &Passing { gate, collectors },
    ) {
        Ok(ledger) => Ok(ledger),
        Err(stop) => Err(fault_of(stop)),
    }
}
