//! The rings of a run.
ghost use Rattle.std.specs.Prelude.{◌≡◌, ◌≢◌, ◌≤◌, length, vec_len, vec_capacity, OnOk, IfOk, IfErr};
ghost use Rattle.trace_script.specs.declared.replay_fault.ReplayFault.TheVariants.{GateShut};
ghost use Rattle.trace_run.specs.threaded.Threads.{AreIndexes, AreRunning, AreRunLedgers, IsByGate};

use crate::ledgers::Ledger;
use crate::threaded::joining::with_next;
use crate::threaded::threads::{Job, Running, complete, start};
use crate::writers::{Gate, LineIndexes};
use crossbeam_channel::Sender;
use page_numbers::Parcel;
use std::alloc::Global;
use std::sync::Wait;
use std::sync::atomic::AtomicBool;
use std::thread;
use std::thread::{Scope, Threads};
use trace_model::CpuId;
use trace_script::{ReplayFault, Script};

/// Starts the threads of each CPU's ring. On a fault, those that were started before it are among the threads.
fn start_rings<'s, E, R: Threads + Wait + Sync, G: Gate>(
    rt: &'s R,
    scope: &Scope<'s, E>,
    alloc: Global,
    job: &Job<'s, G>,
    indexes: &'s [LineIndexes],
    over: &'s [AtomicBool],
    threads: &mut Vec<Running<'s, G>>,
) -> Result<(), ReplayFault>
    requires indexes { AreIndexes job.now.script.now indexes.now }
    requires over { length over.now ≡ job.now.script.now.cpus }
    requires none { vec_len threads.old ≡ 0 }
    requires room { job.now.script.now.cpus ≤ vec_capacity threads.old }
    ensures running { AreRunning job.now.script.now job.now.gate.now 0 threads.new.items }
    ensures count { OnOk result (vec_len threads.new ≡ job.now.script.now.cpus) }
    ensures fault { IfErr result (λ fault. fault ≢ GateShut) }
{
    let cpus = job.script.cpus();
    for cpu in 0..cpus {
        let index = cpu as usize;
        let running = start(
            rt,
            scope,
            alloc,
            job,
            CpuId(cpu),
            &indexes[index],
            &over[index],
        )?;
        threads.push_reserved(running);
    }
    Ok(())
}

/// Joins all of these threads, and settles the rings.
fn complete_rings<R: Threads + Wait, G: Gate>(
    rt: &R,
    alloc: Global,
    job: &Job<'_, G>,
    threads: Vec<Running<'_, G>>,
) -> Result<Vec<Ledger>, ReplayFault>
    requires running { AreRunning job.now.script.now job.now.gate.now 0 threads.items }
    ensures ledgers { IfOk result
        (λ ledgers. AreRunLedgers G.answers job.now.gate.now job.now.script.now 0 ledgers.items) }
    ensures count { IfOk result (λ ledgers. vec_len ledgers ≡ vec_len threads.entry) }
    ensures shut { IfErr result (IsByGate G.answers job.now.gate.now job.now.script.now.cpus) }
{
    let mut ledgers = Ok(Vec::new(alloc));
    for running in threads {
        ledgers = with_next(
            ledgers,
            complete(rt, alloc, running, job.gate, job.collectors),
        );
    }
    ledgers
}

/// The rings of a run, in a scope: all threads that are started are joined, also after a fault.
fn run_rings_in<'s, E, R: Threads + Wait + Sync, G: Gate>(
    rt: &'s R,
    scope: &Scope<'s, E>,
    alloc: Global,
    job: &Job<'s, G>,
    indexes: &'s [LineIndexes],
    over: &'s [AtomicBool],
) -> Result<Vec<Ledger>, ReplayFault>
    requires indexes { AreIndexes job.now.script.now indexes.now }
    requires over { length over.now ≡ job.now.script.now.cpus }
    ensures ledgers { IfOk result
        (λ ledgers. AreRunLedgers G.answers job.now.gate.now job.now.script.now 0 ledgers.items) }
    ensures count { IfOk result (λ ledgers. vec_len ledgers ≡ job.now.script.now.cpus) }
    ensures shut { IfErr result (IsByGate G.answers job.now.gate.now job.now.script.now.cpus) }
{
    let mut threads = Vec::with_capacity(alloc, over.len())?;
    let started = start_rings(rt, scope, alloc, job, indexes, over, &mut threads);
    let ledgers = complete_rings(rt, alloc, job, threads);
    started?;
    ledgers
}

/// The rings of a run, each with a writer's and a reader's thread: a ledger for each CPU.
pub(crate) fn run_rings<R: Threads + Wait + Sync, G: Gate>(
    rt: &R,
    alloc: Global,
    script: &Script,
    gate: &G,
    indexes: &[LineIndexes],
    over: &[AtomicBool],
    collectors: &[Sender<Parcel>],
) -> Result<Vec<Ledger>, ReplayFault>
    requires indexes { AreIndexes script.now indexes.now }
    requires over { length over.now ≡ script.now.cpus }
    ensures ledgers { IfOk result (λ ledgers. AreRunLedgers G.answers gate.now script.now 0 ledgers.items) }
    ensures count { IfOk result (λ ledgers. vec_len ledgers ≡ script.now.cpus) }
    ensures shut { IfErr result (IsByGate G.answers gate.now script.now.cpus) }
{
    thread::scope(
        thread::scope_env(),
        rt,
        |scope| -> Result<Vec<Ledger>, ReplayFault>
            requires { AreIndexes script.now indexes.now × (length over.now ≡ script.now.cpus) }
            ensures { IfOk result (λ ledgers. AreRunLedgers G.answers gate.entry.now script.entry.now 0 ledgers.items)
                × IfOk result (λ ledgers. vec_len ledgers ≡ script.entry.now.cpus)
                × IfErr result (IsByGate G.answers gate.entry.now script.entry.now.cpus) }
        {
            let job = Job {
                script,
                gate,
                collectors,
            };
            run_rings_in(rt, scope, alloc, &job, indexes, over)
        },
    )
}
