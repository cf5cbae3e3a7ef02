//! The run of a script by threads.
ghost use Rattle.std.specs.Prelude.{◌≡◌, ◌≢◌, ℕ, ◌<◌, ◌≤◌, length, vec_len, vec_capacity, false, OnOk, IfOk, IfErr};
ghost use Rattle.trace_script.specs.declared.replay_fault.ReplayFault.TheVariants.{GateShut};
ghost use Rattle.trace_run.specs.declared.writers.gate.Who.{Who as WhoSeen};
ghost use Rattle.trace_run.specs.threaded.Runs.{IsRunOfScript};
ghost use Rattle.trace_run.specs.threaded.Asked.{HaveAllPassed};
ghost use Rattle.trace_run.specs.threaded.Threads.{AreIndexes, AreRunLedgers, IsByGate};

use crate::ledgers::Ledger;
use crate::threaded::collecting::{Collecting, join_collectors, start_collectors};
use crate::threaded::rings::run_rings;
use crate::writers::{Gate, LineIndexes, lines_by_cpu};
use collector::Collector;
use crossbeam_channel::Sender;
use page_numbers::Parcel;
use std::alloc::Global;
use std::sync::Wait;
use std::sync::atomic::AtomicBool;
use std::thread;
use std::thread::{Scope, Threads};
use trace_script::{ReplayFault, Script};

/// What a run leaves.
#[derive(Debug, Drop)]
pub struct Ran {
    /// The collectors of the script, in their order. No channel promises that what was taken reached them: audit each.
    pub collectors: Vec<Collector>,
    /// A ledger for each CPU, in their order.
    pub ledgers: Vec<Ledger>,
}

/// For each of `count` CPUs whether its writer is over: not yet.
fn new_flags(alloc: Global, count: usize) -> Result<Vec<AtomicBool>, ReplayFault>
    ensures count { IfOk result (λ flags. vec_len flags ≡ count) }
    ensures fault { IfErr result (λ fault. fault ≢ GateShut) }
{
    let mut flags = Vec::with_capacity(alloc, count)?;
    for made in 0..count {
        let _made = made;
        flags.push_reserved(AtomicBool::new(false));
    }
    Ok(flags)
}

/// Starts the collectors' threads, and runs the rings.
fn run_all<'s, E, R: Threads + Wait + Sync, G: Gate>(
    rt: &'s R,
    scope: &Scope<'s, E>,
    alloc: Global,
    script: &Script,
    gate: &G,
    indexes: &[LineIndexes],
    over: &[AtomicBool],
    senders: &mut Vec<Sender<Parcel>>,
    threads: &mut Vec<Collecting>,
) -> Result<Vec<Ledger>, ReplayFault>
    requires indexes { AreIndexes script.now indexes.now }
    requires over { length over.now ≡ script.now.cpus }
    requires no_senders { vec_len senders.old ≡ 0 }
    requires room_for_senders { script.now.collectors ≤ vec_capacity senders.old }
    requires no_threads { vec_len threads.old ≡ 0 }
    requires room_for_threads { script.now.collectors ≤ vec_capacity threads.old }
    ensures collectors { OnOk result (vec_len threads.new ≡ script.now.collectors) }
    ensures ledgers { IfOk result (λ ledgers. AreRunLedgers G.answers gate.now script.now 0 ledgers.items) }
    ensures cpus { IfOk result (λ ledgers. vec_len ledgers ≡ script.now.cpus) }
    ensures shut { IfErr result (IsByGate G.answers gate.now script.now.cpus) }
{
    start_collectors(rt, scope, alloc, script.collectors(), senders, threads)?;
    run_rings(rt, alloc, script, gate, indexes, over, senders.as_slice())
}

/// The threads of a run, in the scope of its collectors' threads. These are joined, also after a fault: they end once
/// nothing can be sent any more.
fn run_with<'s, E, R: Threads + Wait + Sync, G: Gate>(
    rt: &'s R,
    scope: &Scope<'s, E>,
    alloc: Global,
    script: &Script,
    gate: &G,
    indexes: &[LineIndexes],
    over: &[AtomicBool],
) -> Result<Ran, ReplayFault>
    requires indexes { AreIndexes script.now indexes.now }
    requires over { length over.now ≡ script.now.cpus }
    ensures ran { IfOk result (IsRunOfScript script.now) }
    ensures passed { IfOk result (HaveAllPassed G.answers gate.now script.now) }
    ensures shut { IfErr result (IsByGate G.answers gate.now script.now.cpus) }
{
    let count = script.collectors();
    let mut senders = Vec::with_capacity(alloc, count)?;
    let mut threads = Vec::with_capacity(alloc, count)?;
    let ledgers = run_all(
        rt,
        scope,
        alloc,
        script,
        gate,
        indexes,
        over,
        &mut senders,
        &mut threads,
    );
    drop(senders);
    let collectors = join_collectors(rt, alloc, threads);
    let ledgers = ledgers?;
    let collectors = collectors?;
    Ok(Ran {
        collectors,
        ledgers,
    })
}

/// Runs a script by threads: for each CPU one that obeys its writer's lines (`b`, `s`, `f`, `w`, `c`) and then finishes
/// the frames that are left, and one that takes pages meanwhile; for each collector one that adds what was taken. Lines
/// of readers and deliveries are not obeyed: each page is shared to every collector.
///
/// A writer's thread asks the gate after each fill that it closes, a reader's after each page that it takes and shares.
/// If the gate doesn't let one pass, that thread ends, and the answer is `GateShut`; if a thread can't be started, it
/// is `NoThread`; of several faults it is one. In each case the other threads run to their ends, and all are joined.
/// The call waits for its threads: what it promises holds if it returns.
pub fn run<R: Threads + Wait + Sync, G: Gate>(
    rt: &R,
    alloc: Global,
    script: &Script,
    gate: &G,
) -> Result<Ran, ReplayFault>
    // The collectors and the ledgers are as many as the script says; each ledger is that of its CPU's lines.
    ensures ran { IfOk result (IsRunOfScript script.now) }
    // Each writer asked the gate for each fill that it closed, and each reader for each page that it took.
    ensures passed { IfOk result (HaveAllPassed G.answers gate.now script.now) }
    // The gate is blamed only if it may answer false to a thread of one of the script's CPUs.
    ensures shut { IfErr result (λ fault. fault ≡ GateShut → (who : WhoSeen) × (cpu fill : ℕ)
        × (cpu < script.now.cpus) × G.answers gate.now who cpu fill false) }
{
    let indexes = lines_by_cpu(alloc, script)?;
    let over = new_flags(alloc, script.cpus() as usize)?;
    let indexes = indexes.as_slice();
    let over = over.as_slice();
    thread::scope(
        thread::scope_env(),
        rt,
        |scope| -> Result<Ran, ReplayFault>
            requires { AreIndexes script.now indexes.now × (length over.now ≡ script.now.cpus) }
            ensures { IfOk result (IsRunOfScript script.entry.now)
                × IfOk result (HaveAllPassed G.answers gate.entry.now script.entry.now)
                × IfErr result (IsByGate G.answers gate.entry.now script.entry.now.cpus) }
        { run_with(rt, scope, alloc, script, gate, indexes, over) },
    )
}
