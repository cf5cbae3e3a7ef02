//! The collectors' threads.
ghost use Rattle.std.specs.Prelude.{◌≡◌, ◌≢◌, ◌≤◌, vec_len, vec_capacity, OnOk, IfOk, IfErr};
ghost use Rattle.trace_script.specs.declared.replay_fault.ReplayFault.TheVariants.{GateShut};

use crate::threaded::joining::with_next;
use collector::{AddFault, Collector};
use crossbeam_channel::{Receiver, Sender, unbounded};
use page_numbers::Parcel;
use std::alloc::Global;
use std::sync::Wait;
use std::thread::{JoinHandle, Scope, Threads};
use trace_model::NoMemory;
use trace_script::ReplayFault;

/// A collector's thread, and what it returns.
pub(crate) type Collecting = JoinHandle<Result<Collector, NoMemory>>;

/// Adds what comes until each sender is gone. A parcel that is at odds with others is dropped.
fn collect<R: Wait>(
    rt: &R,
    alloc: Global,
    parcels: Receiver<Parcel>,
) -> Result<Collector, NoMemory> {
    let mut collector = Collector::new(alloc);
    for _ in rt.forever() {
        let Ok(parcel) = parcels.recv(rt) else {
            break;
        };
        if let Err(AddFault::NoMemory) = collector.add(parcel) {
            return Err(NoMemory);
        }
    }
    Ok(collector)
}

/// Starts `count` collectors' threads. On a fault, those that were started before it are among the threads.
pub(crate) fn start_collectors<'s, E, R: Wait + Sync>(
    rt: &'s R,
    scope: &Scope<'s, E>,
    alloc: Global,
    count: usize,
    senders: &mut Vec<Sender<Parcel>>,
    threads: &mut Vec<Collecting>,
) -> Result<(), ReplayFault>
    requires no_senders { vec_len senders.old ≡ 0 }
    requires room_for_senders { count ≤ vec_capacity senders.old }
    requires no_threads { vec_len threads.old ≡ 0 }
    requires room_for_threads { count ≤ vec_capacity threads.old }
    ensures count { OnOk result (vec_len threads.new ≡ count) }
    ensures fault { IfErr result (λ fault. fault ≢ GateShut) }
{
    for started in 0..count {
        let _started = started;
        let (sender, parcels) = unbounded(alloc)?;
        let Ok(thread) = scope.spawn(move || collect(rt, alloc, parcels)) else {
            return Err(ReplayFault::NoThread);
        };
        threads.push_reserved(thread);
        senders.push_reserved(sender);
    }
    Ok(())
}

/// Joins a collector's thread.
fn join_collector<R: Threads>(rt: &R, thread: Collecting) -> Result<Collector, ReplayFault>
    ensures { IfErr result (λ fault. fault ≢ GateShut) }
{
    let collector = thread.join(rt)?;
    Ok(collector)
}

/// Joins all of these threads.
pub(crate) fn join_collectors<R: Threads>(
    rt: &R,
    alloc: Global,
    threads: Vec<Collecting>,
) -> Result<Vec<Collector>, ReplayFault>
    ensures count { IfOk result (λ collectors. vec_len collectors ≡ vec_len threads) }
    ensures fault { IfErr result (λ fault. fault ≢ GateShut) }
{
    let mut joined = Ok(Vec::new(alloc));
    for thread in threads {
        joined = with_next(joined, join_collector(rt, thread));
    }
    joined
}
