//! The CPUs of a fleet of which something is there.
ghost use Rattle.std.specs.Prelude.{◌≡◌, ◌++◌, ◌↔◌, ℕ, List, map, IfOk, OnOk};
ghost use Rattle.fleet_text.specs.Cpus.{FleetCpu, cpu_seen, IsAmong, HasBoth, IsThere, AreCpusOfStream, AreCpusOfFleet};

use collector::KnownCpus;
use fleet_collector::Fleet;
use parcel_streams::StreamId;
use std::alloc::Global;
use std::collections::BTreeSet;
use stream_collector::{MarkedCpus, StreamCollector};
use trace_model::{CpuId, NoMemory};

/// A CPU of a stream, and what is known of the stream.
#[derive(Drop)]
pub(crate) struct StreamCpu<'a> {
    pub(crate) stream: StreamId,
    pub(crate) cpu: CpuId,
    pub(crate) known: &'a StreamCollector,
}

/// Puts the CPUs of parcels among these.
fn put_known(cpus: &mut BTreeSet<u32>, known: KnownCpus<'_>) -> Result<(), NoMemory>
    ensures { OnOk result (HasBoth cpus.old.keys cpus.new.keys known.entry) }
{
    for cpu in known {
        cpus.insert(cpu.0)?;
    }
    Ok(())
}

/// Puts the CPUs that have a bound or an end among these.
fn put_marked(cpus: &mut BTreeSet<u32>, marked: MarkedCpus<'_>) -> Result<(), NoMemory>
    ensures { OnOk result (HasBoth cpus.old.keys cpus.new.keys marked.entry) }
{
    for cpu in marked {
        cpus.insert(cpu.0)?;
    }
    Ok(())
}

/// The CPUs of a stream of which something is there.
fn cpus_of(alloc: Global, known: &StreamCollector) -> Result<BTreeSet<u32>, NoMemory>
    ensures { IfOk result (λ cpus. (cpu : ℕ) → (IsAmong cpus.keys cpu ↔ IsThere known.now cpu)) }
{
    let mut cpus = BTreeSet::new(alloc);
    put_known(&mut cpus, known.known_cpus())?;
    put_known(&mut cpus, known.given_up_cpus())?;
    put_marked(&mut cpus, known.marked_cpus())?;
    Ok(cpus)
}

/// Puts the CPUs of a stream after these.
fn put_stream<'a>(
    alloc: Global,
    list: &mut Vec<StreamCpu<'a>>,
    stream: StreamId,
    known: &'a StreamCollector,
) -> Result<(), NoMemory>
    ensures { OnOk result ((more : List FleetCpu) × AreCpusOfStream stream.0 known.now more
        × (map cpu_seen list.new.items ≡ map cpu_seen list.old.items ++ more)) }
{
    let cpus = cpus_of(alloc, known)?;
    for cpu in &cpus {
        list.push(StreamCpu {
            stream,
            cpu: CpuId(*cpu),
            known,
        })?;
    }
    Ok(())
}

/// The CPUs of all streams, by rising stream and CPU.
pub(crate) fn all_cpus(alloc: Global, fleet: &Fleet) -> Result<Vec<StreamCpu<'_>>, NoMemory>
    ensures { IfOk result (λ list. AreCpusOfFleet fleet.now (map cpu_seen list.items)) }
{
    let mut list = Vec::new(alloc);
    for (stream, known) in fleet.streams() {
        put_stream(alloc, &mut list, stream, known)?;
    }
    Ok(list)
}
