//! A snapshot of a stream, as packed pieces.
ghost use Rattle.std.specs.Prelude.{◌<◌, [], ◌∷◌, IfOk, OnOk};
ghost use Rattle.trace_model.specs.declared.limits.TheConstants.{MAX_CPUS};
ghost use Rattle.page_numbers.specs.Parcels.{as_parcel};
ghost use Rattle.parcel_streams.specs.Pieces.{mark_piece, IsMark};
ghost use Rattle.parcel_streams.specs.Answers.{piece_of_parcel};
ghost use Rattle.fleet_collector.specs.Fleet.{stream_at, HasKnownCpus};
ghost use Rattle.fleet_collector.specs.Snapshot.{IsSnapshot, ArePut, PutsMarks, PutsParcels};
ghost use Rattle.fleet_collector.specs.Snapshot.{bound_pieces, end_pieces, marks_of, run_pieces, runs_of_all};
ghost use Rattle.stream_collector.specs.Stream.{end_of};

use crate::fleet::Fleet;
use page_numbers::Parcel;
use parcel_streams::{Mark, StreamId, pack_mark, pack_parcel};
use std::alloc::Global;
use stream_collector::StreamCollector;
use trace_model::{CpuId, NoMemory};

/// Puts a mark of a CPU.
fn put_mark(
    alloc: Global,
    out: &mut Vec<u8>,
    stream: StreamId,
    cpu: CpuId,
    mark: Mark,
) -> Result<(), NoMemory>
    requires known { cpu.0 < MAX_CPUS }
    requires sound { IsMark mark }
    ensures { OnOk result (ArePut out.old.items out.new.items (mark_piece stream.0 cpu.0 mark ∷ [])) }
{
    let bytes = pack_mark(alloc, stream, cpu, mark)?;
    out.extend_from_slice(&bytes)?;
    Ok(())
}

/// Puts the bound of a CPU, if it is above 0.
fn put_bound(
    alloc: Global,
    out: &mut Vec<u8>,
    stream: StreamId,
    cpu: CpuId,
    bound: u64,
) -> Result<(), NoMemory>
    requires { cpu.0 < MAX_CPUS }
    ensures { OnOk result (ArePut out.old.items out.new.items (bound_pieces stream.0 cpu.0 bound)) }
{
    if bound == 0 {
        return Ok(());
    }
    put_mark(alloc, out, stream, cpu, Mark::Forgotten(bound))
}

/// Puts the end of a CPU, if there is one.
fn put_end(
    alloc: Global,
    out: &mut Vec<u8>,
    stream: StreamId,
    known: &StreamCollector,
    cpu: CpuId,
) -> Result<(), NoMemory>
    requires { cpu.0 < MAX_CPUS }
    ensures { OnOk result (ArePut out.old.items out.new.items (end_pieces stream.0 cpu.0 (end_of known.now cpu.0))) }
{
    match known.end_mark(cpu) {
        Some(end) => put_mark(alloc, out, stream, cpu, Mark::End(end.0)),
        None => Ok(()),
    }
}

/// Puts the bound and the end of a CPU.
fn put_marks_of(
    alloc: Global,
    out: &mut Vec<u8>,
    stream: StreamId,
    known: &StreamCollector,
    cpu: CpuId,
) -> Result<(), NoMemory>
    requires { cpu.0 < MAX_CPUS }
    ensures { OnOk result (ArePut out.old.items out.new.items (marks_of stream.0 known.now cpu.0)) }
{
    put_bound(alloc, out, stream, cpu, known.bound(cpu).0)?;
    put_end(alloc, out, stream, known, cpu)
}

/// Puts the bound and the end of each CPU.
fn put_marks(
    alloc: Global,
    out: &mut Vec<u8>,
    stream: StreamId,
    known: &StreamCollector,
) -> Result<(), NoMemory>
    requires { HasKnownCpus known.now }
    ensures { OnOk result (PutsMarks stream.0 known.now out.old.items out.new.items) }
{
    for cpu in known.marked_cpus() {
        put_marks_of(alloc, out, stream, known, cpu)?;
    }
    Ok(())
}

/// Puts the numbers that a parcel misses, if there are any, as given up.
fn put_run(
    alloc: Global,
    out: &mut Vec<u8>,
    stream: StreamId,
    parcel: &Parcel,
) -> Result<(), NoMemory>
    ensures { let p = as_parcel parcel.now in
        OnOk result (ArePut out.old.items out.new.items (run_pieces stream.0 p.cpu p.first p.missed)) }
{
    let missed = parcel.missed();
    let first = parcel.first().0;
    if missed == 0 {
        return Ok(());
    }
    put_mark(
        alloc,
        out,
        stream,
        parcel.cpu(),
        Mark::Undelivered(first - missed, first),
    )
}

/// Puts all that was given up.
fn put_runs(
    alloc: Global,
    out: &mut Vec<u8>,
    stream: StreamId,
    known: &StreamCollector,
) -> Result<(), NoMemory>
    ensures { OnOk result (ArePut out.old.items out.new.items (runs_of_all stream.0 known.now.given_up)) }
{
    for parcel in known.given_up_parcels() {
        put_run(alloc, out, stream, parcel)?;
    }
    Ok(())
}

/// Puts a parcel.
fn put_parcel(
    alloc: Global,
    out: &mut Vec<u8>,
    stream: StreamId,
    parcel: &Parcel,
) -> Result<(), NoMemory>
    ensures { OnOk result (ArePut out.old.items out.new.items (piece_of_parcel stream.0 parcel.now ∷ [])) }
{
    let bytes = pack_parcel(alloc, stream, parcel)?;
    out.extend_from_slice(&bytes)?;
    Ok(())
}

/// Puts the kept parcels.
fn put_parcels(
    alloc: Global,
    out: &mut Vec<u8>,
    stream: StreamId,
    known: &StreamCollector,
) -> Result<(), NoMemory>
    ensures { OnOk result (PutsParcels stream.0 known.now.parcels out.old.items out.new.items) }
{
    for parcel in known.parcels() {
        put_parcel(alloc, out, stream, parcel)?;
    }
    Ok(())
}

/// What is known of a stream, packed.
fn packed(alloc: Global, stream: StreamId, known: &StreamCollector) -> Result<Vec<u8>, NoMemory>
    requires { HasKnownCpus known.now }
    ensures { IfOk result (λ bytes. IsSnapshot stream.0 known.now bytes.items) }
{
    let mut out = Vec::new(alloc);
    put_marks(alloc, &mut out, stream, known)?;
    put_runs(alloc, &mut out, stream, known)?;
    put_parcels(alloc, &mut out, stream, known)?;
    Ok(out)
}

impl Fleet {
    /// A snapshot of a stream: packed pieces that state exactly what is known of it, its CPUs' bounds and ends first,
    /// then what was given up, then the kept parcels. A fleet that they are added to knows of the stream what this one
    /// does, and streams may be put one after the other.
    pub fn pack(&self, alloc: Global, stream: StreamId) -> Result<Vec<u8>, NoMemory>
        ensures { IfOk result (λ bytes. IsSnapshot stream.0 (stream_at self.now stream.0) bytes.items) }
    {
        match self.stream(stream) {
            Some(known) => packed(alloc, stream, known),
            None => Ok(Vec::new(alloc)),
        }
    }
}
