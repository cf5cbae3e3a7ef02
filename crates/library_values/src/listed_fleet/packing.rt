//! Pieces of a stream, packed into a caller's buffer.
ghost use Rattle.std.specs.Prelude.{◌≡◌, ◌≤◌, ◌⊎◌, ◌↔◌, Err, IfOk, IfErr, OnOk, OnErr};
ghost use Rattle.trace_model.specs.declared.limits.TheConstants.{MAX_CPUS};
ghost use Rattle.parcel_streams.specs.Pieces.{bytes_of_piece, mark_piece, IsPiece};
ghost use Rattle.library_values.specs.CollectorAdding.{IsNoParcel};
ghost use Rattle.library_values.specs.Buffer.{PutsSo};
ghost use Rattle.library_values.specs.Packing.{PacksSo};

use crate::buffer::{Put, put_front};
use crate::listed_fleet::listed::ListedFleet;
use page_numbers::{Parcel, ParcelFault};
use parcel_streams::{Mark, StreamId, pack_mark, pack_parcel};
use std::alloc::Global;
use trace_model::{CpuId, MAX_CPUS, NoMemory};

/// Reads a parcel from its bytes, and puts it as a piece of a stream to the front of `out`. If it isn't a parcel, or
/// memory is refused, nothing is put.
pub fn pack_bytes(
    alloc: Global,
    stream: StreamId,
    bytes: &[u8],
    out: &mut [u8],
) -> Result<Put, ParcelFault>
    ensures packs { IfOk result (λ put. PacksSo stream.0 bytes.now out.old put out.new) }
    ensures fault { IfErr result (λ fault. IsNoParcel bytes.now fault) }
    ensures refused { OnErr result (out.new ≡ out.old) }
{
    let parcel = Parcel::from_bytes(alloc, bytes)?;
    match pack_parcel(alloc, stream, &parcel) {
        Ok(piece) => Ok(put_front(out, &piece)),
        Err(NoMemory) => Err(ParcelFault::NoMemory),
    }
}

/// Puts the mark that a CPU of a stream has `count` records to the front of `out`. If there is no such CPU, or memory
/// is refused, nothing is put.
pub fn pack_end(
    alloc: Global,
    stream: StreamId,
    cpu: CpuId,
    count: u64,
    out: &mut [u8],
) -> Result<Put, ParcelFault>
    ensures packs { IfOk result (λ put.
        PutsSo (bytes_of_piece (mark_piece stream.0 cpu.0 (Mark.End count))) out.old put out.new) }
    ensures sound { OnOk result (IsPiece (mark_piece stream.0 cpu.0 (Mark.End count))) }
    ensures bad_cpu { (result ≡ Err ParcelFault.BadCpu) ↔ (MAX_CPUS ≤ cpu.0) }
    ensures fault { IfErr result (λ fault. (fault ≡ ParcelFault.BadCpu) ⊎ (fault ≡ ParcelFault.NoMemory)) }
    ensures refused { OnErr result (out.new ≡ out.old) }
{
    if cpu.0 >= MAX_CPUS {
        return Err(ParcelFault::BadCpu);
    }
    match pack_mark(alloc, stream, cpu, Mark::End(count)) {
        Ok(piece) => Ok(put_front(out, &piece)),
        Err(NoMemory) => Err(ParcelFault::NoMemory),
    }
}

impl ListedFleet {
    ghost use Rattle.fleet_collector.specs.Fleet.{stream_at};
    ghost use Rattle.library_values.specs.Packing.{PacksSnapshot};

    /// Puts what is known of a stream as packed pieces to the front of `out`. If memory is refused, nothing is put.
    pub fn pack(&self, alloc: Global, stream: StreamId, out: &mut [u8]) -> Result<Put, ParcelFault>
        ensures packs { IfOk result (λ put.
            PacksSnapshot stream.0 (stream_at self.now.fleet stream.0) out.old put out.new) }
        ensures fault { IfErr result (λ fault. fault ≡ ParcelFault.NoMemory) }
        ensures refused { OnErr result (out.new ≡ out.old) }
    {
        match self.fleet.pack(alloc, stream) {
            Ok(pieces) => Ok(put_front(out, &pieces)),
            Err(NoMemory) => Err(ParcelFault::NoMemory),
        }
    }
}
