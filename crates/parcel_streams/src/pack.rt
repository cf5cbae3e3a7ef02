//! Pieces, written.
ghost use Rattle.std.specs.Prelude.{◌≡◌, ◌+◌, ◌≤◌, ◌<◌, ◌++◌, IfOk, OnOk, length};
ghost use Rattle.trace_model.specs.Image.{le64};
ghost use Rattle.trace_model.specs.declared.limits.TheConstants.{MAX_CPUS, MAX_SIZE};
ghost use Rattle.parcel_streams.specs.Pieces.{sealed, bytes_of_piece, mark_piece, numbers_of_mark, IsMark, IsPiece};
ghost use Rattle.parcel_streams.specs.Answers.{piece_of_parcel};

use crate::body::PARCEL;
use crate::crc32c::crc32c;
use crate::frame::{KIND, MAGIC, VERSION};
use crate::limits::{HEAD, PARCEL_HEAD, RUN_BODY, SUM};
use crate::piece::{Mark, StreamId, UNDELIVERED};
use page_numbers::Parcel;
use std::alloc::{AllocError, Global};
use trace_model::{CpuId, NoMemory};

/// Puts a number after the bytes, its lowest byte first.
#[tactic(auto, unfolding(trace_model::specs::Image::le64))]
fn put_number(bytes: &mut Vec<u8>, number: u64) -> Result<(), AllocError>
    ensures { OnOk result (bytes.new.items ≡ bytes.old.items ++ le64 number) }
{
    bytes.extend_from_slice(&number.to_le_bytes())
}

/// A piece of this kind, with what the kind has of its own.
fn seal(alloc: Global, kind: u64, stream: StreamId, body: &[u8]) -> Result<Vec<u8>, NoMemory>
    requires kind { kind ≤ UNDELIVERED }
    requires limit { length body.now ≤ PARCEL_HEAD + MAX_SIZE }
    ensures { IfOk result (λ bytes. bytes.items ≡ sealed kind stream.0 body.now) }
{
    let len = HEAD + body.len() + SUM;
    let mut bytes = Vec::with_capacity(alloc, len)?;
    bytes.extend_from_slice(&MAGIC)?;
    put_number(&mut bytes, VERSION + KIND * kind)?;
    put_number(&mut bytes, len as u64)?;
    put_number(&mut bytes, stream.0)?;
    bytes.extend_from_slice(body)?;
    let sum = crc32c(&bytes);
    put_number(&mut bytes, u64::from(sum))?;
    Ok(bytes)
}

/// The bytes of a parcel as a piece of this stream. Its page is written without the room that isn't used.
pub fn pack_parcel(alloc: Global, stream: StreamId, parcel: &Parcel) -> Result<Vec<u8>, NoMemory>
    ensures bytes { IfOk result (λ bytes. bytes.items ≡ bytes_of_piece (piece_of_parcel stream.0 parcel.now)) }
    ensures sound { OnOk result (IsPiece (piece_of_parcel stream.0 parcel.now)) }
{
    let body = parcel.trimmed(alloc)?.to_bytes(alloc)?;
    seal(alloc, PARCEL, stream, &body)
}

/// Puts the numbers of a mark after the bytes.
fn put_mark(bytes: &mut Vec<u8>, mark: &Mark) -> Result<(), AllocError>
    ensures { OnOk result (bytes.new.items ≡ bytes.old.items ++ numbers_of_mark mark.now) }
{
    match *mark {
        Mark::End(count) => put_number(bytes, count),
        Mark::Forgotten(bound) => put_number(bytes, bound),
        Mark::Undelivered(first, end) => {
            put_number(bytes, first)?;
            put_number(bytes, end)
        }
    }
}

/// The bytes of the piece which says this of a CPU of the stream.
pub fn pack_mark(
    alloc: Global,
    stream: StreamId,
    cpu: CpuId,
    mark: Mark,
) -> Result<Vec<u8>, NoMemory>
    requires known { cpu.0 < MAX_CPUS }
    requires sound { IsMark mark }
    ensures bytes { IfOk result (λ bytes. bytes.items ≡ bytes_of_piece (mark_piece stream.0 cpu.0 mark)) }
    ensures sound { IsPiece (mark_piece stream.0 cpu.0 mark) }
{
    let mut body = Vec::with_capacity(alloc, RUN_BODY)?;
    put_number(&mut body, u64::from(cpu.0))?;
    put_mark(&mut body, &mark)?;
    seal(alloc, mark.kind(), stream, &body)
}
