//! What a piece has of its own kind: a parcel, or a mark.
ghost use Rattle.std.specs.Prelude.{◌≡◌, ◌+◌, ◌≤◌, ◌↔◌, IsTrue, IfOk, IfErr, OnErr, length};
ghost use Rattle.trace_model.specs.Parcel.{Parcel as ParcelSeen};
ghost use Rattle.trace_model.specs.ParcelBytes.{DecodesParcel};
ghost use Rattle.trace_model.specs.declared.limits.TheConstants.{MAX_SIZE};
ghost use Rattle.parcel_streams.specs.Faults.{mark_body, IsBadMark, IsFitted};
ghost use Rattle.parcel_streams.specs.Answers.{IsParcelBody, IsBodyFault, HasBody, mark_stated, IsMarkBody};

use crate::fault::PieceFault;
use crate::frame::Frame;
use crate::limits::{NUMBER_BODY, PARCEL_HEAD, RUN_BODY};
use crate::piece::{END, FORGOTTEN, Mark, Piece, UNDELIVERED};
use page_image::{commit_number, number_at};
use page_numbers::Parcel;
use std::alloc::Global;
use trace_model::{CpuId, MAX_CPUS};

/// The kind of a parcel.
pub(crate) const PARCEL: u64 = 0;

/// Whether these bytes, if they are a parcel's, are those that are written for it where its page is as long as its
/// data.
fn is_fitted(body: &[u8]) -> bool
    requires { length body.now ≤ PARCEL_HEAD + MAX_SIZE }
    ensures { (parcel : ParcelSeen) → DecodesParcel body.now parcel → (IsTrue result ↔ IsFitted body.now parcel) }
{
    if body.len() < PARCEL_HEAD {
        return false;
    }
    let len = body.len() - PARCEL_HEAD;
    number_at(body, 40) == commit_number(len, number_at(body, 24), len)
}

/// Why the bytes aren't those of a parcel that are written for it.
fn unfitted_fault(alloc: Global, body: &[u8]) -> PieceFault
    requires { (parcel : ParcelSeen) → DecodesParcel body.now parcel → ¬ IsFitted body.now parcel }
    ensures { IsBodyFault PARCEL body.now result }
{
    match Parcel::from_bytes(alloc, body) {
        Ok(_) => PieceFault::Loose,
        Err(fault) => match PieceFault::from(fault) {
            PieceFault::NoMemory => PieceFault::Loose,
            fault => fault,
        },
    }
}

/// The parcel of a piece.
fn read_parcel(alloc: Global, body: &[u8]) -> Result<Parcel, PieceFault>
    requires { length body.now ≤ PARCEL_HEAD + MAX_SIZE }
    ensures parcel { IfOk result (λ parcel. IsParcelBody body.now parcel) }
    ensures fault { IfErr result (λ fault. IsBodyFault PARCEL body.now fault) }
{
    if !is_fitted(body) {
        return Err(unfitted_fault(alloc, body));
    }
    Ok(Parcel::from_bytes(alloc, body)?)
}

/// How many bytes a mark of this kind has of its own.
fn mark_body(kind: u64) -> usize
    ensures { result ≡ mark_body kind }
{
    if kind == UNDELIVERED {
        RUN_BODY
    } else {
        NUMBER_BODY
    }
}

/// The mark of this kind that these bytes state.
fn mark_in(kind: u64, body: &[u8]) -> Mark
    requires least { END ≤ kind }
    requires most { kind ≤ UNDELIVERED }
    requires len { length body.now ≡ mark_body kind }
    ensures { result ≡ mark_stated kind body.now }
{
    let first = number_at(body, 8);
    match kind {
        END => Mark::End(first),
        FORGOTTEN => Mark::Forgotten(first),
        _ => Mark::Undelivered(first, number_at(body, 16)),
    }
}

/// What is said of which CPU.
fn read_mark(kind: u64, body: &[u8]) -> Result<(CpuId, Mark), PieceFault>
    requires least { END ≤ kind }
    requires most { kind ≤ UNDELIVERED }
    ensures mark { IfOk result (λ read. IsMarkBody kind body.now read.0.0 read.1) }
    ensures fault { IfErr result (λ fault. fault ≡ PieceFault.BadMark) }
    ensures bad { OnErr result (IsBadMark kind body.now) }
{
    if body.len() != mark_body(kind) {
        return Err(PieceFault::BadMark);
    }
    let cpu = number_at(body, 0);
    if cpu >= u64::from(MAX_CPUS) {
        return Err(PieceFault::BadMark);
    }
    let mark = mark_in(kind, body);
    if !mark.is_sound() {
        return Err(PieceFault::BadMark);
    }
    Ok((CpuId(cpu as u32), mark))
}

/// The piece of this frame.
pub(crate) fn read_body(alloc: Global, frame: Frame<'_>) -> Result<Piece, PieceFault>
    requires { length frame.body.now ≤ PARCEL_HEAD + MAX_SIZE }
    ensures piece { IfOk result (λ piece. HasBody frame.entry piece) }
    ensures fault { IfErr result (λ fault. IsBodyFault frame.entry.kind frame.entry.body.now fault) }
{
    match frame.kind {
        PARCEL => Ok(Piece::Parcel(frame.stream, read_parcel(alloc, frame.body)?)),
        END..=UNDELIVERED => {
            let (cpu, mark) = read_mark(frame.kind, frame.body)?;
            Ok(Piece::Mark(frame.stream, cpu, mark))
        }
        _ => Err(PieceFault::BadKind),
    }
}
