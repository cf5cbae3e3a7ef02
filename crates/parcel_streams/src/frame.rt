//! What all pieces have: a head, and a checksum of all bytes before it.
ghost use Rattle.std.specs.Prelude.{◌≡◌, ◌<◌, ◌≤◌, ◌↔◌, IsTrue, IfOk, IfErr, OnOk, OnErr, length};
ghost use Rattle.trace_model.specs.Image.{le64};
ghost use Rattle.parcel_streams.specs.crc32c.Castagnoli.{crc32c as sum_of};
ghost use Rattle.parcel_streams.specs.Pieces.{magic};
ghost use Rattle.parcel_streams.specs.Faults.{HasMagic, HasLength, length_in, IsWhole, IsDecided, IsWanted, sum_in};
ghost use Rattle.parcel_streams.specs.Faults.{summed_in};
ghost use Rattle.parcel_streams.specs.Answers.{IsPieceFault, HasFrame};

use crate::crc32c::crc32c;
use crate::fault::PieceFault;
use crate::limits::{HEAD, MAX_PIECE, MIN_PIECE, SUM};
use crate::piece::StreamId;
use page_image::number_at;

/// The letters with which each piece begins.
pub(crate) const MAGIC: [u8; 8] = *b"TRPARCEL";

/// The version of pieces that is read and written.
pub(crate) const VERSION: u64 = 1;

/// Above the version, in the number after the magic, is the kind: it counts this much.
pub(crate) const KIND: u64 = 1 << 32;

/// A piece at the front of some bytes, whose checksum is right. What its kind has of its own wasn't looked at.
#[derive(Clone, Copy)]
pub(crate) struct Frame<'a> {
    /// 0 for a parcel, 1 to 3 for a mark.
    pub(crate) kind: u64,
    pub(crate) stream: StreamId,
    /// What the kind has of its own.
    pub(crate) body: &'a [u8],
    /// How many bytes the piece has.
    pub(crate) len: usize,
}

/// Whether the bytes begin as a piece does, as far as there are any.
fn has_magic(bytes: &[u8]) -> bool
    ensures { IsTrue result ↔ HasMagic bytes.now }
{
    if bytes.len() < MAGIC.len() {
        MAGIC.starts_with(bytes)
    } else {
        bytes.starts_with(&MAGIC)
    }
}

/// The length that the first piece states, if it has a head of this version.
fn read_len(bytes: &[u8]) -> Result<usize, PieceFault>
    ensures len { IfOk result (λ len. len ≡ length_in bytes.now) }
    ensures stated { OnOk result (HasLength bytes.now) }
    ensures none { OnErr result (¬ HasLength bytes.now) }
    ensures fault { IfErr result (λ fault. IsPieceFault bytes.now fault) }
{
    if !has_magic(bytes) {
        return Err(PieceFault::NotPacked);
    }
    if bytes.len() < HEAD {
        return Err(PieceFault::Cut);
    }
    if number_at(bytes, 8) % KIND != VERSION {
        return Err(PieceFault::BadVersion);
    }
    let len = number_at(bytes, 16);
    if len < MIN_PIECE as u64 || len > MAX_PIECE as u64 {
        return Err(PieceFault::BadLength);
    }
    Ok(len as usize)
}

/// Whether the checksum at the end of a piece is that of the bytes before it.
fn has_sum(bytes: &[u8], len: usize) -> bool
    requires whole { IsWhole bytes.now }
    requires len { len ≡ length_in bytes.now }
    ensures { IsTrue result ↔ (sum_in bytes.now ≡ le64 (sum_of (summed_in bytes.now))) }
{
    number_at(bytes, len - SUM) == u64::from(crc32c(&bytes[..len - SUM]))
}

/// The piece at the front, once its head and its checksum are read. Only the letters, the version and the length are
/// looked at before the checksum, so that damage is reported as such.
pub(crate) fn read_frame(bytes: &[u8]) -> Result<Frame<'_>, PieceFault>
    ensures frame { IfOk result (λ frame. HasFrame bytes.now frame) }
    ensures fault { IfErr result (λ fault. IsPieceFault bytes.now fault) }
{
    let len = read_len(bytes)?;
    if bytes.len() < len {
        return Err(PieceFault::Cut);
    }
    if !has_sum(bytes, len) {
        return Err(PieceFault::BadSum);
    }
    Ok(Frame {
        kind: number_at(bytes, 8) / KIND,
        stream: StreamId(number_at(bytes, 24)),
        body: &bytes[HEAD..len - SUM],
        len,
    })
}

/// How many bytes decide what the piece at the front is: its head; then the length that the head states, if it may be
/// one; else the bytes that are there, which have a fault. Of fewer bytes more have to be read. Those after them
/// change nothing.
pub fn wanted(bytes: &[u8]) -> usize
    ensures wanted { IsWanted bytes.now result }
    ensures enough { (result ≤ length bytes.now) ↔ IsDecided bytes.now }
    ensures limit { length bytes.now < result → result ≤ MAX_PIECE }
{
    if bytes.len() < HEAD {
        return HEAD;
    }
    match read_len(bytes) {
        Ok(len) => len,
        Err(_) => bytes.len(),
    }
}

/// Whether the bytes begin as a stream of parcels does. All of the first eight bytes are needed for that.
pub fn is_stream(bytes: &[u8]) -> bool
    ensures { IsTrue result ↔ (HasMagic bytes.now × (8 ≤ length bytes.now)) }
{
    bytes.len() >= MAGIC.len() && has_magic(bytes)
}
