//! Pieces and streams, read.
ghost use Rattle.std.specs.Prelude.{◌≡◌, ℕ, ◌≤◌, ◌⊎◌, ◌↔◌, List, IfOk, IfErr, OnErr, MatchResult, length};
ghost use Rattle.parcel_streams.specs.Pieces.{Packed, bytes_of_piece, BeginsWith, IsStream};
ghost use Rattle.parcel_streams.specs.Faults.{PieceCause, FirstPieceFault, FirstStreamFault};
ghost use Rattle.parcel_streams.specs.Answers.{piece_seen, pieces_seen, piece_fault, stream_fault, HasPiece};
ghost use Rattle.parcel_streams.specs.Answers.{HasPieceAt, IsPieceFault, IsStreamFault, PutsPiece};

use crate::body::read_body;
use crate::fault::{PieceFault, StreamFault};
use crate::frame::read_frame;
use crate::piece::Piece;
use std::alloc::Global;

/// The piece at the front of the bytes, and how many of them it takes. The faults are looked for in the order of
/// [`PieceFault`], and memory is asked for after all of them, so refused memory hides no fault.
pub fn read_piece(alloc: Global, bytes: &[u8]) -> Result<(Piece, usize), PieceFault>
    ensures piece { IfOk result (λ read. BeginsWith bytes.now (piece_seen read.0)) }
    ensures len { IfOk result (λ read. read.1 ≡ length (bytes_of_piece (piece_seen read.0))) }
    ensures within { IfOk result (λ read. read.1 ≤ length bytes.now) }
    ensures fault { (cause : PieceCause) → (result ≡ Err (piece_fault cause)) ↔ FirstPieceFault bytes.now cause }
    ensures read_back { (piece : Packed) → BeginsWith bytes.now piece
        → MatchResult result (λ read. piece_seen read.0 ≡ piece) (λ fault. fault ≡ PieceFault.NoMemory) }
    ensures no_memory { result ≡ Err PieceFault.NoMemory → HasPiece bytes.now }
{
    read(alloc, bytes)
}

/// The piece at the front of the bytes, and how many of them it takes; or their first fault, each by what it says.
fn read(alloc: Global, bytes: &[u8]) -> Result<(Piece, usize), PieceFault>
    ensures piece { IfOk result (λ read. BeginsWith bytes.now (piece_seen read.0)) }
    ensures len { IfOk result (λ read. read.1 ≡ length (bytes_of_piece (piece_seen read.0))) }
    ensures within { IfOk result (λ read. read.1 ≤ length bytes.now) }
    ensures fault { IfErr result (λ fault. IsPieceFault bytes.now fault) }
{
    let frame = read_frame(bytes)?;
    let piece = read_body(alloc, frame)?;
    Ok((piece, frame.len))
}

/// Reads the piece at the front of the bytes and puts it after the others. The answer is how many bytes it takes.
fn put_piece(alloc: Global, pieces: &mut Vec<Piece>, bytes: &[u8]) -> Result<usize, PieceFault>
    ensures piece { IfOk result (λ len. PutsPiece bytes.now pieces.old.items pieces.new.items len) }
    ensures within { IfOk result (λ len. len ≤ length bytes.now) }
    ensures fault { IfErr result (λ fault. IsPieceFault bytes.now fault) }
    ensures unchanged { OnErr result (pieces.new.items ≡ pieces.old.items) }
{
    let (piece, len) = read(alloc, bytes)?;
    if pieces.push(piece).is_err() {
        return Err(PieceFault::NoMemory);
    }
    Ok(len)
}

/// All pieces of a stream. The first one that can't be read is reported, or the first one for which memory was refused:
/// refused memory hides the faults of later pieces (to look for them first would read all twice), and none of this one
/// or of those before it.
pub fn read_stream(alloc: Global, bytes: &[u8]) -> Result<Vec<Piece>, StreamFault>
    ensures stream { IfOk result (λ pieces. IsStream bytes.now (pieces_seen pieces.items)) }
    ensures fault { (index at : ℕ) (cause : PieceCause)
        → result ≡ Err (stream_fault index at cause) → FirstStreamFault bytes.now index at cause }
    ensures faulty { (index at : ℕ) (cause : PieceCause) → FirstStreamFault bytes.now index at cause
        → MatchResult result (λ _. ⊥)
        (λ fault. (fault ≡ stream_fault index at cause) ⊎ (fault.fault ≡ PieceFault.NoMemory)) }
    ensures read_back { (pieces : List Packed) → IsStream bytes.now pieces
        → MatchResult result (λ read. pieces_seen read.items ≡ pieces)
        (λ fault. fault.fault ≡ PieceFault.NoMemory) }
    ensures no_memory { IfErr result (λ fault. fault.fault ≡ PieceFault.NoMemory
        → HasPieceAt bytes.now fault.index fault.at) }
{
    read_pieces(alloc, bytes)
}

/// The pieces of a stream, or its first fault, each fault by what it says.
fn read_pieces(alloc: Global, bytes: &[u8]) -> Result<Vec<Piece>, StreamFault>
    ensures stream { IfOk result (λ pieces. IsStream bytes.now (pieces_seen pieces.items)) }
    ensures fault { IfErr result (λ fault. IsStreamFault bytes.now fault) }
{
    let mut pieces = Vec::new(alloc);
    let mut at = 0;
    while at < bytes.len() {
        match put_piece(alloc, &mut pieces, &bytes[at..]) {
            Ok(len) => at += len,
            Err(fault) => {
                let index = pieces.len();
                return Err(StreamFault { index, at, fault });
            }
        }
    }
    Ok(pieces)
}
