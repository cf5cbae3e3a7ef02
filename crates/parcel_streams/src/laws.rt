//! Laws over streams of parcels.
ghost use Rattle.std.specs.Prelude.{◌≡◌, ℕ, ◌+◌, ◌<◌, ◌≤◌, ◌⊎◌, ◌↔◌, ◌++◌, List, length, take};
ghost use Rattle.parcel_streams.specs.crc32c.Changes.{DifferAt};
ghost use Rattle.trace_model.specs.FirstFault.{AreBytes};
ghost use Rattle.trace_model.specs.Parcel.{Parcel as ParcelSeen};
ghost use Rattle.trace_model.specs.ParcelBytes.{DecodesParcel};
ghost use Rattle.trace_model.specs.declared.limits.TheConstants.{MAX_SIZE};
ghost use Rattle.parcel_streams.specs.Pieces.{Packed, parcel_piece, bytes_of_piece, IsPiece, BeginsWith};
ghost use Rattle.parcel_streams.specs.Pieces.{bytes_of_pieces, IsStream};
ghost use Rattle.parcel_streams.specs.Faults.{stream_in, body_in, HoldsParcel, IsDecided, PieceCause, FirstPieceFault};
ghost use Rattle.parcel_streams.specs.Faults.{FirstStreamFault};
ghost use Rattle.parcel_streams.specs.declared.limits.TheConstants.{HEAD, SUM, MIN_PIECE, MAX_PIECE, PARCEL_HEAD};
ghost use Rattle.parcel_streams.specs.declared.limits.TheConstants.{NUMBER_BODY, RUN_BODY};

/// What is spelled is read back: a piece, whatever follows it, is the one piece at the front; a parcel's states its
/// stream, and its bytes read as the parcel.
pub fn spelled_is_read()
    ensures piece { (piece other : Packed) (rest : List ℕ) → IsPiece piece
        → BeginsWith (bytes_of_piece piece ++ rest) other → other ≡ piece }
    ensures parcel { (bytes : List ℕ) (stream : ℕ) (parcel : ParcelSeen) (time : ℕ) (contents : List ℕ)
        → BeginsWith bytes (parcel_piece stream parcel time contents)
        → HoldsParcel bytes × (stream_in bytes ≡ stream) × DecodesParcel (body_in bytes) parcel }
{}

/// What is read was spelled exactly so: a piece has one spelling, and so has a stream.
pub fn read_is_spelled()
    ensures piece { (bytes : List ℕ) (piece : Packed) → BeginsWith bytes piece
        → take (length (bytes_of_piece piece)) bytes ≡ bytes_of_piece piece }
    ensures stream { (bytes other : List ℕ) (pieces : List Packed) → IsStream bytes pieces → IsStream other pieces
        → bytes ≡ other }
{}

/// Bytes begin with one piece or have one first fault, and never both.
pub fn bytes_have_a_piece_or_a_fault()
    ensures one { (bytes : List ℕ) → AreBytes bytes
        → ((piece : Packed) × BeginsWith bytes piece) ⊎ ((cause : PieceCause) × FirstPieceFault bytes cause) }
    ensures piece_is_no_fault { (bytes : List ℕ) (piece : Packed) (cause : PieceCause)
        → BeginsWith bytes piece → ¬ FirstPieceFault bytes cause }
    ensures one_piece { (bytes : List ℕ) (piece other : Packed)
        → BeginsWith bytes piece → BeginsWith bytes other → piece ≡ other }
    ensures one_fault { (bytes : List ℕ) (cause other : PieceCause)
        → FirstPieceFault bytes cause → FirstPieceFault bytes other → cause ≡ other }
{}

/// If the bytes decide what the piece at the front is, whatever follows them changes neither the piece nor the first
/// fault. So a source can be read piece by piece.
pub fn more_bytes_change_nothing()
    ensures piece { (bytes more : List ℕ) (piece : Packed) → AreBytes bytes → IsDecided bytes
        → BeginsWith bytes piece ↔ BeginsWith (bytes ++ more) piece }
    ensures fault { (bytes more : List ℕ) (cause : PieceCause) → AreBytes bytes → IsDecided bytes
        → FirstPieceFault bytes cause ↔ FirstPieceFault (bytes ++ more) cause }
{}

/// Bytes are a stream or have one first fault, at one place, and never both.
pub fn bytes_are_a_stream_or_have_a_fault()
    ensures one { (bytes : List ℕ) → AreBytes bytes → ((pieces : List Packed) × IsStream bytes pieces)
        ⊎ ((index at : ℕ) × (cause : PieceCause) × FirstStreamFault bytes index at cause) }
    ensures stream_is_no_fault { (bytes : List ℕ) (pieces : List Packed) (index at : ℕ) (cause : PieceCause)
        → IsStream bytes pieces → ¬ FirstStreamFault bytes index at cause }
    ensures one_fault { (bytes : List ℕ) (index at : ℕ) (cause : PieceCause) (other there : ℕ) (reason : PieceCause)
        → FirstStreamFault bytes index at cause → FirstStreamFault bytes other there reason
        → (index ≡ other) × (at ≡ there) × (cause ≡ reason) }
{}

/// Bytes are the stream of one list of pieces at most: nothing inside a piece can be taken for a piece's beginning.
pub fn streams_have_one_cut()
    ensures { (bytes : List ℕ) (pieces others : List Packed) → IsStream bytes pieces → IsStream bytes others
        → pieces ≡ others }
{}

/// Streams that are put one after the other are the stream of the pieces of the one and then of the other. So files of
/// streams may be joined as bytes.
pub fn joined_streams()
    ensures bytes { (pieces others : List Packed)
        → bytes_of_pieces (pieces ++ others) ≡ bytes_of_pieces pieces ++ bytes_of_pieces others }
    ensures stream { (bytes behind : List ℕ) (pieces others : List Packed) → IsStream bytes pieces
        → IsStream behind others → IsStream (bytes ++ behind) (pieces ++ others) }
{}

/// No two pieces differ in one byte alone. So if one byte of a piece changes, other than those that state the piece's
/// length, no piece is read.
pub fn a_changed_byte_is_refused()
    ensures pieces { (piece other : Packed) (at : ℕ) → ¬ DifferAt (bytes_of_piece piece) (bytes_of_piece other) at }
    ensures reading { (bytes changed : List ℕ) (piece : Packed) (at : ℕ) → BeginsWith bytes piece
        → DifferAt bytes changed at → at < length (bytes_of_piece piece) → (at < 16) ⊎ (24 ≤ at)
        → (other : Packed) → ¬ BeginsWith changed other }
{}

/// Each number of a piece's form has the value that is stated here; contracts name it, so that one that is changed is
/// refused here.
pub fn constants_are()
    ensures head { HEAD ≡ 32 }
    ensures sum { SUM ≡ 8 }
    ensures parcel_head { PARCEL_HEAD ≡ 48 }
    ensures number_body { NUMBER_BODY ≡ 16 }
    ensures run_body { RUN_BODY ≡ 24 }
    ensures min_piece { MIN_PIECE ≡ HEAD + NUMBER_BODY + SUM }
    ensures max_piece { MAX_PIECE ≡ HEAD + (PARCEL_HEAD + MAX_SIZE) + SUM }
{}
