//! What the pieces are that are given of a source.
ghost use Rattle.std.specs.Prelude.{◌≡◌, ℕ, ◌+◌, ◌-◌, ◌^◌, min, List, [], ◌∷◌, ◌++◌, length, Option};
ghost use Rattle.std.specs.Io.KnownBytes.{IsAtEnd, Keeps};
ghost use Rattle.parcel_streams.specs.Pieces.{Packed, bytes_of_piece, bytes_of_pieces, IsStream};
ghost use Rattle.parcel_streams.specs.Faults.{PieceCause, FirstStreamFault};
ghost use Rattle.parcel_streams.specs.source.Reading.{AreLeft, GivesPiece, HasFaultAhead, GivesPieces, HasGiven};
ghost use Rattle.parcel_streams.specs.declared.source.limits.TheConstants.{ROOM};
ghost use Rattle.parcel_streams.specs.declared.limits.TheConstants.{MAX_PIECE};

/// The pieces that a reader gives one after the other, up to the end, are the stream that the source's bytes were at
/// first; if a fault is ahead, it is the first fault of these bytes, after the pieces that were given.
pub fn pieces_given_are_a_stream()
    ensures none { (first : Option (List ℕ)) → GivesPieces first first [] }
    ensures more { (first left rest : Option (List ℕ)) (pieces : List Packed) (piece : Packed)
        → GivesPieces first left pieces → GivesPiece left rest piece
        → GivesPieces first rest (pieces ++ piece ∷ []) }
    ensures again { (first left rest : Option (List ℕ)) (pieces : List Packed)
        → GivesPieces first left pieces → Keeps left rest → GivesPieces first rest pieces }
    ensures stream { (first left : Option (List ℕ)) (pieces : List Packed)
        → GivesPieces first left pieces → IsAtEnd left
        → (bytes : List ℕ) × AreLeft first bytes × IsStream bytes pieces }
    ensures fault { (first left : Option (List ℕ)) (pieces : List Packed) (cause : PieceCause)
        → GivesPieces first left pieces → HasFaultAhead left cause
        → (bytes : List ℕ) × AreLeft first bytes
        × FirstStreamFault bytes (length pieces) (length (bytes_of_pieces pieces)) cause }
{}

/// A reader's counts are those of the pieces that it gave, and of their bytes.
pub fn pieces_given_are_counted()
    ensures none { (first : Option (List ℕ)) → HasGiven first first 0 0 [] }
    ensures more { (first left rest : Option (List ℕ)) (index at : ℕ) (pieces : List Packed) (piece : Packed)
        → HasGiven first left index at pieces → GivesPiece left rest piece
        → HasGiven first rest (min (index + 1) (2 ^ 64 - 1)) (min (at + length (bytes_of_piece piece)) (2 ^ 64 - 1))
        (pieces ++ piece ∷ []) }
{}

/// The room of a reader's buffer is that of two of the longest pieces; contracts name it, so that one that is changed
/// is refused here.
pub fn constants_are()
    ensures room { ROOM ≡ MAX_PIECE + MAX_PIECE }
{}
