//! A reader of pieces.
use crate::source::fault::ReadPieceFault;
use crate::source::fill::fill;
use crate::source::window::Window;
use crate::{Piece, read_piece};
use command_io::Source;
use std::alloc::Global;
use trace_model::NoMemory;

/// Reads a source piece by piece. Of the source at most [`ROOM`](crate::source::ROOM) bytes are held.
#[derive(Drop)]
pub struct PieceReader<R> {
    source: R,
    window: Window,
    index: u64,
    at: u64,
}

impl<R> PieceReader<R> {
    ghost use Rattle.std.specs.Prelude.{◌≡◌, [], IfOk};
    ghost use Rattle.parcel_streams.specs.source.Readers.{source_of, given_of, index_of, at_of};

    /// The bytes of the piece that the last call of [`PieceReader::next`] gave, as they are in the stream; none if it
    /// gave none.
    pub fn bytes(&self) -> &[u8]
        ensures { result.now ≡ given_of self.now }
    {
        self.window.given()
    }

    /// How many pieces were given. The number stops at 2^64 - 1.
    pub fn index(&self) -> u64
        ensures { result ≡ index_of self.now }
    {
        self.index
    }

    /// How many bytes these take: the next piece begins there. The number stops at 2^64 - 1.
    pub fn at(&self) -> u64
        ensures { result ≡ at_of self.now }
    {
        self.at
    }

    /// The source. Of it more may have been read than the pieces that were given.
    pub fn into_source(self) -> R
        ensures { result ≡ source_of self }
    {
        let PieceReader {
            source,
            window: _,
            index: _,
            at: _,
        } = self;
        source
    }
}

impl<R: Source> PieceReader<R> {
    ghost use Rattle.std.specs.Prelude.{◌≡◌, ◌+◌, ◌-◌, ◌^◌, ◌↔◌, true, false, [], min, length, None, Ok, Err, IfOk};
    ghost use Rattle.std.specs.Prelude.{IfSome, OnOk};
    ghost use Rattle.std.specs.Io.KnownBytes.{IsAtEnd, Keeps};
    ghost use Rattle.parcel_streams.specs.Pieces.{bytes_of_piece};
    ghost use Rattle.parcel_streams.specs.Faults.{PieceCause};
    ghost use Rattle.parcel_streams.specs.Answers.{piece_seen, piece_fault};
    ghost use Rattle.parcel_streams.specs.declared.fault.PieceFault.TheVariants.{NoMemory as MemoryIs};
    ghost use Rattle.parcel_streams.specs.source.Reading.{GivesPiece, HasFaultAhead, HasPieceAhead, OnNoPiece};
    ghost use Rattle.parcel_streams.specs.source.Readers.{source_of, left_of, given_of, index_of, at_of};

    /// A reader that has given nothing of this source.
    pub fn new(alloc: Global, source: R) -> Result<PieceReader<R>, NoMemory>
    where
        R: Drop,
        ensures left { IfOk result (λ reader. left_of R.remaining reader ≡ R.remaining source) }
        ensures source { IfOk result (λ reader. source_of reader ≡ source) }
        ensures given { IfOk result (λ reader. given_of reader ≡ []) }
        ensures index { IfOk result (λ reader. index_of reader ≡ 0) }
        ensures at { IfOk result (λ reader. at_of reader ≡ 0) }
    {
        let window = Window::new(alloc)?;
        Ok(PieceReader {
            source,
            window,
            index: 0,
            at: 0,
        })
    }

    /// The next piece, or none at the end. After a fault of a read there is no other call; after another one, or where
    /// memory was refused, the next call begins at the same place.
    pub fn next(&mut self, alloc: Global) -> Result<Option<Piece>, ReadPieceFault>
        requires { R.failed (source_of self.old) ≡ false }
        ensures piece { IfOk result (λ next. IfSome next (λ piece.
            GivesPiece (left_of R.remaining self.old) (left_of R.remaining self.new) (piece_seen piece))) }
        ensures bytes { IfOk result (λ next. IfSome next (λ piece.
            given_of self.new ≡ bytes_of_piece (piece_seen piece))) }
        ensures index { IfOk result (λ next. IfSome next (λ piece.
            index_of self.new ≡ min (index_of self.old + 1) (2 ^ 64 - 1))) }
        ensures at { IfOk result (λ next. IfSome next (λ piece.
            at_of self.new ≡ min (at_of self.old + length (bytes_of_piece (piece_seen piece))) (2 ^ 64 - 1))) }
        ensures end { result ≡ Ok None → IsAtEnd (left_of R.remaining self.old) }
        ensures fault { (cause : PieceCause) → result ≡ Err (ReadPieceFault.Piece (piece_fault cause))
            → HasFaultAhead (left_of R.remaining self.old) cause }
        ensures no_memory { result ≡ Err (ReadPieceFault.Piece MemoryIs)
            → HasPieceAhead (left_of R.remaining self.old) }
        ensures read_fault { (R.failed (source_of self.new) ≡ true) ↔ (result ≡ Err ReadPieceFault.Read) }
        ensures sound { OnOk result (R.failed (source_of self.new) ≡ false) }
        ensures left { OnNoPiece result (Keeps (left_of R.remaining self.old) (left_of R.remaining self.new)) }
        ensures no_bytes { OnNoPiece result (given_of self.new ≡ []) }
        ensures same_index { OnNoPiece result (index_of self.new ≡ index_of self.old) }
        ensures same_at { OnNoPiece result (at_of self.new ≡ at_of self.old) }
    {
        self.window.give(0);
        if fill(&mut self.window, &mut self.source).is_err() {
            return Err(ReadPieceFault::Read);
        }
        if self.window.unread().is_empty() {
            return Ok(None);
        }
        let (piece, len) = read_piece(alloc, self.window.unread())?;
        self.window.give(len);
        self.index = self.index.saturating_add(1);
        self.at = self.at.saturating_add(len as u64);
        Ok(Some(piece))
    }
}
