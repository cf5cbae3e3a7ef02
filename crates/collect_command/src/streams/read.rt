//! All inputs, one after the other, piece by piece.
ghost use Rattle.std.specs.Prelude.{◌≡◌, false, All, IfErr, OnOk, length};
ghost use Rattle.parcel_streams.specs.Pieces.{IsPiece, bytes_of_piece};
ghost use Rattle.parcel_streams.specs.Answers.{piece_seen};
ghost use Rattle.fleet_collector.specs.declared.refusal.PieceRefusal.{PieceRefusal};
ghost use Rattle.parcel_streams.specs.source.Readers.{source_of};
ghost use Rattle.collect_command.specs.streams.Reading.{Placed, IsOrigin, IsFresh, TakesInput, StopsInput, TakesInputs};
ghost use Rattle.collect_command.specs.streams.Reading.{StopsInputs};

use command_io::Source;
use fleet_collector::PieceRefusal;
use fleet_text::{PiecePlace, PieceTrouble};
use parcel_streams::source::{PieceReader, ReadPieceFault};
use parcel_streams::{Piece, StreamId};
use std::alloc::Global;
use trace_model::CpuId;

/// What takes the pieces of inputs, one after the other, each together with a writer.
pub(crate) trait TakesPieces<W> {
    // What taking a piece makes of both.
    ghost takes: { (Self × W) → Placed → (Self × W) → Type 0 };

    // What both are if it refuses the piece.
    ghost refuses: { (Self × W) → Placed → PieceRefusal → (Self × W) → Type 0 };

    /// Takes the next piece, which has these bytes.
    fn take(
        &mut self,
        writer: &mut W,
        place: PiecePlace,
        piece: Piece,
        bytes: &[u8],
    ) -> Result<(), PieceRefusal>
        requires sound { IsPiece (piece_seen piece) }
        requires bytes { bytes.now ≡ bytes_of_piece (piece_seen piece) }
        requires length { place.length ≡ length (bytes_of_piece (piece_seen piece)) }
        ensures taken { OnOk result (takes (self.old, writer.old)
            (record { input = place.input; at = place.at; piece = piece }) (self.new, writer.new)) }
        ensures refused { IfErr result (λ refusal. refuses (self.old, writer.old)
            (record { input = place.input; at = place.at; piece = piece }) refusal (self.new, writer.new)) };
}

/// Why an input isn't read to its end.
#[derive(Clone, Copy, Debug, PartialEq, Eq)]
pub(crate) enum Stop {
    /// A read of it failed.
    Read,
    /// Nothing is made of the next piece. `index` pieces and `at` bytes of the input are before it.
    Piece {
        index: u64,
        at: u64,
        trouble: PieceTrouble,
    },
}

/// The index of the input that isn't read to its end, and why.
#[derive(Clone, Copy, Debug, PartialEq, Eq)]
pub(crate) struct Stopped {
    pub(crate) input: usize,
    pub(crate) stop: Stop,
}

/// The CPU of a stream of which a piece is.
fn origin_of(piece: &Piece) -> (StreamId, CpuId)
    ensures { IsOrigin piece.now result.0 result.1 }
{
    match piece {
        Piece::Parcel(stream, parcel) => (*stream, parcel.cpu()),
        Piece::Mark(stream, cpu, _) => (*stream, *cpu),
    }
}

/// Reads an input to its end, and has its pieces taken. `input` is its index. After a fault nothing more is read.
fn read_input<R: Source, W, T: TakesPieces<W>>(
    alloc: Global,
    input: usize,
    reader: &mut PieceReader<R>,
    taker: &mut T,
    writer: &mut W,
) -> Result<(), Stop>
    requires sound { R.failed (source_of reader.old) ≡ false }
    requires fresh { IsFresh reader.old }
    ensures taken { OnOk result (TakesInput R.remaining R.failed T.takes T.refuses input reader.old reader.new
        (taker.old, writer.old) (taker.new, writer.new)) }
    ensures stopped { IfErr result (λ stop. StopsInput R.remaining R.failed T.takes T.refuses input
        reader.old reader.new (taker.old, writer.old) (taker.new, writer.new) stop) }
{
    'pieces: while reader.index() < u64::MAX {
        let index = reader.index();
        let at = reader.at();
        let piece = match reader.next(alloc) {
            Ok(Some(piece)) => piece,
            Ok(None) => return Ok(()),
            Err(ReadPieceFault::Read) => return Err(Stop::Read),
            Err(ReadPieceFault::Piece(fault)) => {
                let trouble = PieceTrouble::Unread(fault);
                return Err(Stop::Piece { index, at, trouble });
            }
        };
        let (stream, cpu) = origin_of(&piece);
        let bytes = reader.bytes();
        let length = bytes.len();
        let place = PiecePlace { input, at, length };
        if let Err(refusal) = taker.take(writer, place, piece, bytes) {
            let trouble = PieceTrouble::Refused(stream, cpu, refusal);
            return Err(Stop::Piece { index, at, trouble });
        }
    }
    Err(Stop::Read)
}

/// Reads all inputs, one after the other, each to its end, and has their pieces taken. After a fault nothing more is
/// read.
pub(crate) fn read_inputs<R: Source, W, T: TakesPieces<W>>(
    alloc: Global,
    inputs: &mut [PieceReader<R>],
    taker: &mut T,
    writer: &mut W,
) -> Result<(), Stopped>
    requires sound { All (λ reader. R.failed (source_of reader) ≡ false) inputs.old }
    requires fresh { All (λ reader. IsFresh reader) inputs.old }
    ensures taken { OnOk result (TakesInputs R.remaining R.failed T.takes T.refuses inputs.old inputs.new
        (taker.old, writer.old) (taker.new, writer.new)) }
    ensures stopped { IfErr result (λ stopped. StopsInputs R.remaining R.failed T.takes T.refuses inputs.old inputs.new
        (taker.old, writer.old) (taker.new, writer.new) stopped) }
{
    for input in 0..inputs.len() {
        if let Err(stop) = read_input(alloc, input, &mut inputs[input], taker, writer) {
            return Err(Stopped { input, stop });
        }
    }
    Ok(())
}
