//! A line for each piece of the inputs.
use crate::streams::read::TakesPieces;
use capture_text::Form;
use command_io::Sink;
use fleet_collector::PieceRefusal;
use fleet_text::{PiecePlace, put_piece};
use parcel_streams::Piece;
use text_values::Out;

/// What prints a line for each piece.
#[derive(Clone, Copy, Debug)]
pub(crate) struct PiecePrinter {
    pub(crate) form: Form,
}

impl<W: Sink> TakesPieces<Out<'_, W>> for PiecePrinter {
    ghost use Rattle.collect_command.specs.streams.Gathering.{PrintsPiece};

    ghost takes = { λ p placed q. PrintsPiece placed p.0.form p.1 q.0.form q.1 };

    // No piece is refused.
    ghost refuses = { λ p placed refusal q. ⊥ };

    fn take(
        &mut self,
        out: &mut Out<'_, W>,
        place: PiecePlace,
        piece: Piece,
        _bytes: &[u8],
    ) -> Result<(), PieceRefusal> {
        put_piece(out, self.form, place, &piece);
        Ok(())
    }
}
