//! Why there is no piece.
use crate::PieceFault;

/// Why a source gives no piece.
#[derive(Clone, Copy, Debug, PartialEq, Eq)]
pub enum ReadPieceFault {
    /// A read of it failed.
    Read,
    /// What it has left doesn't begin with a piece, or memory was refused for the piece with which it begins.
    Piece(PieceFault),
}

impl From<PieceFault> for ReadPieceFault {
    ghost use Rattle.std.specs.Prelude.{◌≡◌};
    ghost use Rattle.parcel_streams.specs.declared.source.fault.ReadPieceFault.TheVariants.{Piece as PieceIs};

    ghost from_gives = { λ f e. e ≡ PieceIs f };

    fn from(fault: PieceFault) -> ReadPieceFault {
        ReadPieceFault::Piece(fault)
    }
}
