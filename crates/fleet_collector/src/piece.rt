//! Adding a piece, whatever its kind.
use crate::change::Change;
use crate::fleet::Fleet;
use crate::refusal::PieceRefusal;
use parcel_streams::Piece;
use stream_collector::{Added, Marked};

impl Fleet {
    ghost use Rattle.std.specs.Prelude.{◌≡◌, List, [], ◌∷◌, ◌++◌, IfOk, IfErr, OnOk, OnErr};
    ghost use Rattle.parcel_streams.specs.Pieces.{Packed};
    ghost use Rattle.parcel_streams.specs.Answers.{piece_seen};
    ghost use Rattle.fleet_collector.specs.Pieces.{HasKnownCpu, AddsPiece, IsRefusal};
    ghost use Rattle.fleet_collector.specs.Told.{IsFleetOf};

    /// Adds to its stream what a piece says: a fleet of some pieces is afterwards the fleet of these and of this one.
    /// On a fault nothing has changed. What `parcel_streams` reads is of CPUs that there are.
    pub fn add_piece(&mut self, piece: Piece) -> Result<Added, PieceRefusal>
        requires { HasKnownCpu piece }
        ensures added { IfOk result (λ added. AddsPiece self.old self.new piece added) }
        ensures told { OnOk result ((pieces : List Packed)
            → IsFleetOf pieces self.old → IsFleetOf (pieces ++ piece_seen piece ∷ []) self.new) }
        ensures fault { IfErr result (λ fault. IsRefusal self.old piece fault) }
        ensures refused { OnErr result (self.new ≡ self.old) }
    {
        match piece {
            Piece::Parcel(stream, parcel) => Ok(self.add(stream, parcel)?),
            Piece::Mark(stream, cpu, mark) => match self.change(stream, cpu, Change::from(mark))? {
                Marked::New => Ok(Added::New),
                Marked::Known => Ok(Added::Known),
            },
        }
    }
}
