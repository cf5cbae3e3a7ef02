//! A fleet of all pieces of the inputs, and the pieces that are kept.
use crate::streams::read::TakesPieces;
use command_io::Sink;
use fleet_collector::laws::what_is_read_may_be_added;
use fleet_collector::{Fleet, PieceRefusal};
use fleet_text::{Given, PiecePlace};
use parcel_streams::Piece;
use std::alloc::Global;
use stream_collector::{AddFault, Added};
use text_values::Out;

/// What gathers pieces in a fleet. The bytes of each that is new, or ends below the bound of its CPU, are put.
#[derive(Drop)]
pub(crate) struct Gatherer {
    pub(crate) fleet: Fleet,
    pub(crate) given: Given,
}

impl Gatherer {
    ghost use Rattle.std.specs.Prelude.{◌≡◌, []};

    /// Nothing was gathered.
    pub(crate) fn new(alloc: Global) -> Gatherer
        ensures fleet { result.fleet ≡ [] }
        ensures given { result.given ≡ [] }
    {
        Gatherer {
            fleet: Fleet::new(alloc),
            given: Given::new(alloc),
        }
    }
}

impl<K: Sink> TakesPieces<Out<'_, K>> for Gatherer {
    ghost use Rattle.std.specs.Prelude.{◌≡◌, ◌++◌};
    ghost use Rattle.parcel_streams.specs.Answers.{piece_seen};
    ghost use Rattle.fleet_text.specs.Hidden.{given_by};
    ghost use Rattle.collect_command.specs.streams.Gathering.{Gathers, Refuses};

    ghost takes = { λ p placed q. Gathers placed.piece p.0.fleet p.1 q.0.fleet q.1
        × (q.0.given ≡ p.0.given ++ given_by (piece_seen placed.piece)) };

    ghost refuses = { λ p placed refusal q. Refuses placed.piece refusal p.0.fleet p.1 q.0.fleet q.1 };

    fn take(
        &mut self,
        out: &mut Out<'_, K>,
        _place: PiecePlace,
        piece: Piece,
        bytes: &[u8],
    ) -> Result<(), PieceRefusal> {
        // (A law, which does nothing: a piece that is read is of a CPU that there is.)
        what_is_read_may_be_added();
        if self.given.add(&piece).is_err() {
            let fault = collector::AddFault::NoMemory;
            return Err(PieceRefusal::Parcel(AddFault::Refused(fault)));
        }
        match self.fleet.add_piece(piece) {
            Ok(Added::New | Added::Forgotten) => {
                out.put(bytes);
                Ok(())
            }
            Ok(Added::Known) => Ok(()),
            Err(refusal) => Err(refusal),
        }
    }
}
