//! Pieces that are added from their bytes.
ghost use Rattle.std.specs.Prelude.{◌≡◌};
ghost use Rattle.library_values.specs.FleetAdding.{place_of};

use crate::listed_fleet::listed::ListedFleet;
use fleet_collector::PieceRefusal;
use parcel_streams::{Piece, PieceFault, StreamId, read_piece};
use std::alloc::Global;
use stream_collector::Added;
use trace_model::CpuId;

/// A piece that its stream refuses.
#[derive(Clone, Copy, Debug, PartialEq, Eq)]
pub struct RefusedPiece {
    /// The stream and the CPU that it is of.
    pub stream: StreamId,
    pub cpu: CpuId,
    /// Why it isn't added.
    pub refusal: PieceRefusal,
}

/// What became of bytes, of which the piece at the front was to be added.
#[derive(Clone, Copy, Debug, PartialEq, Eq)]
pub enum AddAnswer {
    /// It is added, or was known or forgotten; how many bytes it has.
    Added(Added, usize),
    /// Its stream refuses it; how many bytes it has. Nothing has changed.
    Refused(RefusedPiece, usize),
    /// They have no piece at their front, or memory was refused for it. Nothing has changed.
    NoPiece(PieceFault),
}

/// The stream and the CPU of a piece.
fn place_of(piece: &Piece) -> (StreamId, CpuId)
    ensures { (result.0.0, result.1.0) ≡ place_of piece.now }
{
    match piece {
        Piece::Parcel(stream, parcel) => (*stream, parcel.cpu()),
        Piece::Mark(stream, cpu, _) => (*stream, *cpu),
    }
}

impl ListedFleet {
    ghost use Rattle.std.specs.Prelude.{◌≡◌};
    ghost use Rattle.library_values.specs.FleetAdding.{AddsSo};

    /// Reads the piece at the front of the bytes, and adds it to its stream. The listing stays.
    pub fn add(&mut self, alloc: Global, bytes: &[u8]) -> AddAnswer
        ensures adds { AddsSo self.old.fleet bytes.now result self.new.fleet }
        ensures listing { self.new ≡ record self.old { fleet = self.new.fleet } }
    {
        let (piece, len) = match read_piece(alloc, bytes) {
            Ok(read) => read,
            Err(fault) => return AddAnswer::NoPiece(fault),
        };
        let (stream, cpu) = place_of(&piece);
        match self.fleet.add_piece(piece) {
            Ok(added) => AddAnswer::Added(added, len),
            Err(refusal) => AddAnswer::Refused(
                RefusedPiece {
                    stream,
                    cpu,
                    refusal,
                },
                len,
            ),
        }
    }
}
