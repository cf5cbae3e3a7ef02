//! The numbers of the records that pieces have.
use crate::run::FleetRun;
use page_numbers::Parcel;
use parcel_streams::{Piece, StreamId};
use std::alloc::Global;
use std::marker::Model;
use trace_model::{NoMemory, RecordNo};

/// The numbers of the records that pieces have, whatever marks say of them: a run for each parcel, in their order.
#[derive(Debug, Drop)]
pub struct Given {
    pub(crate) runs: Vec<FleetRun>,
}

impl Model for Given {
    ghost use Rattle.std.specs.Prelude.{List, map};
    ghost use Rattle.fleet_text.specs.Runs.{Run, run_seen};

    ghost Value = { List Run };

    ghost view = { λ given. map run_seen given.runs.items };
}

impl Given {
    ghost use Rattle.std.specs.Prelude.{◌≡◌, [], ◌++◌, OnOk, OnErr};
    ghost use Rattle.page_numbers.specs.Parcels.{as_parcel};
    ghost use Rattle.parcel_streams.specs.Answers.{piece_seen, piece_of_parcel};
    ghost use Rattle.fleet_text.specs.Hidden.{given_by};

    /// No piece was given.
    pub fn new(alloc: Global) -> Given
        ensures { result ≡ [] }
    {
        Given {
            runs: Vec::new(alloc),
        }
    }

    /// Adds the numbers of a parcel's records.
    fn add_parcel(&mut self, stream: StreamId, parcel: &Parcel) -> Result<(), NoMemory>
        ensures added { OnOk result (self.new ≡ self.old ++ given_by (piece_of_parcel stream.0 parcel.now)) }
        ensures refused { OnErr result (self.new ≡ self.old) }
    {
        let first = parcel.first();
        let count = parcel.count();
        if count > 0 {
            self.runs.push(FleetRun {
                stream,
                cpu: parcel.cpu(),
                first,
                last: RecordNo(first.0 + (count - 1)),
            })?;
        }
        Ok(())
    }

    /// Adds the numbers of a piece's records.
    pub fn add(&mut self, piece: &Piece) -> Result<(), NoMemory>
        ensures added { OnOk result (self.new ≡ self.old ++ given_by (piece_seen piece.now)) }
        ensures refused { OnErr result (self.new ≡ self.old) }
    {
        match piece {
            Piece::Parcel(stream, parcel) => self.add_parcel(*stream, parcel),
            Piece::Mark(_, _, _) => Ok(()),
        }
    }
}
