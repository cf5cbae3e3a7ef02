//! A fleet of all pieces that the regions state, and the pieces that are kept.
ghost use Rattle.std.specs.Prelude.{◌≡◌, ◌<◌, All, IfOk, IfErr, OnOk};
ghost use Rattle.trace_model.specs.declared.limits.TheConstants.{MAX_CPUS};
ghost use Rattle.parcel_streams.specs.Pieces.{IsPiece, bytes_of_piece};
ghost use Rattle.parcel_streams.specs.Answers.{piece_seen};
ghost use Rattle.fleet_collector.specs.Pieces.{IsRefusal};
ghost use Rattle.collect_command.specs.streams.Reading.{IsOrigin};
ghost use Rattle.collect_command.specs.recovery.Telling.{MayBeTold};
ghost use Rattle.collect_command.specs.recovery.Gathering.{gathering_of, AddsOne, AddsAll, StopsAmong, AddsRegion};
ghost use Rattle.collect_command.specs.recovery.Gathering.{StopsInRegion, AddsRegions, StopsInRegions};

use command_io::Sink;
use fleet_collector::{Fleet, PieceRefusal};
use parcel_streams::{Mark, Piece, StreamId, pack_mark, pack_parcel};
use ring_region::Region;
use std::alloc::Global;
use stream_collector::Added;
use text_values::Out;
use trace_model::{CpuId, NoMemory};

/// Why not all pieces are added.
#[derive(Clone, Copy, Debug, PartialEq, Eq)]
pub(crate) enum Stop {
    /// The next piece is refused, which is of this CPU of a stream. `index` pieces and `at` bytes of the stream of
    /// its region's pieces are before it.
    Refused {
        index: u64,
        at: u64,
        stream: StreamId,
        cpu: CpuId,
        refusal: PieceRefusal,
    },
    /// Memory was refused.
    NoMemory,
}

/// The index of the region of which not all pieces are added, and why.
#[derive(Clone, Copy, Debug, PartialEq, Eq)]
pub(crate) struct StoppedAt {
    pub(crate) input: usize,
    pub(crate) stop: Stop,
}

/// The CPU of a stream of which a piece is.
fn origin_of(piece: &Piece) -> (StreamId, CpuId)
    ensures { IsOrigin piece.now result.0 result.1 }
{
    match piece {
        Piece::Parcel(stream, parcel) => (*stream, parcel.cpu()),
        Piece::Mark(stream, cpu, _) => (*stream, *cpu),
    }
}

/// The bytes of a piece, and the piece once more.
fn pack(alloc: Global, piece: &Piece) -> Result<(Vec<u8>, Piece), NoMemory>
    requires { MayBeTold piece.now }
    ensures bytes { IfOk result (λ packed. packed.0.items ≡ bytes_of_piece (piece_seen piece.now)) }
    ensures piece { IfOk result (λ packed. packed.1 ≡ piece.now) }
    ensures sound { OnOk result (IsPiece (piece_seen piece.now)) }
{
    match piece {
        Piece::Parcel(stream, parcel) => {
            let bytes = pack_parcel(alloc, *stream, parcel)?;
            Ok((bytes, Piece::Parcel(*stream, parcel.share()?)))
        }
        Piece::Mark(stream, cpu, Mark::End(count)) => {
            let mark = Mark::End(*count);
            let bytes = pack_mark(alloc, *stream, *cpu, mark)?;
            Ok((bytes, Piece::Mark(*stream, *cpu, mark)))
        }
        Piece::Mark(_, _, _) => unreachable!(),
    }
}

/// Adds a piece to the fleet, and puts its bytes if it is kept.
fn add_piece<K: Sink>(
    piece: Piece,
    bytes: &[u8],
    fleet: &mut Fleet,
    out: &mut Out<'_, K>,
) -> Result<(), PieceRefusal>
    requires told { MayBeTold piece }
    requires bytes { bytes.now ≡ bytes_of_piece (piece_seen piece) }
    ensures added { OnOk result (AddsOne piece (gathering_of fleet.old out.old) (gathering_of fleet.new out.new)) }
    ensures refused { IfErr result (λ refusal. IsRefusal fleet.new piece refusal) }
    ensures unchanged { IfErr result (λ _. gathering_of fleet.new out.new ≡ gathering_of fleet.old out.old) }
{
    match fleet.add_piece(piece) {
        Ok(Added::New | Added::Forgotten) => {
            out.put(bytes);
            Ok(())
        }
        Ok(Added::Known) => Ok(()),
        Err(refusal) => Err(refusal),
    }
}

/// Adds the pieces of a region to the fleet, one after the other.
fn add_pieces<K: Sink>(
    alloc: Global,
    pieces: &[Piece],
    fleet: &mut Fleet,
    out: &mut Out<'_, K>,
) -> Result<(), Stop>
    requires { All (λ piece. MayBeTold piece) pieces.now }
    ensures added { OnOk result (AddsAll pieces.now
        (gathering_of fleet.old out.old) (gathering_of fleet.new out.new)) }
    ensures stopped { IfErr result (λ stop. StopsAmong pieces.now
        (gathering_of fleet.old out.old) (gathering_of fleet.new out.new) stop) }
{
    let mut index: u64 = 0;
    let mut at: u64 = 0;
    for piece in pieces {
        let Ok((bytes, own)) = pack(alloc, piece) else {
            return Err(Stop::NoMemory);
        };
        let (stream, cpu) = origin_of(piece);
        if let Err(refusal) = add_piece(own, &bytes, fleet, out) {
            return Err(Stop::Refused {
                index,
                at,
                stream,
                cpu,
                refusal,
            });
        }
        index = index.saturating_add(1);
        at = at.saturating_add(bytes.len() as u64);
    }
    Ok(())
}

/// Adds the pieces that a region states.
fn add_region<K: Sink>(
    alloc: Global,
    region: &Region,
    fleet: &mut Fleet,
    out: &mut Out<'_, K>,
) -> Result<(), Stop>
    requires { region.now.header.cpu.0 < MAX_CPUS }
    ensures added { OnOk result (AddsRegion region.now
        (gathering_of fleet.old out.old) (gathering_of fleet.new out.new)) }
    ensures stopped { IfErr result (λ stop. StopsInRegion region.now
        (gathering_of fleet.old out.old) (gathering_of fleet.new out.new) stop) }
{
    match region.pieces(alloc) {
        Ok(pieces) => add_pieces(alloc, &pieces, fleet, out),
        Err(NoMemory) => Err(Stop::NoMemory),
    }
}

/// Adds the pieces that the regions state, those of one after those of the other.
pub(crate) fn add_regions<K: Sink>(
    alloc: Global,
    regions: &[Region],
    fleet: &mut Fleet,
    out: &mut Out<'_, K>,
) -> Result<(), StoppedAt>
    requires { All (λ region. region.header.cpu.0 < MAX_CPUS) regions.now }
    ensures added { OnOk result (AddsRegions regions.now
        (gathering_of fleet.old out.old) (gathering_of fleet.new out.new)) }
    ensures stopped { IfErr result (λ stopped. StopsInRegions regions.now
        (gathering_of fleet.old out.old) (gathering_of fleet.new out.new) stopped) }
{
    let mut input = 0;
    for region in regions {
        if let Err(stop) = add_region(alloc, region, fleet, out) {
            return Err(StoppedAt { input, stop });
        }
        input += 1;
    }
    Ok(())
}
