//! Laws over what pieces state of a fleet.
ghost use Rattle.std.specs.Prelude.{◌↔◌, ◌⊎◌, ℕ, ◌<◌, ◌≤◌, List, [], ◌++◌, IsPermutation, Some};
ghost use Rattle.trace_model.specs.Collection.{Has, Agree};
ghost use Rattle.trace_model.specs.Parcel.{Parcel};
ghost use Rattle.trace_model.specs.Record.{Record};
ghost use Rattle.trace_model.specs.declared.numbers.Moment.{Moment};
ghost use Rattle.parcel_streams.specs.Pieces.{Packed, BeginsWith, IsStream};
ghost use Rattle.parcel_streams.specs.Answers.{piece_seen};
ghost use Rattle.parcel_streams.specs.declared.piece.Piece.{Piece};
ghost use Rattle.stream_collector.specs.Frontier.{IsCpuThere, IsCut, NeverFall};
ghost use Rattle.stream_collector.specs.Marking.{AreWithinEnds};
ghost use Rattle.stream_collector.specs.Same.{IsSameStream};
ghost use Rattle.stream_collector.specs.Stream.{Stream};
ghost use Rattle.fleet_collector.specs.Fleet.{stream_at};
ghost use Rattle.fleet_collector.specs.Frontier.{IsFleetFrontier, AllForgottenBefore};
ghost use Rattle.fleet_collector.specs.Lines.{IsAmong};
ghost use Rattle.fleet_collector.specs.Merging.{IsSameFleet};
ghost use Rattle.fleet_collector.specs.Pieces.{HasKnownCpu};
ghost use Rattle.fleet_collector.specs.Snapshot.{IsSnapshot};
ghost use Rattle.fleet_collector.specs.Told.{IsFleetOf, HaveSamePieces, IsListingOf};
ghost use Rattle.fleet_collector.specs.Listing.{Line, IsFleetListing, IsListingBefore};

/// The fleet of some pieces depends on which pieces there are alone: not on their order, nor on their repeats, nor on
/// how they are spread over files. Of no pieces it is the empty one.
pub fn a_fleet_depends_on_its_pieces_alone()
    ensures none { IsFleetOf [] [] }
    ensures same { (pieces others : List Packed) (fleet : List (ℕ × Stream)) → HaveSamePieces pieces others
        → IsFleetOf pieces fleet → IsFleetOf others fleet }
    ensures moved { (pieces others : List Packed) (fleet : List (ℕ × Stream)) → IsPermutation pieces others
        → IsFleetOf pieces fleet → IsFleetOf others fleet }
    ensures swapped { (pieces others : List Packed) (fleet : List (ℕ × Stream))
        → IsFleetOf (pieces ++ others) fleet → IsFleetOf (others ++ pieces) fleet }
    ensures repeated { (pieces : List Packed) (fleet : List (ℕ × Stream))
        → (IsFleetOf (pieces ++ pieces) fleet ↔ IsFleetOf pieces fleet) }
{}

/// Fleets of the same pieces know the same.
pub fn pieces_have_one_fleet()
    ensures { (pieces : List Packed) (fleet other : List (ℕ × Stream))
        → IsFleetOf pieces fleet → IsFleetOf pieces other → IsSameFleet fleet other }
{}

/// A piece that is read is of a CPU that there is, as `add_piece` requires.
pub fn what_is_read_may_be_added()
    ensures { (bytes : List ℕ) (piece : Piece) → BeginsWith bytes (piece_seen piece) → HasKnownCpu piece }
{}

/// The listing of the fleet of some pieces has a line for each record that the pieces state, and no other.
pub fn a_listing_is_what_the_pieces_tell()
    ensures { (pieces : List Packed) (fleet : List (ℕ × Stream)) (lines : List Line)
        → IsFleetOf pieces fleet → IsFleetListing fleet lines → IsListingOf pieces lines }
{}

/// A listing can go out while the fleet grows: what is listed before a moment and then forgotten, and what is listed
/// after that, are together the whole listing, each line once. At the frontier, if no CPU's moments fall, all that
/// comes later is at or after it (but for CPUs of which nothing is there yet), so that the first is followed by the
/// second.
pub fn a_listing_goes_out_as_it_grows()
    ensures before { (fleet : List (ℕ × Stream)) (moment : ℕ) (lines : List Line) (line : Line)
        → IsListingBefore fleet moment lines → IsAmong lines line → line.moment < moment }
    ensures later { (fleet : List (ℕ × Stream)) (frontier : Moment) (id cpu cut : ℕ) (later : List Parcel)
        → IsFleetFrontier fleet (Some frontier) → IsCpuThere (stream_at fleet id) cpu
        → IsCut (stream_at fleet id) cpu frontier.0 cut
        → Agree ((stream_at fleet id).parcels ++ later)
        → AreWithinEnds record (stream_at fleet id) { parcels = (stream_at fleet id).parcels ++ later }
        → NeverFall ((stream_at fleet id).parcels ++ later) cpu
        → (n : ℕ) (r : Record) → cut ≤ n → Has ((stream_at fleet id).parcels ++ later) cpu n r
        → frontier.0 ≤ r.moment }
    ensures parted { (old new : List (ℕ × Stream)) (moment : ℕ) (first rest : List Line)
        → IsListingBefore old moment first → AllForgottenBefore old new moment → IsFleetListing new rest
        → (lines : List Line) → IsFleetListing old lines → (line : Line)
        → (IsAmong lines line ↔ (IsAmong first line ⊎ IsAmong rest line)) }
    ensures once { (old new : List (ℕ × Stream)) (moment : ℕ) (first rest : List Line)
        → IsListingBefore old moment first → AllForgottenBefore old new moment → IsFleetListing new rest
        → (line : Line) → IsAmong first line → IsAmong rest line → ⊥ }
    ensures followed { (old new : List (ℕ × Stream)) (frontier : Moment) (first rest : List Line)
        → IsFleetFrontier old (Some frontier)
        → ((id : ℕ) → Agree (stream_at old id).parcels)
        → ((id : ℕ) → AreWithinEnds (stream_at old id))
        → ((id cpu : ℕ) → NeverFall (stream_at old id).parcels cpu)
        → IsListingBefore old frontier.0 first → AllForgottenBefore old new frontier.0 → IsFleetListing new rest
        → IsFleetListing old (first ++ rest) }
{}

/// A snapshot of a stream is that stream: a fleet of its pieces knows the same of it.
pub fn a_snapshot_is_its_stream()
    ensures { (id : ℕ) (stream : Stream) (bytes : List ℕ) (pieces : List Packed) (fleet : List (ℕ × Stream))
        → IsSnapshot id stream bytes → IsStream bytes pieces → IsFleetOf pieces fleet
        → IsSameStream stream (stream_at fleet id) }
{}
