//! That no record vanishes.
ghost use Rattle.std.specs.Prelude.{◌⊎◌, ℕ, List};
ghost use Rattle.trace_model.specs.Parcel.{Parcel, IsPairOf};
ghost use Rattle.trace_model.specs.Record.{Record};
ghost use Rattle.parcel_streams.specs.Pieces.{Packed};
ghost use Rattle.stream_collector.specs.Stream.{Stream, HasRecord};
ghost use Rattle.fleet_collector.specs.Fleet.{stream_at};
ghost use Rattle.fleet_collector.specs.Told.{IsFleetOf, TellParcel};
ghost use Rattle.fleet_text.specs.Hidden.{TellHidden};

/// A record that is in a parcel of some pieces is one of their fleet, or its number is hidden.
pub fn a_record_is_listed_or_hidden()
    ensures { (pieces : List Packed) (fleet : List (ℕ × Stream)) (stream cpu number : ℕ) (parcel : Parcel) (r : Record)
        → IsFleetOf pieces fleet → TellParcel pieces stream parcel → IsPairOf parcel cpu number r
        → HasRecord (stream_at fleet stream) cpu number r ⊎ TellHidden pieces stream cpu number }
{}
