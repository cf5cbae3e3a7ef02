//! Laws over what is known of numbers: what stays as it is when parcels come, and what may be forgotten.
ghost use Rattle.std.specs.Prelude.{◌++◌, ℕ, ◌<◌, ◌≤◌, List};
ghost use Rattle.trace_model.specs.Record.{Record};
ghost use Rattle.trace_model.specs.Parcel.{Parcel};
ghost use Rattle.trace_model.specs.Collection.{Has, Misses, Agree};
ghost use Rattle.collector.specs.Known.{IsKnown, IsFinal, AllEndBelow, without_ended, IsSameFrom};

/// What is known of a number stays as it is, whatever parcels that agree come later.
pub fn what_is_known_stays()
    ensures known { (parcels later : List Parcel) (cpu number : ℕ) →
        IsKnown parcels cpu number → IsKnown (parcels ++ later) cpu number }
    ensures records { (parcels later : List Parcel) (cpu number : ℕ) (r : Record) → Agree (parcels ++ later) →
        IsKnown parcels cpu number → Has (parcels ++ later) cpu number r → Has parcels cpu number r }
    ensures missing { (parcels later : List Parcel) (cpu number : ℕ) → Agree (parcels ++ later) →
        IsKnown parcels cpu number → Misses (parcels ++ later) cpu number → Misses parcels cpu number }
{}

/// A bound below which all of a CPU is known stays one when parcels come, one of either of two collections is one of
/// their join, and below it nothing changes any more.
pub fn final_bounds_stay()
    ensures stays { (parcels later : List Parcel) (cpu bound : ℕ) →
        IsFinal parcels cpu bound → IsFinal (parcels ++ later) cpu bound }
    ensures joined { (parcels others : List Parcel) (cpu bound : ℕ) →
        IsFinal others cpu bound → IsFinal (parcels ++ others) cpu bound }
    ensures records_below { (parcels later : List Parcel) (cpu bound number : ℕ) (r : Record) →
        Agree (parcels ++ later) → IsFinal parcels cpu bound → number < bound →
        Has (parcels ++ later) cpu number r → Has parcels cpu number r }
    ensures missing_below { (parcels later : List Parcel) (cpu bound number : ℕ) →
        Agree (parcels ++ later) → IsFinal parcels cpu bound → number < bound →
        Misses (parcels ++ later) cpu number → Misses parcels cpu number }
{}

/// Parcels that have and miss nothing from a bound for each CPU on may be dropped: from the bounds on, all is as it
/// was, also after later parcels.
pub fn what_ends_below_may_be_dropped()
    ensures dropped { (kept ended later : List Parcel) (bounds : ℕ → ℕ) → AllEndBelow bounds ended →
        IsSameFrom bounds ((kept ++ ended) ++ later) (kept ++ later) }
    ensures filtered { (parcels : List Parcel) (bounds : ℕ → ℕ) →
        IsSameFrom bounds parcels (without_ended bounds parcels) }
{}

/// Two collections that each forgot what is below bounds are joined by what they kept: from the bounds on, the join is
/// that of all that both ever had. Where the bounds differ, the higher ones serve for both.
pub fn what_forgot_is_joined()
    ensures joined { (parcels kept others kept_others : List Parcel) (bounds : ℕ → ℕ) →
        IsSameFrom bounds parcels kept → IsSameFrom bounds others kept_others →
        IsSameFrom bounds (parcels ++ others) (kept ++ kept_others) }
    ensures raised { (parcels kept : List Parcel) (low high : ℕ → ℕ) → ((cpu : ℕ) → low cpu ≤ high cpu) →
        IsSameFrom low parcels kept → IsSameFrom high parcels kept }
{}
