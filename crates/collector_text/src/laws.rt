//! What is printed of collectors is decided by what they have and miss, and stays where it is.
ghost use Rattle.std.specs.Prelude.{◌≡◌, ℕ, ◌++◌, Bool, List};
ghost use Rattle.std.specs.List.{AllZip};
ghost use Rattle.trace_model.specs.Parcel.{Parcel};
ghost use Rattle.trace_model.specs.Collection.{IsSame};
ghost use Rattle.text_model.specs.Log.{LogLine};
ghost use Rattle.world_model.specs.Printing.{Shown, printed_collector, printed_world};
ghost use Rattle.collector_text.specs.Prints.{IsPrintOf, StandsBetween};

/// What a collector has and misses decides its text: collectors that are the same have one text, and what is printed of
/// a world is one text too.
pub fn texts_are_one()
    ensures alike { (parcels others : List Parcel) (shown : Shown) →
        IsSame parcels others → IsPrintOf parcels shown → IsPrintOf others shown }
    ensures one { (parcels : List Parcel) (shown other : Shown) (number : ℕ) →
        IsPrintOf parcels shown → IsPrintOf parcels other →
        printed_collector number shown ≡ printed_collector number other }
    ensures world { (collectors : List (List Parcel)) (shown other : List Shown) (asked : Bool) (log : List LogLine) →
        AllZip IsPrintOf collectors shown → AllZip IsPrintOf collectors other →
        printed_world asked log shown ≡ printed_world asked log other }
{}

/// What is printed of a collector stays where it is when more text is appended.
pub fn texts_stay()
    ensures { (parcels : List Parcel) (text more : List ℕ) (start end : ℕ) →
        StandsBetween parcels text start end → StandsBetween parcels (text ++ more) start end }
{}
