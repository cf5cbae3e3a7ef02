//! What merged lines are.
ghost use Rattle.std.specs.Prelude.{◌≡◌, ◌<◌, ℕ, All, List, Some, length};
ghost use Rattle.std.specs.List.{slice_get};
ghost use Rattle.std.specs.List.Sorted.{IsSortedBy};
ghost use Rattle.trace_model.specs.Record.{Record};
ghost use Rattle.trace_model.specs.Parcel.{Parcel};
ghost use Rattle.trace_model.specs.Collection.{Has};
ghost use Rattle.trace_model.specs.Listing.{IsListing};
ghost use Rattle.collector.specs.Listed.{AreRecordsOf};
ghost use Rattle.time_merge.specs.EachCpu.{lines_of_each};
ghost use Rattle.time_merge.specs.LineOrder.{comes_before};
ghost use Rattle.time_merge.specs.Merging.{merged_lists};

/// The lines of each CPU's records, merged, are the listing, if moments of no CPU fall.
pub fn merged_lines_are_a_listing()
    ensures { (parcels : List Parcel) (records : List (List (ℕ × Record)))
        → ((cpu : ℕ) (list : List (ℕ × Record)) → slice_get records cpu ≡ Some list → AreRecordsOf parcels cpu list)
        → ((cpu number : ℕ) (r : Record) → Has parcels cpu number r → cpu < length records)
        → All (IsSortedBy comes_before) (lines_of_each 0 records)
        → IsListing parcels (merged_lists (lines_of_each 0 records)) }
{}
