//! What is printed of a run is decided by its collectors and by the parcels that were taken.
ghost use Rattle.std.specs.Prelude.{◌≡◌, List};
ghost use Rattle.std.specs.List.{AllZip};
ghost use Rattle.trace_model.specs.Parcel.{Parcel};
ghost use Rattle.run_command.specs.text.Verdicts.{Verdict, IsVerdict};
ghost use Rattle.run_command.specs.text.Printing.{AuditedShown, IsAuditedPrintOf, printed_run};

/// There is one verdict on a collector against the parcels that were taken, and so the collectors of a run have one
/// text.
pub fn texts_are_one()
    ensures verdict { (kept taken : List Parcel) (verdict other : Verdict) →
        IsVerdict kept taken verdict → IsVerdict kept taken other → verdict ≡ other }
    ensures run { (taken : List Parcel) (collectors : List (List Parcel)) (shown other : List AuditedShown) →
        AllZip (IsAuditedPrintOf taken) collectors shown → AllZip (IsAuditedPrintOf taken) collectors other →
        printed_run shown ≡ printed_run other }
{}
