//! Laws over audited collectors.
ghost use Rattle.std.specs.Prelude.{ℕ, List};
ghost use Rattle.trace_model.specs.Parcel.{Parcel};
ghost use Rattle.trace_model.specs.Collection.{IsSame};
ghost use Rattle.trace_model.specs.Ring.{Core};
ghost use Rattle.trace_run.specs.declared.ledgers.ledger.Ledger.{Ledger};
ghost use Rattle.trace_run.specs.ledgers.Audit.{taken_in, IsAudited};
ghost use Rattle.trace_run.specs.ledgers.Headline.{AreOfRings, IsAuditHeadline};

/// A collector that was audited has and misses exactly what the parcels that were taken have and miss together; so all
/// that were audited against the same ledgers have and miss the same.
pub fn audited_collectors_are_same()
    ensures sum { (kept taken : List Parcel) → IsAudited kept taken → IsSame kept taken }
    ensures same { (kept others taken : List Parcel) → IsAudited kept taken → IsAudited others taken
        → IsSame kept others }
{}

/// A collector that was audited against the ledgers of rings is exact: it has of each CPU exactly the committed records
/// in the fills that were taken, under their own numbers, and misses exactly the numbers that were overwritten unread
/// before those fills; of a CPU without a ledger it has and misses nothing (`IsAuditHeadline`).
pub fn audited_collectors_are_exact()
    ensures { (n size start : ℕ) (cores : ℕ → Core) (ledgers : List Ledger) (kept : List Parcel)
        → AreOfRings n size start cores ledgers → IsAudited kept (taken_in ledgers)
        → IsAuditHeadline n size start cores kept ledgers }
{}
