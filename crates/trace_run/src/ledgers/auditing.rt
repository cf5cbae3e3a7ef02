//! The audit.
ghost use Rattle.std.specs.Prelude.{◌≡◌, ℕ, ◌↔◌, [], ◌∷◌, ◌++◌, IsOk, OnOk, List, Contains};
ghost use Rattle.trace_model.specs.Parcel.{Parcel as ParcelSeen};
ghost use Rattle.trace_model.specs.Collection.{Agree, IsSame, IsBelow};
ghost use Rattle.trace_model.specs.Ring.{Core};
ghost use Rattle.trace_model.specs.declared.numbers.CpuId.{CpuId as CpuSeen};
ghost use Rattle.trace_model.specs.declared.numbers.FillNo.{FillNo as FillSeen};
ghost use Rattle.page_numbers.specs.Parcels.{as_parcels};
ghost use Rattle.trace_run.specs.ledgers.Audit.{taken_in, WereTaken, IsAudited, IsStray, IsLacking, IsLeast};
ghost use Rattle.trace_run.specs.ledgers.Least.{IsLeastFault};
ghost use Rattle.trace_run.specs.ledgers.Headline.{AreOfRings, IsAuditHeadline};
ghost use Rattle.trace_run.specs.declared.ledgers.fault.AuditFault.TheVariants.{Stray, Lacks};

use crate::ledgers::fault::{AuditFault, Audited};
use crate::ledgers::least::{ParcelKey, least};
use crate::ledgers::ledger::Ledger;
use crate::ledgers::order::order_of;
use crate::ledgers::search::is_taken;
use collector::Collector;
use page_numbers::Parcel;

/// The least kept parcel that equals none of those that were taken.
fn least_stray(kept: &[Parcel], ledgers: &[Ledger]) -> Option<ParcelKey>
    ensures { IsLeastFault (as_parcels kept.now) (Contains (taken_in ledgers.now)) result }
{
    let order = order_of(ledgers);
    let mut found = None;
    for parcel in kept {
        if !is_taken(parcel, ledgers, order) {
            found = Some(least(found, parcel));
        }
    }
    found
}

/// The least of a key, if there is one, and the keys of these parcels that the collector doesn't hold whole.
fn least_lacking_of(
    collector: &Collector,
    found: Option<ParcelKey>,
    taken: &[Parcel],
) -> Option<ParcelKey>
    ensures { (these : List ParcelSeen) → IsLeastFault these (λ parcel. IsBelow (parcel ∷ []) collector.now) found
        → IsLeastFault (these ++ as_parcels taken.now) (λ parcel. IsBelow (parcel ∷ []) collector.now) result }
{
    let mut found = found;
    for parcel in taken {
        if !collector.holds(parcel) {
            found = Some(least(found, parcel));
        }
    }
    found
}

/// The least parcel that was taken and that the collector doesn't hold whole.
fn least_lacking(collector: &Collector, ledgers: &[Ledger]) -> Option<ParcelKey>
    ensures { IsLeastFault (taken_in ledgers.now) (λ parcel. IsBelow (parcel ∷ []) collector.now) result }
{
    let mut found = None;
    for ledger in ledgers {
        found = least_lacking_of(collector, found, &ledger.taken);
    }
    found
}

/// Whether the collector is the one of the run that left these ledgers: whether each parcel that it keeps equals one
/// that was taken, in CPU, fill, first number, missed count and records, and whether it has all records and misses all
/// numbers of each parcel that was taken. No memory is asked for. It takes time in proportion to the pages' data, and
/// to n log n for n parcels; longer if a ledger has parcels of another CPU, or their fills don't rise, or their numbers
/// overlap, which no run leaves.
pub fn audit(collector: &Collector, ledgers: &[Ledger]) -> Result<Audited, AuditFault>
    ensures audited { IsOk result ↔ IsAudited collector.now (taken_in ledgers.now) }
    ensures stray { (cpu : CpuSeen) (fill : FillSeen) → (result ≡ Err (Stray cpu fill))
        ↔ IsLeast (IsStray collector.now (taken_in ledgers.now)) cpu.0 fill.0 }
    ensures lacks { (cpu : CpuSeen) (fill : FillSeen) → (result ≡ Err (Lacks cpu fill))
        ↔ (WereTaken collector.now (taken_in ledgers.now)
        × IsLeast (IsLacking collector.now (taken_in ledgers.now)) cpu.0 fill.0) }
    ensures sum { OnOk result (IsSame collector.now (taken_in ledgers.now)) }
    ensures agree { OnOk result (Agree (taken_in ledgers.now)) }
    ensures headline { OnOk result ((n size start : ℕ) (cores : ℕ → Core)
        → AreOfRings n size start cores ledgers.now
        → IsAuditHeadline n size start cores collector.now ledgers.now) }
{
    if let Some(key) = least_stray(collector.parcels(), ledgers) {
        return Err(AuditFault::Stray(key.cpu, key.fill));
    }
    if let Some(key) = least_lacking(collector, ledgers) {
        return Err(AuditFault::Lacks(key.cpu, key.fill));
    }
    Ok(Audited)
}
