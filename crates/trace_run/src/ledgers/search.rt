//! Whether a parcel is among those that were taken.
ghost use Rattle.std.specs.Prelude.{◌≡◌, ◌↔◌, IsTrue, Contains};
ghost use Rattle.collector.specs.deliveries.Deliveries.{AreRising};
ghost use Rattle.page_numbers.specs.Parcels.{as_parcel, as_parcels};
ghost use Rattle.trace_run.specs.ledgers.Audit.{taken_in};
ghost use Rattle.trace_run.specs.ledgers.Order.{AreInOrder};
ghost use Rattle.trace_run.specs.declared.ledgers.order.LedgerOrder.TheVariants.{Rising};

use crate::ledgers::equal::are_equal;
use crate::ledgers::ledger::Ledger;
use crate::ledgers::order::LedgerOrder;
use collector::deliveries::find;
use page_numbers::Parcel;

/// Whether the parcel equals one of these, whose fills rise.
fn is_found(parcel: &Parcel, parcels: &[Parcel]) -> bool
    requires { AreRising (as_parcels parcels.now) }
    ensures { IsTrue result ↔ Contains (as_parcels parcels.now) (as_parcel parcel.now) }
{
    match find(parcels, parcel.fill()) {
        Some(found) => are_equal(parcel, found),
        None => false,
    }
}

/// Whether the parcel equals one that was taken, of ledgers that are in order.
fn is_found_by_cpu(parcel: &Parcel, ledgers: &[Ledger]) -> bool
    requires { AreInOrder ledgers.now }
    ensures { IsTrue result ↔ Contains (taken_in ledgers.now) (as_parcel parcel.now) }
{
    let cpu = parcel.cpu().0 as usize;
    if cpu >= ledgers.len() {
        return false;
    }
    is_found(parcel, &ledgers[cpu].taken)
}

/// Whether the parcel equals one of these.
fn is_among(parcel: &Parcel, parcels: &[Parcel]) -> bool
    ensures { IsTrue result ↔ Contains (as_parcels parcels.now) (as_parcel parcel.now) }
{
    for other in parcels {
        if are_equal(parcel, other) {
            return true;
        }
    }
    false
}

/// Whether the parcel equals one that was taken, whatever the order of the ledgers.
fn is_among_all(parcel: &Parcel, ledgers: &[Ledger]) -> bool
    ensures { IsTrue result ↔ Contains (taken_in ledgers.now) (as_parcel parcel.now) }
{
    for ledger in ledgers {
        if is_among(parcel, &ledger.taken) {
            return true;
        }
    }
    false
}

/// Whether the parcel equals one that was taken.
pub(crate) fn is_taken(parcel: &Parcel, ledgers: &[Ledger], order: LedgerOrder) -> bool
    requires { order ≡ Rising → AreInOrder ledgers.now }
    ensures { IsTrue result ↔ Contains (taken_in ledgers.now) (as_parcel parcel.now) }
{
    match order {
        LedgerOrder::Rising => is_found_by_cpu(parcel, ledgers),
        LedgerOrder::Unknown => is_among_all(parcel, ledgers),
    }
}
