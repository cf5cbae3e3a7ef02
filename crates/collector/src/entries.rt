//! The records of one parcel from a number on, and where two parcels differ.
ghost use Rattle.std.specs.Prelude.{◌≡◌, ◌≢◌, ℕ, ◌-◌, ◌<◌, ◌≤◌, drop, IfSome, IfNone};
ghost use Rattle.std.specs.List.{enumerate_from};
ghost use Rattle.page_numbers.specs.Parcels.{as_parcel};
ghost use Rattle.collector.specs.Entries.{record_of};

use page_borrow::Records;
use page_numbers::Parcel;

/// The records of a parcel from the one of this number on, which isn't before its first.
pub(crate) fn records_from(parcel: &Parcel, number: u64) -> Records<'_>
    requires { parcel.now.page.first ≤ number }
    ensures { result
        ≡ enumerate_from number (drop (number - parcel.now.page.first) (as_parcel parcel.now).records) }
{
    let mut records = parcel.records();
    for _passed in parcel.first().0..number {
        let _record = records.next();
    }
    records
}

/// The first number from `from` on, and below `end`, under which two parcels don't have the same record. If their pages
/// are alike, as a shared page is to itself, no record is looked at.
pub fn first_difference(parcel: &Parcel, other: &Parcel, from: u64, end: u64) -> Option<u64>
    requires in_parcel { parcel.now.page.first ≤ from }
    requires in_other { other.now.page.first ≤ from }
    ensures within { IfSome result (λ n. (from ≤ n) × (n < end)) }
    ensures differ { IfSome result (λ n. record_of (as_parcel parcel.now) n ≢ record_of (as_parcel other.now) n) }
    ensures first { IfSome result (λ n. (m : ℕ) → from ≤ m → m < n
        → record_of (as_parcel parcel.now) m ≡ record_of (as_parcel other.now) m) }
    ensures none { IfNone result ((m : ℕ) → from ≤ m → m < end
        → record_of (as_parcel parcel.now) m ≡ record_of (as_parcel other.now) m) }
{
    if parcel.has_page_of(other) {
        return None;
    }
    let mut own = records_from(parcel, from);
    let mut others = records_from(other, from);
    for number in from..end {
        if own.next() != others.next() {
            return Some(number);
        }
    }
    None
}
