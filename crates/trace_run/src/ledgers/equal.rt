//! Whether two parcels are equal.
ghost use Rattle.std.specs.Prelude.{◌≡◌, ◌↔◌, IsTrue};
ghost use Rattle.page_numbers.specs.Parcels.{as_parcel};

use collector::first_difference;
use page_numbers::Parcel;

/// Whether both parcels have the same records, in the same order. If their pages are alike, as a shared page is to
/// itself, no record is looked at.
fn have_same_records(parcel: &Parcel, other: &Parcel) -> bool
    requires { parcel.now.page.first ≡ other.now.page.first }
    ensures { IsTrue result ↔ ((as_parcel parcel.now).records ≡ (as_parcel other.now).records) }
{
    let first = parcel.first().0;
    parcel.count() == other.count()
        && first_difference(parcel, other, first, first + parcel.count()).is_none()
}

/// Whether the parcels are equal: in their CPU, their fill, their first number, how many numbers are missing before
/// it, and their records.
pub(crate) fn are_equal(parcel: &Parcel, other: &Parcel) -> bool
    ensures { IsTrue result ↔ (as_parcel parcel.now ≡ as_parcel other.now) }
{
    parcel.cpu() == other.cpu()
        && parcel.fill() == other.fill()
        && parcel.first() == other.first()
        && parcel.missed() == other.missed()
        && have_same_records(parcel, other)
}
