//! A parcel is found by its fill.
ghost use Rattle.std.specs.Prelude.{◌≡◌, ◌≢◌, None, IfSome, All, Contains};
ghost use Rattle.page_numbers.specs.Parcels.{as_parcel, as_parcels};
ghost use Rattle.collector.specs.deliveries.Deliveries.{AreRising};

use page_numbers::Parcel;
use trace_model::FillNo;

/// The parcel of this fill, of those whose fills rise.
pub fn find(parcels: &[Parcel], fill: FillNo) -> Option<&Parcel>
    requires { AreRising (as_parcels parcels.now) }
    ensures found { IfSome result (λ parcel. Contains (as_parcels parcels.now) (as_parcel parcel.now)
        × (parcel.now.page.fill ≡ fill.0)) }
    ensures not_found { result ≡ None → All (λ parcel. parcel.fill ≢ fill.0) (as_parcels parcels.now) }
{
    match parcels.binary_search_by_key(&fill.0, |parcel| parcel.fill().0) {
        Ok(at) => Some(&parcels[at]),
        Err(_) => None,
    }
}
