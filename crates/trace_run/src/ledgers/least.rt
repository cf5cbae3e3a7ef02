//! The least of the parcels at fault, by CPU and then by fill.
ghost use Rattle.std.specs.Prelude.{◌≡◌, ◌⊎◌};
ghost use Rattle.page_numbers.specs.Parcels.{as_parcel};
ghost use Rattle.trace_run.specs.ledgers.Least.{key_of, IsKeyUpTo, IsLeastKey};

use page_numbers::Parcel;
use trace_model::{CpuId, FillNo};

/// A parcel's CPU and fill.
#[derive(Clone, Copy, Debug)]
pub(crate) struct ParcelKey {
    pub(crate) cpu: CpuId,
    pub(crate) fill: FillNo,
}

/// The key of a parcel.
fn own_key(parcel: &Parcel) -> ParcelKey
    ensures { result ≡ key_of (as_parcel parcel.now) }
{
    ParcelKey {
        cpu: parcel.cpu(),
        fill: parcel.fill(),
    }
}

/// The lesser of two keys.
fn lesser(key: ParcelKey, other: ParcelKey) -> ParcelKey
    ensures one_of { (result ≡ key) ⊎ (result ≡ other) }
    ensures up_to { IsKeyUpTo result key }
    ensures up_to_other { IsKeyUpTo result other }
{
    if key.cpu.0 < other.cpu.0 {
        return key;
    }
    if other.cpu.0 < key.cpu.0 {
        return other;
    }
    if key.fill.0 <= other.fill.0 {
        return key;
    }
    other
}

/// The least of a key, if there is one, and the key of a parcel.
pub(crate) fn least(found: Option<ParcelKey>, parcel: &Parcel) -> ParcelKey
    ensures { IsLeastKey found (as_parcel parcel.now) result }
{
    let own = own_key(parcel);
    match found {
        None => own,
        Some(other) => lesser(own, other),
    }
}
