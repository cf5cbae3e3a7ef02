//! Laws over the bytes of parcels.
ghost use Rattle.std.specs.Prelude.{◌≡◌, ℕ, ◌+◌, ◌^◌, ◌<◌, ◌≤◌, ◌⊎◌, List, length};
ghost use Rattle.trace_model.specs.FirstFault.{AreBytes};
ghost use Rattle.trace_model.specs.Parcel.{Parcel};
ghost use Rattle.trace_model.specs.ParcelBytes.{IsParcel, bytes_of_parcel, DecodesParcel, ParcelCause};
ghost use Rattle.trace_model.specs.ParcelBytes.{FirstParcelFault};
ghost use Rattle.trace_model.specs.Words.{Decodes};
ghost use Rattle.trace_model.specs.declared.limits.TheConstants.{MAX_IMAGE};

/// Bytes read as one parcel or have one first fault, and never both.
pub fn parcel_reading_or_fault()
    ensures one { (bytes : List ℕ) → AreBytes bytes
        → ((parcel : Parcel) × DecodesParcel bytes parcel) ⊎ ((fault : ParcelCause) × FirstParcelFault bytes fault) }
    ensures reading_is_no_fault { (bytes : List ℕ) (parcel : Parcel) (fault : ParcelCause)
        → DecodesParcel bytes parcel → ¬ FirstParcelFault bytes fault }
    ensures one_reading { (bytes : List ℕ) (parcel other : Parcel)
        → DecodesParcel bytes parcel → DecodesParcel bytes other → parcel ≡ other }
    ensures one_fault { (bytes : List ℕ) (fault other : ParcelCause)
        → FirstParcelFault bytes fault → FirstParcelFault bytes other → fault ≡ other }
{}

/// The bytes that are written for a parcel have the length of its page's image and 32 more, and read as that parcel.
pub fn parcel_reads_back()
    ensures length_is { (parcel : Parcel) (time : ℕ) (contents : List ℕ) (size : ℕ) → length contents ≤ size
        → length (bytes_of_parcel parcel time contents size) ≡ 48 + size }
    ensures read_back { (parcel : Parcel) (time : ℕ) (contents : List ℕ) (size : ℕ)
        → IsParcel parcel → parcel.fill < 2 ^ 64 → time < 2 ^ 64
        → length contents ≤ size → 16 + size ≤ MAX_IMAGE → Decodes contents time parcel.records
        → DecodesParcel (bytes_of_parcel parcel time contents size) parcel }
{}
