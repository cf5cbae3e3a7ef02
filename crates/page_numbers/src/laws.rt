//! The numbers of a parcel's bytes, each by its value.
ghost use Rattle.std.specs.Prelude.{◌≡◌};
ghost use Rattle.page_numbers.specs.declared.numbers.TheConstants.{MIN_PARCEL, NUMBERS};

/// Each number of a parcel's bytes has the value that is stated here; contracts name it, so that one that is changed is
/// refused here.
pub fn constants_are()
    ensures numbers { NUMBERS ≡ 32 }
    ensures min_parcel { MIN_PARCEL ≡ 48 }
{}
