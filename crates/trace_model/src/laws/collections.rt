//! Laws over what several parcels have and miss together, and its listing.
ghost use Rattle.std.specs.Prelude.{◌≡◌, ◌++◌, ℕ, ◌+◌, ◌↔◌, List, [], ◌∷◌, Some, slice_get};
ghost use Rattle.std.specs.List.{Contains};
ghost use Rattle.trace_model.specs.Parcel.{Parcel};
ghost use Rattle.trace_model.specs.Collection.{Agree, IsBelow, IsSame, IsLeastUpperBound};
ghost use Rattle.trace_model.specs.Listing.{Line, IsListing};

/// Two lists of parcels have a least collection above both if and only if all of them agree, and then it is what they
/// have and miss together. So a merge of two collectors is their join.
pub fn joined_is_least()
    ensures least { (parcels others : List Parcel) →
        Agree (parcels ++ others) → IsLeastUpperBound parcels others (parcels ++ others) }
    ensures only { (parcels others join : List Parcel) →
        IsLeastUpperBound parcels others join → Agree (parcels ++ others) }
{}

/// Collections are ordered by what they have and miss, up to having and missing the same, which is an equivalence.
pub fn collections_are_ordered()
    ensures below_itself { (parcels : List Parcel) → IsBelow parcels parcels }
    ensures below_below { (parcels others above : List Parcel) →
        IsBelow parcels others → IsBelow others above → IsBelow parcels above }
    ensures below_both { (parcels others : List Parcel) →
        IsBelow parcels others → IsBelow others parcels → IsSame parcels others }
    ensures same_itself { (parcels : List Parcel) → IsSame parcels parcels }
    ensures same_back { (parcels others : List Parcel) → IsSame parcels others → IsSame others parcels }
    ensures same_same { (parcels others more : List Parcel) →
        IsSame parcels others → IsSame others more → IsSame parcels more }
{}

/// The order and the repeats of parcels change nothing: the same parcels are the same collection, one that comes once
/// more leaves it the same, and joining commutes, regroups, and forgets what is joined twice. Parcels are below more
/// parcels, and what is below parcels that agree agrees too.
pub fn order_and_repeats_change_nothing()
    ensures below_more { (parcels others : List Parcel) →
        ((p : Parcel) → Contains parcels p → Contains others p) → IsBelow parcels others }
    ensures same_parcels { (parcels others : List Parcel) →
        ((p : Parcel) → (Contains parcels p ↔ Contains others p)) → IsSame parcels others }
    ensures repeated { (parcels : List Parcel) (p : Parcel) →
        Contains parcels p → IsSame (parcels ++ p ∷ []) parcels }
    ensures commutes { (parcels others : List Parcel) → IsSame (parcels ++ others) (others ++ parcels) }
    ensures regroups { (parcels others more : List Parcel) →
        IsSame ((parcels ++ others) ++ more) (parcels ++ (others ++ more)) }
    ensures twice { (parcels : List Parcel) → IsSame (parcels ++ parcels) parcels }
    ensures same_joined { (parcels others like_parcels like_others : List Parcel) →
        IsSame parcels like_parcels → IsSame others like_others →
        IsSame (parcels ++ others) (like_parcels ++ like_others) }
    ensures below_agrees { (parcels others : List Parcel) →
        IsBelow parcels others → Agree others → Agree parcels }
{}

/// What parcels have decides their listing, in which each record is once; parcels that agree have a listing, and in it
/// a CPU and a number have one line at most.
pub fn listings_are_one()
    ensures one { (parcels others : List Parcel) (lines other_lines : List Line) →
        IsSame parcels others → IsListing parcels lines → IsListing others other_lines → lines ≡ other_lines }
    ensures once { (parcels : List Parcel) (lines : List Line) (j k : ℕ) (line : Line) →
        IsListing parcels lines → slice_get lines j ≡ Some line → slice_get lines k ≡ Some line → j ≡ k }
    ensures some { (parcels : List Parcel) → Agree parcels → (lines : List Line) × IsListing parcels lines }
    ensures one_line { (parcels : List Parcel) (lines : List Line) (j k : ℕ) (a b : Line) →
        Agree parcels → IsListing parcels lines →
        slice_get lines j ≡ Some a → slice_get lines k ≡ Some b →
        a.cpu ≡ b.cpu → a.number ≡ b.number → j ≡ k }
{}
