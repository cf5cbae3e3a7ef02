//! Laws over records cut into what was taken and what was lost.
ghost use Rattle.std.specs.Prelude.{◌≡◌, ℕ, ◌+◌, ◌<◌, ◌↔◌, List, length, Some, slice_get};
ghost use Rattle.trace_model.specs.Record.{Record};
ghost use Rattle.trace_model.specs.Partition.{Piece, IsPartition, IsNumberedFrom, first_of};
ghost use Rattle.trace_model.specs.Parcel.{Parcel, AreGenuine};
ghost use Rattle.trace_model.specs.Collection.{Agree, Has, Misses};

/// Each piece of a partition has a first number, which is how many records of the whole list are before the piece's
/// own; from that number on these are the records of the whole list.
pub fn pieces_have_first_numbers()
    ensures some { (records : List Record) (pieces : List Piece) (rest : List Record) (index : ℕ) (piece : Piece) →
        IsPartition records pieces rest → slice_get pieces index ≡ Some piece →
        (first : ℕ) × (first_of pieces index ≡ Some first) }
    ensures counted { (records : List Record) (pieces : List Piece) (rest : List Record)
        (index first : ℕ) (piece : Piece) →
        IsPartition records pieces rest → slice_get pieces index ≡ Some piece →
        ((first_of pieces index ≡ Some first) ↔ IsNumberedFrom records pieces rest index piece first) }
    ensures own_records { (records : List Record) (pieces : List Piece) (rest : List Record)
        (index first i : ℕ) (piece : Piece) (r : Record) →
        IsPartition records pieces rest → slice_get pieces index ≡ Some piece →
        first_of pieces index ≡ Some first →
        slice_get piece.records i ≡ Some r → slice_get records (first + i) ≡ Some r }
{}

/// Parcels that are genuine for the partition of their CPU's records have and miss only those records, under their
/// numbers, and never clash: no number has two records, and none has one and is missing.
pub fn genuine_parcels_agree()
    ensures has { (records : ℕ → List Record) (pieces : ℕ → List Piece) (rest : ℕ → List Record)
        (parcels : List Parcel) (cpu number : ℕ) (r : Record) →
        ((c : ℕ) → IsPartition (records c) (pieces c) (rest c)) → AreGenuine parcels pieces →
        Has parcels cpu number r → slice_get (records cpu) number ≡ Some r }
    ensures misses { (records : ℕ → List Record) (pieces : ℕ → List Piece) (rest : ℕ → List Record)
        (parcels : List Parcel) (cpu number : ℕ) →
        ((c : ℕ) → IsPartition (records c) (pieces c) (rest c)) → AreGenuine parcels pieces →
        Misses parcels cpu number → number < length (records cpu) }
    ensures agree { (records : ℕ → List Record) (pieces : ℕ → List Piece) (rest : ℕ → List Record)
        (parcels : List Parcel) →
        ((c : ℕ) → IsPartition (records c) (pieces c) (rest c)) → AreGenuine parcels pieces → Agree parcels }
{}
