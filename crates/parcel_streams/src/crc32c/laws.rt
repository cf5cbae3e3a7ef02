//! What the sum is of a few bytes, and which changes it shows.
ghost use Rattle.std.specs.Prelude.{◌≡◌, ◌≢◌, ℕ, ◌^◌, ◌<◌, ◌++◌, ◌∷◌, [], List, codes, replicate, reverse};
ghost use Rattle.std.specs.List.{range_with_len};
ghost use Rattle.parcel_streams.specs.crc32c.Castagnoli.{crc32c, crc32c_after};
ghost use Rattle.parcel_streams.specs.crc32c.Changes.{AreBytes, DifferAt, DifferInBits, DifferWithin};

/// The sum of the digits 1 to 9 in ASCII is the value by which implementations are checked, and that of no bytes is 0.
pub fn check_value()
    ensures digits { crc32c (codes "123456789") ≡ 0xe3069283 }
    ensures empty { crc32c [] ≡ 0 }
{}

/// The sums of the test vectors of RFC 3720, appendix B.4, are those stated there: of 32 bytes that are all 0, all 255,
/// rising from 0, and falling to 0.
pub fn vectors()
    ensures zeros { crc32c (replicate 32 0) ≡ 0x8a9136aa }
    ensures ones { crc32c (replicate 32 255) ≡ 0x62a8ab43 }
    ensures rising { crc32c (range_with_len 0 32) ≡ 0x46dd794e }
    ensures falling { crc32c (reverse (range_with_len 0 32)) ≡ 0x113fdb5c }
{}

/// The sum of bytes has 32 bits.
pub fn a_sum_has_32_bits()
    ensures { (bytes : List ℕ) → AreBytes bytes → crc32c bytes < 2 ^ 32 }
{}

/// Bytes may be summed in parts: the sum continued over the next part, from that of what is before it or from 0, is the
/// sum of the parts joined.
pub fn pieces_are_summed_in_turn()
    ensures first { (bytes : List ℕ) → crc32c_after 0 bytes ≡ crc32c bytes }
    ensures next { (front back : List ℕ) → crc32c_after (crc32c front) back ≡ crc32c (front ++ back) }
{}

/// A byte that changes alone, whatever the bytes around it are, changes the sum.
pub fn a_changed_byte_changes_the_sum()
    ensures in_place { (front back : List ℕ) (was is : ℕ) → was < 256 → is < 256 → was ≢ is
        → crc32c (front ++ was ∷ back) ≢ crc32c (front ++ is ∷ back) }
    ensures by_index { (was is : List ℕ) (at : ℕ) → DifferAt was is at → crc32c was ≢ crc32c is }
{}

/// Changes within 32 neighbouring bits change the sum, and so do changes within four neighbouring bytes, whatever the
/// bytes around them are.
pub fn a_burst_of_changes_changes_the_sum()
    ensures bits { (was is : List ℕ) → DifferInBits 32 was is → crc32c was ≢ crc32c is }
    ensures bytes { (front back was is : List ℕ) → DifferWithin 4 was is
        → crc32c (front ++ (was ++ back)) ≢ crc32c (front ++ (is ++ back)) }
{}
