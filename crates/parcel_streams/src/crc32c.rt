//! The checksum CRC-32C (Castagnoli), that of iSCSI, SCTP and many file formats, which RFC 3720, appendix B.4, and
//! RFC 3385 describe.
//!
//! Eight bytes are summed a step, by tables that are part of the program: nothing is set up, and no memory is taken.

ghost use Rattle.std.specs.Prelude.{◌≡◌, ℕ, List, ◌++◌};
ghost use Rattle.parcel_streams.specs.crc32c.Castagnoli.{crc32c, crc32c_after};

pub mod laws;
mod step;
mod tables;

use step::remainder_after;

/// The sum of the bytes.
pub fn crc32c(bytes: &[u8]) -> u32
    ensures { result ≡ crc32c bytes.now }
{
    crc32c_after(0, bytes)
}

/// The sum of bytes that follow others, from the sum of those: pieces are summed one after another, the first from 0.
pub fn crc32c_after(sum: u32, bytes: &[u8]) -> u32
    ensures value { result ≡ crc32c_after sum bytes.now }
    ensures appended { (front : List ℕ) → sum ≡ crc32c front → result ≡ crc32c (front ++ bytes.now) }
{
    remainder_after(sum ^ u32::MAX, bytes) ^ u32::MAX
}
