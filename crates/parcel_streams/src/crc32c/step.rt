//! The remainder, eight bytes a step.
ghost use Rattle.std.specs.Prelude.{◌≡◌, ◌+◌, ◌*◌, ◌<◌};
ghost use Rattle.parcel_streams.specs.crc32c.Castagnoli.{next_bits, next_byte, remainder_after};

use crate::crc32c::tables::TABLES;

/// What a byte leaves when it and this many zero bytes after it go out.
fn left_by_byte(byte: u8, behind: usize) -> u32
    requires { behind < 8 }
    ensures { result ≡ next_bits (8 * (behind + 1)) byte }
{
    TABLES[behind][byte as usize]
}

/// The remainder after one more byte.
fn next_byte(remainder: u32, byte: u8) -> u32
    ensures { result ≡ next_byte remainder byte }
{
    (remainder >> 8) ^ left_by_byte((remainder & 0xff) as u8 ^ byte, 0)
}

/// What a word leaves when its eight bytes go out. Those that a remainder was added to come last, so that the others
/// don't wait for it.
fn left_by_word(word: u64) -> u32
    ensures { result ≡ next_bits 64 word }
{
    let bytes = word.to_le_bytes();
    left_by_byte(bytes[7], 0)
        ^ left_by_byte(bytes[6], 1)
        ^ left_by_byte(bytes[5], 2)
        ^ left_by_byte(bytes[4], 3)
        ^ left_by_byte(bytes[3], 4)
        ^ left_by_byte(bytes[2], 5)
        ^ left_by_byte(bytes[1], 6)
        ^ left_by_byte(bytes[0], 7)
}

/// The remainder after eight more bytes.
fn next_word(remainder: u32, bytes: &[u8; 8]) -> u32
    ensures { result ≡ remainder_after remainder bytes.now }
{
    left_by_word(u64::from_le_bytes(*bytes) ^ u64::from(remainder))
}

/// The remainder after these bytes, from the one before them.
pub(crate) fn remainder_after(start: u32, bytes: &[u8]) -> u32
    ensures { result ≡ remainder_after start bytes.now }
{
    let mut remainder = start;
    let mut rest = bytes;
    while let Some((word, behind)) = rest.split_first_chunk::<8>() {
        remainder = next_word(remainder, word);
        rest = behind;
    }
    for byte in rest {
        remainder = next_byte(remainder, *byte);
    }
    remainder
}
