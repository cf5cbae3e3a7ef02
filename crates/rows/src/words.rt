//! The words of a line, and bytes as text.
ghost use Rattle.std.specs.Prelude.{◌≡◌, ◌≢◌, ◌++◌, [], Ok, IfOk, IsErr, MatchOption, OnOk, codes, string_bytes};
ghost use Rattle.hex.specs.Hex.{decode_of, encode_lower};

use std::alloc::Global;
use std::str::{FromStr, SplitWhitespace};
use trace_model::NoMemory;

/// The next word, as a number.
pub fn number<N: FromStr>(words: &mut SplitWhitespace<'_>) -> Option<N>
where
    N::Err: Drop,
{
    words.next()?.parse().ok()
}

/// The bytes that hexadecimal digits spell, if they spell some.
pub fn hex_bytes(alloc: Global, digits: &str) -> Result<Option<Vec<u8>>, NoMemory>
    ensures { IfOk result (λ found. MatchOption found
        (IsErr (decode_of digits.now)) (λ bytes. decode_of digits.now ≡ Ok bytes.items)) }
{
    match hex::decode(alloc, digits) {
        Ok(bytes) => Ok(Some(bytes)),
        Err(hex::FromHexError::OutOfMemory) => Err(NoMemory),
        Err(_) => Ok(None),
    }
}

/// Puts bytes as hexadecimal digits.
pub fn put_hex(out: &mut String, alloc: Global, bytes: &[u8]) -> Result<(), NoMemory>
    ensures { OnOk result (string_bytes out.new ≡ string_bytes out.old ++ encode_lower bytes.now) }
{
    let digits = hex::encode(alloc, bytes)?;
    out.push_str(digits.as_str())?;
    Ok(())
}

/// Puts bytes as hexadecimal digits, none as `-`.
pub fn put_bytes(out: &mut String, alloc: Global, bytes: &[u8]) -> Result<(), NoMemory>
    ensures some { (bytes.now ≢ []) →
        OnOk result (string_bytes out.new ≡ string_bytes out.old ++ encode_lower bytes.now) }
    ensures none { (bytes.now ≡ []) → OnOk result (string_bytes out.new ≡ string_bytes out.old ++ codes "-") }
{
    if bytes.is_empty() {
        out.push('-')?;
        return Ok(());
    }
    put_hex(out, alloc, bytes)
}
