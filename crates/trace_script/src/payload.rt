//! The payload that a field spells.
ghost use Rattle.std.specs.Prelude.{◌≡◌, ◌<◌, ◌≤◌, MatchOption};
ghost use Rattle.std.specs.Char.{is_digit};
ghost use Rattle.std.specs.List.{list_all};
ghost use Rattle.text_model.specs.ScriptLines.{payload_in};
ghost use Rattle.trace_script.specs.Decoding.{high_value, low_value, pair_value, ArePut, PutsPairs};
ghost use Rattle.trace_script.specs.Kept.{PutsPayload};
ghost use Rattle.trace_script.specs.UsualLines.{IsPayloadCut};

use crate::digits::{are_digits, bytes_of};
use crate::fault::LineFault;
use crate::fields::is_letter;
use trace_model::NoMemory;

/// The value of what is no digit: more than eight digits have together, and so more than any byte.
const NO_DIGIT: u16 = 4096;

/// The value of each byte as the first hexadecimal digit of a pair, and `NO_DIGIT` if it is none.
static HIGH_VALUES: [u16; 256] = [
    4096, 4096, 4096, 4096, 4096, 4096, 4096, 4096, 4096, 4096, 4096, 4096, 4096, 4096, 4096, 4096,
    4096, 4096, 4096, 4096, 4096, 4096, 4096, 4096, 4096, 4096, 4096, 4096, 4096, 4096, 4096, 4096,
    4096, 4096, 4096, 4096, 4096, 4096, 4096, 4096, 4096, 4096, 4096, 4096, 4096, 4096, 4096, 4096,
    0, 16, 32, 48, 64, 80, 96, 112, 128, 144, 4096, 4096, 4096, 4096, 4096, 4096, 4096, 160, 176,
    192, 208, 224, 240, 4096, 4096, 4096, 4096, 4096, 4096, 4096, 4096, 4096, 4096, 4096, 4096,
    4096, 4096, 4096, 4096, 4096, 4096, 4096, 4096, 4096, 4096, 4096, 4096, 4096, 4096, 160, 176,
    192, 208, 224, 240, 4096, 4096, 4096, 4096, 4096, 4096, 4096, 4096, 4096, 4096, 4096, 4096,
    4096, 4096, 4096, 4096, 4096, 4096, 4096, 4096, 4096, 4096, 4096, 4096, 4096, 4096, 4096, 4096,
    4096, 4096, 4096, 4096, 4096, 4096, 4096, 4096, 4096, 4096, 4096, 4096, 4096, 4096, 4096, 4096,
    4096, 4096, 4096, 4096, 4096, 4096, 4096, 4096, 4096, 4096, 4096, 4096, 4096, 4096, 4096, 4096,
    4096, 4096, 4096, 4096, 4096, 4096, 4096, 4096, 4096, 4096, 4096, 4096, 4096, 4096, 4096, 4096,
    4096, 4096, 4096, 4096, 4096, 4096, 4096, 4096, 4096, 4096, 4096, 4096, 4096, 4096, 4096, 4096,
    4096, 4096, 4096, 4096, 4096, 4096, 4096, 4096, 4096, 4096, 4096, 4096, 4096, 4096, 4096, 4096,
    4096, 4096, 4096, 4096, 4096, 4096, 4096, 4096, 4096, 4096, 4096, 4096, 4096, 4096, 4096, 4096,
    4096, 4096, 4096, 4096, 4096, 4096, 4096, 4096, 4096, 4096, 4096, 4096, 4096, 4096, 4096, 4096,
    4096, 4096, 4096, 4096, 4096, 4096, 4096, 4096, 4096, 4096, 4096, 4096, 4096,
];

/// The value of each byte as the second hexadecimal digit of a pair, and `NO_DIGIT` if it is none.
static LOW_VALUES: [u16; 256] = [
    4096, 4096, 4096, 4096, 4096, 4096, 4096, 4096, 4096, 4096, 4096, 4096, 4096, 4096, 4096, 4096,
    4096, 4096, 4096, 4096, 4096, 4096, 4096, 4096, 4096, 4096, 4096, 4096, 4096, 4096, 4096, 4096,
    4096, 4096, 4096, 4096, 4096, 4096, 4096, 4096, 4096, 4096, 4096, 4096, 4096, 4096, 4096, 4096,
    0, 1, 2, 3, 4, 5, 6, 7, 8, 9, 4096, 4096, 4096, 4096, 4096, 4096, 4096, 10, 11, 12, 13, 14, 15,
    4096, 4096, 4096, 4096, 4096, 4096, 4096, 4096, 4096, 4096, 4096, 4096, 4096, 4096, 4096, 4096,
    4096, 4096, 4096, 4096, 4096, 4096, 4096, 4096, 4096, 4096, 10, 11, 12, 13, 14, 15, 4096, 4096,
    4096, 4096, 4096, 4096, 4096, 4096, 4096, 4096, 4096, 4096, 4096, 4096, 4096, 4096, 4096, 4096,
    4096, 4096, 4096, 4096, 4096, 4096, 4096, 4096, 4096, 4096, 4096, 4096, 4096, 4096, 4096, 4096,
    4096, 4096, 4096, 4096, 4096, 4096, 4096, 4096, 4096, 4096, 4096, 4096, 4096, 4096, 4096, 4096,
    4096, 4096, 4096, 4096, 4096, 4096, 4096, 4096, 4096, 4096, 4096, 4096, 4096, 4096, 4096, 4096,
    4096, 4096, 4096, 4096, 4096, 4096, 4096, 4096, 4096, 4096, 4096, 4096, 4096, 4096, 4096, 4096,
    4096, 4096, 4096, 4096, 4096, 4096, 4096, 4096, 4096, 4096, 4096, 4096, 4096, 4096, 4096, 4096,
    4096, 4096, 4096, 4096, 4096, 4096, 4096, 4096, 4096, 4096, 4096, 4096, 4096, 4096, 4096, 4096,
    4096, 4096, 4096, 4096, 4096, 4096, 4096, 4096, 4096, 4096, 4096, 4096, 4096, 4096, 4096, 4096,
    4096, 4096, 4096, 4096, 4096, 4096, 4096, 4096, 4096, 4096, 4096, 4096, 4096, 4096, 4096, 4096,
    4096, 4096, 4096, 4096, 4096, 4096, 4096,
];

/// What a byte is worth as the first digit of a pair.
#[inline(always)]
fn high_value(byte: u8) -> u16
    ensures { result ≡ high_value byte }
{
    HIGH_VALUES[byte as usize]
}

/// What a byte is worth as the second digit of a pair.
#[inline(always)]
fn low_value(byte: u8) -> u16
    ensures { result ≡ low_value byte }
{
    LOW_VALUES[byte as usize]
}

/// The byte that a pair of hexadecimal digits spells, and `NO_DIGIT` or more if one of them is none.
#[inline(always)]
fn pair_value(high: u8, low: u8) -> u16
    ensures value { result ≡ pair_value high low }
    ensures small { result ≤ 8192 }
    ensures byte { result < 4096 → result < 256 }
{
    high_value(high) + low_value(low)
}

/// Appends the bytes of the pairs of digits at a text's beginning, 32 at a time, and returns the rest of the text. Two
/// bytes are looked at first, since the look at all 64 is lost at the end of a shorter payload.
#[inline(always)]
fn put_many<'a>(payloads: &mut Vec<u8>, text: &'a [u8]) -> &'a [u8]
    ensures { ArePut text.now result.now payloads.old.items payloads.new.items }
{
    let mut left = text;
    while let Some((digits, rest)) = left.split_first_chunk::<64>() {
        if low_value(digits[16]) == NO_DIGIT || low_value(digits[48]) == NO_DIGIT {
            break;
        }
        if !are_digits(digits) {
            break;
        }
        let Ok(()) = payloads.extend_from_slice(&bytes_of(digits)) else {
            break;
        };
        left = rest;
    }
    left
}

/// Appends the bytes of the pairs of digits at a text's beginning, eight at a time, and returns the rest of the text.
#[inline(always)]
fn put_eights<'a>(payloads: &mut Vec<u8>, text: &'a [u8]) -> &'a [u8]
    ensures { ArePut text.now result.now payloads.old.items payloads.new.items }
{
    let mut left = text;
    while let [a, b, c, d, e, f, g, h, i, j, k, l, m, n, o, p, rest @ ..] = left {
        if *a == b'\n' {
            break;
        }
        let first = pair_value(*a, *b);
        let second = pair_value(*c, *d);
        let third = pair_value(*e, *f);
        let fourth = pair_value(*g, *h);
        if first + second + third + fourth >= NO_DIGIT {
            break;
        }
        let fifth = pair_value(*i, *j);
        let sixth = pair_value(*k, *l);
        let seventh = pair_value(*m, *n);
        let eighth = pair_value(*o, *p);
        if fifth + sixth + seventh + eighth >= NO_DIGIT {
            break;
        }
        let Ok(()) = payloads.reserve(8) else {
            break;
        };
        payloads.push_reserved(first as u8);
        payloads.push_reserved(second as u8);
        payloads.push_reserved(third as u8);
        payloads.push_reserved(fourth as u8);
        payloads.push_reserved(fifth as u8);
        payloads.push_reserved(sixth as u8);
        payloads.push_reserved(seventh as u8);
        payloads.push_reserved(eighth as u8);
        left = rest;
    }
    left
}

/// Appends the bytes of the pairs of digits at a text's beginning, four at a time, and returns the rest of the text.
#[inline(always)]
fn put_fours<'a>(payloads: &mut Vec<u8>, text: &'a [u8]) -> &'a [u8]
    ensures { ArePut text.now result.now payloads.old.items payloads.new.items }
{
    let mut left = text;
    while let [a, b, c, d, e, f, g, h, rest @ ..] = left {
        if *a == b'\n' {
            break;
        }
        let first = pair_value(*a, *b);
        let second = pair_value(*c, *d);
        let third = pair_value(*e, *f);
        let fourth = pair_value(*g, *h);
        if first + second + third + fourth >= NO_DIGIT {
            break;
        }
        let Ok(()) = payloads.reserve(4) else {
            break;
        };
        payloads.push_reserved(first as u8);
        payloads.push_reserved(second as u8);
        payloads.push_reserved(third as u8);
        payloads.push_reserved(fourth as u8);
        left = rest;
    }
    left
}

/// Appends the bytes of the pairs of digits at a text's beginning, one by one, up to what is no pair or until memory
/// is refused.
#[inline(always)]
fn put_each<'a>(payloads: &mut Vec<u8>, text: &'a [u8]) -> Result<&'a [u8], NoMemory>
    ensures { PutsPairs result text.now payloads.old.items payloads.new.items }
{
    let mut left = text;
    while let [high, low, rest @ ..] = left {
        if *high == b'\n' {
            break;
        }
        let byte = pair_value(*high, *low);
        if byte >= NO_DIGIT {
            break;
        }
        payloads.push(byte as u8)?;
        left = rest;
    }
    Ok(left)
}

/// Appends the bytes that the pairs of hexadecimal digits at a text's beginning spell, and returns the text after all
/// these pairs. If memory is refused, some of the bytes may be appended.
#[inline(always)]
fn put_pairs<'a>(payloads: &mut Vec<u8>, text: &'a [u8]) -> Result<&'a [u8], NoMemory>
    ensures { PutsPairs result text.now payloads.old.items payloads.new.items }
{
    let behind_many = put_many(payloads, text);
    let behind_eights = put_eights(payloads, behind_many);
    let behind_fours = put_fours(payloads, behind_eights);
    put_each(payloads, behind_fours)
}

/// The payload at a text's beginning, up to the line feed that ends it: its bytes are appended, and the text after the
/// line feed is returned. None, and nothing appended, if there is no payload of this form, or no memory.
#[inline(always)]
pub(crate) fn payload_cut<'a>(payloads: &mut Vec<u8>, text: &'a [u8]) -> Option<&'a [u8]>
    ensures { MatchOption result (payloads.new.items ≡ payloads.old.items) (λ rest.
        IsPayloadCut text.now rest.now payloads.old.items payloads.new.items) }
{
    if let [dash, end, rest @ ..] = text {
        if *dash == b'-' && *end == b'\n' {
            return Some(rest);
        }
    }
    let start = payloads.len();
    let Ok(left) = put_pairs(payloads, text) else {
        payloads.truncate(start);
        return None;
    };
    if let [end, rest @ ..] = left {
        if *end == b'\n' && payloads.len() > start {
            return Some(rest);
        }
    }
    payloads.truncate(start);
    None
}

/// Whether each byte is a hexadecimal digit.
fn are_hex_digits(bytes: &[u8]) -> bool
    ensures { result ≡ list_all (λ c. is_digit c 16) bytes.now }
{
    bytes.iter().all(|b| char::from(*b).is_digit(16))
}

/// Appends the bytes that a field spells. Memory is refused only to a field that spells some.
pub(crate) fn put_payload(payloads: &mut Vec<u8>, field: &[u8]) -> Result<(), LineFault>
    ensures { PutsPayload result payloads.old.items payloads.new.items (payload_in field.now) }
{
    if is_letter(field, b'-') {
        return Ok(());
    }
    let odd = field.len() % 2 != 0;
    if odd || field.is_empty() || !are_hex_digits(field) {
        return Err(LineFault::BadHex);
    }
    put_pairs(payloads, field)?;
    Ok(())
}
