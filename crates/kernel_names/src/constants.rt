//! Constants as C writes them.
ghost use Rattle.std.specs.Prelude.{◌≡◌, ◌+◌, ◌==◌, ◌||◌, false, length};
ghost use Rattle.std.specs.List.{list_all, list_any, suffix_len};
ghost use Rattle.event_fields.specs.Texts.{parts_of};
ghost use Rattle.kernel_names.specs.Constants.{is_suffix_byte, is_unsigned, is_long, is_type_byte, greatest_of};
ghost use Rattle.kernel_names.specs.Constants.{value_in, front_of_suffix, suffix_of, literal_in, cast_in, casts_after};
ghost use Rattle.kernel_names.specs.Constants.{casts_in, operand_in, shifted, count_in, term_in, joined, terms_after};
ghost use Rattle.kernel_names.specs.Constants.{positive_in, negated, negative_in, key_in};

use crate::digits::digits_of;
use crate::pieces::{are_opening, count_of, cut_closing, cut_opening, cut_word, unopened};
use event_fields::texts::{after, before, cut_at, is_name_byte, part_cut};
use event_fields::{NumberSize, type_size};

/// A number as C writes it.
#[derive(Clone, Copy)]
struct Literal {
    /// The number.
    value: u64,
    /// The greatest number of its type.
    greatest: u64,
}

/// A number in brackets and behind casts.
#[derive(Clone, Copy)]
struct Operand {
    /// The number.
    literal: Literal,
    /// Whether a cast is to a type of four bytes.
    is_narrow: bool,
    /// How many brackets are opened right before the number.
    opened: usize,
    /// How many brackets are closed right behind it.
    closed: usize,
}

/// A number, which may be under casts.
#[derive(Clone, Copy)]
struct Term {
    /// The number.
    value: u64,
    /// Whether a cast is to a type of four bytes.
    is_narrow: bool,
}

/// Whether a letter behind a number says its type.
fn is_suffix_byte(byte: u8) -> bool
    ensures { result ≡ is_suffix_byte byte }
{
    byte == b'u' || byte == b'U' || byte == b'l' || byte == b'L'
}

/// Where the letters at the end begin that say a number's type.
fn suffix_start(text: &[u8]) -> usize
    ensures { result + suffix_len is_suffix_byte text.now ≡ length text.now }
{
    let mut start = text.len();
    while start > 0 && is_suffix_byte(text[start - 1]) {
        start -= 1;
    }
    start
}

/// What is before the letters at the end that say a number's type, and these.
fn cut_suffix(text: &[u8]) -> (&[u8], &[u8])
    ensures front { result.0.now ≡ front_of_suffix text.now }
    ensures suffix { result.1.now ≡ suffix_of text.now }
{
    let start = suffix_start(text);
    (&text[..start], &text[start..])
}

/// Whether letters behind a number say that it is unsigned.
fn is_unsigned(suffix: &[u8]) -> bool
    ensures { result ≡ is_unsigned suffix.now }
{
    suffix.contains(&b'u') || suffix.contains(&b'U')
}

/// Whether letters behind a number say that it has 64 bits.
fn is_long(suffix: &[u8]) -> bool
    ensures { result ≡ is_long suffix.now }
{
    suffix.contains(&b'l') || suffix.contains(&b'L')
}

/// The greatest number of a type.
fn greatest_of(is_long: bool, is_unsigned: bool) -> u64
    ensures { result ≡ greatest_of is_long is_unsigned }
{
    match (is_long, is_unsigned) {
        (true, true) => 18_446_744_073_709_551_615,
        (true, false) => 9_223_372_036_854_775_807,
        (false, true) => 4_294_967_295,
        (false, false) => 2_147_483_647,
    }
}

/// The number that digits spell: in hexadecimal after `0x`, in octal after `0`, or in decimal.
fn value_of(text: &[u8]) -> Option<u64>
    ensures { result ≡ value_in text.now }
{
    if let Some(digits) = after(text, b"0x") {
        return digits_of(digits, 16);
    }
    if let Some(digits) = after(text, b"0X") {
        return digits_of(digits, 16);
    }
    if text.starts_with(b"0") {
        return digits_of(text, 8);
    }
    digits_of(text, 10)
}

/// The number that a text is, with the letters for its type.
#[tactic(auto, unfolding(crate::specs::Constants::literal_in))]
fn literal_of(text: &[u8]) -> Option<Literal>
    ensures { result ≡ literal_in text.now }
{
    let (digits, suffix) = cut_suffix(text);
    let value = value_of(digits)?;
    Some(Literal {
        value,
        greatest: greatest_of(is_long(suffix), is_unsigned(suffix)),
    })
}

/// Whether all bytes are those of a type's name.
fn are_type_bytes(text: &[u8]) -> bool
    ensures { result ≡ list_all is_type_byte text.now }
{
    for byte in text {
        if !is_name_byte(*byte) && *byte != b' ' {
            return false;
        }
    }
    true
}

/// What a cast is to, by what is before its closing bracket: a type of four bytes, or else of eight.
#[tactic(auto, unfolding(crate::specs::Constants::cast_in))]
pub(crate) fn is_narrow_cast(text: &[u8]) -> Option<bool>
    ensures { result ≡ cast_in text.now }
{
    let type_text = unopened(text);
    if !are_type_bytes(type_text) {
        return None;
    }
    match type_size(type_text) {
        Some(NumberSize::Eight) => Some(false),
        Some(NumberSize::Four) => Some(true),
        _ => None,
    }
}

/// Whether one of several casts, each but the last with its closing bracket, is to a type of four bytes.
fn are_narrow_casts(text: &[u8]) -> Option<bool>
    ensures { result ≡ casts_after false (parts_of 41 text.now) }
{
    let mut is_narrow = false;
    let mut left = text;
    loop {
        let (cast, rest) = part_cut(left, b')');
        let is_narrow_here = is_narrow_cast(cast)?;
        is_narrow = is_narrow || is_narrow_here;
        let Some(rest) = rest else {
            return Some(is_narrow);
        };
        left = rest;
    }
}

/// Whether one of the casts that a text is, which may be none, is to a type of four bytes.
#[tactic(auto, unfolding(crate::specs::Constants::casts_in))]
fn has_narrow_cast(text: &[u8]) -> Option<bool>
    ensures { result ≡ casts_in text.now }
{
    if text.is_empty() {
        return Some(false);
    }
    are_narrow_casts(before(text, b")")?)
}

/// The number that a text is, in brackets and behind casts.
#[tactic(auto, unfolding(crate::specs::Constants::operand_in))]
fn operand_of(text: &[u8]) -> Option<Operand>
    ensures { result ≡ operand_in text.now }
{
    let (body, closing) = cut_closing(text);
    let (front, word) = cut_word(body);
    let (casts, opening) = cut_opening(front);
    let literal = literal_of(word)?;
    let is_narrow = has_narrow_cast(casts)?;
    Some(Operand {
        literal,
        is_narrow,
        opened: count_of(opening, b'('),
        closed: count_of(closing, b')'),
    })
}

/// A number shifted to the left, if the brackets behind it are its own, and the result is of its type.
#[tactic(auto, unfolding(crate::specs::Constants::shifted))]
fn shifted(operand: Operand, count: u64) -> Option<Term>
    ensures { result ≡ shifted operand count }
{
    if operand.closed > operand.opened || count >= 64 {
        return None;
    }
    let value = operand.literal.value.checked_mul(2u64.pow(count as u32))?;
    if value > operand.literal.greatest {
        return None;
    }
    Some(Term {
        value,
        is_narrow: operand.is_narrow,
    })
}

/// By how many bits a number is shifted: a number in brackets, which are all closed behind it.
#[tactic(auto, unfolding(crate::specs::Constants::count_in))]
fn shift_count(text: &[u8]) -> Option<u64>
    ensures { result ≡ count_in text.now }
{
    let (body, closing) = cut_closing(text);
    let (front, word) = cut_word(body);
    if !are_opening(front) || count_of(front, b'(') > count_of(closing, b')') {
        return None;
    }
    let literal = literal_of(word)?;
    Some(literal.value)
}

/// The number that a text is, which may be shifted.
#[tactic(auto, unfolding(crate::specs::Constants::term_in))]
fn term_of(text: &[u8]) -> Option<Term>
    ensures { result ≡ term_in text.now }
{
    match cut_at(text, b'<') {
        Some((number, rest)) => {
            let count = shift_count(after(rest, b"<")?)?;
            shifted(operand_of(number)?, count)
        }
        None => {
            let operand = operand_of(text)?;
            Some(Term {
                value: operand.literal.value,
                is_narrow: operand.is_narrow,
            })
        }
    }
}

/// The bits of two numbers.
fn joined(first: Term, second: Term) -> Term
    ensures { result ≡ joined first second }
{
    Term {
        value: first.value | second.value,
        is_narrow: first.is_narrow || second.is_narrow,
    }
}

/// The bits of the numbers between which a text has `|`.
fn terms_of(text: &[u8]) -> Option<Term>
    ensures { result ≡ terms_after (record { value = 0; is_narrow = false }) (parts_of 124 text.now) }
{
    let mut bits = Term {
        value: 0,
        is_narrow: false,
    };
    let mut left = text;
    loop {
        let (part, rest) = part_cut(left, b'|');
        let term = term_of(part)?;
        bits = joined(bits, term);
        let Some(rest) = rest else {
            return Some(bits);
        };
        left = rest;
    }
}

/// The number that a text is, if no cast can change it.
#[tactic(auto, unfolding(crate::specs::Constants::positive_in))]
fn positive_of(text: &[u8]) -> Option<u64>
    ensures { result ≡ positive_in text.now }
{
    let bits = terms_of(text)?;
    if bits.is_narrow && bits.value >= 2_147_483_648 {
        return None;
    }
    Some(bits.value)
}

/// An `int` below zero, in two's complement of 64 bits.
#[tactic(auto, unfolding(crate::specs::Constants::negated))]
fn negated(literal: Literal) -> Option<u64>
    ensures { result ≡ negated literal }
{
    if literal.greatest != 2_147_483_647 || literal.value == 0 || literal.value > literal.greatest {
        return None;
    }
    Some(18_446_744_073_709_551_615 - (literal.value - 1))
}

/// The number that a text is, if it is one below zero.
#[tactic(auto, unfolding(crate::specs::Constants::negative_in))]
fn negative_of(text: &[u8]) -> Option<u64>
    ensures { result ≡ negative_in text.now }
{
    let (body, _) = cut_closing(text);
    let number = after(unopened(body), b"-")?;
    negated(literal_of(unopened(number))?)
}

/// The constant that a text of C is, as a table's key of 64 bits.
#[tactic(auto, unfolding(crate::specs::Constants::key_in))]
pub(crate) fn key_of(text: &[u8]) -> Option<u64>
    ensures { result ≡ key_in text.now }
{
    match positive_of(text) {
        Some(key) => Some(key),
        None => negative_of(text),
    }
}
