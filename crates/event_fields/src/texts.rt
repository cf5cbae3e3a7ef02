//! Pieces of a text.
ghost use Rattle.std.specs.Prelude.{◌≡◌, ◌==◌, ◌||◌, ◌+◌, ◌-◌, ◌<◌, ⊤, not, [], ◌∷◌, length, position};
ghost use Rattle.std.specs.Prelude.{MatchOption, IfSome};
ghost use Rattle.std.specs.Option.{option_map};
ghost use Rattle.std.specs.List.{list_all, suffix_len};
ghost use Rattle.event_fields.specs.Texts.{after, before, cut_at, parts_of, front_of, last_of, is_name_byte, is_name};
ghost use Rattle.event_fields.specs.Texts.{has_no_bracket, number32_in, text_before_zero};

use trace_dat::kernel_texts::number_of;

/// What is after a front, if the text begins with it.
#[tactic(auto, unfolding(crate::specs::Texts::after))]
pub fn after<'a>(text: &'a [u8], front: &[u8]) -> Option<&'a [u8]>
    ensures { option_map (λ found. found.now) result ≡ after front.now text.now }
{
    if !text.starts_with(front) {
        return None;
    }
    Some(&text[front.len()..])
}

/// What is before an end, if the text ends with it.
#[tactic(auto, unfolding(crate::specs::Texts::before))]
pub fn before<'a>(text: &'a [u8], end: &[u8]) -> Option<&'a [u8]>
    ensures { option_map (λ found. found.now) result ≡ before end.now text.now }
{
    if !text.ends_with(end) {
        return None;
    }
    Some(&text[..text.len() - end.len()])
}

/// The position of the first of this byte.
pub fn position_of(text: &[u8], byte: u8) -> Option<usize>
    ensures place { result ≡ position (λ b. b == byte) text.now }
    ensures within { IfSome result (λ at. at < length text.now) }
{
    text.iter().position(|b| *b == byte)
}

/// What is before the first of this byte, and what is after it.
#[tactic(auto, unfolding(crate::specs::Texts::cut_at))]
pub fn cut_at(text: &[u8], byte: u8) -> Option<(&[u8], &[u8])>
    ensures { option_map (λ parts. (parts.0.now, parts.1.now)) result ≡ cut_at byte text.now }
{
    match position_of(text, byte) {
        Some(at) => Some((&text[..at], &text[at + 1..])),
        None => None,
    }
}

/// The first part of a text, which ends before the first of this byte, and what is after that byte, if it is there.
pub fn part_cut(text: &[u8], byte: u8) -> (&[u8], Option<&[u8]>)
    ensures parts { MatchOption result.1
        (parts_of byte text.now ≡ result.0.now ∷ [])
        (λ rest. parts_of byte text.now ≡ result.0.now ∷ parts_of byte rest.now) }
    ensures len { MatchOption result.1 ⊤ (λ rest. length text.now ≡ length result.0.now + 1 + length rest.now) }
{
    match position_of(text, byte) {
        Some(at) => (&text[..at], Some(&text[at + 1..])),
        None => (text, None),
    }
}

/// The place after the last space.
fn last_start(text: &[u8]) -> usize
    ensures place { result + suffix_len (λ b. not (b == 32)) text.now ≡ length text.now }
{
    let mut start = text.len();
    while start > 0 && text[start - 1] != b' ' {
        start -= 1;
    }
    start
}

/// What is before the last space, and what is after it: nothing, and all of the text, if there is none.
pub fn cut_at_last_space(text: &[u8]) -> (&[u8], &[u8])
    ensures front { result.0.now ≡ front_of text.now }
    ensures last { result.1.now ≡ last_of text.now }
{
    let start = last_start(text);
    (&text[..start.saturating_sub(1)], &text[start..])
}

/// Whether this is a letter, a digit or `_`.
pub fn is_name_byte(byte: u8) -> bool
    ensures { result ≡ is_name_byte byte }
{
    byte.is_ascii_alphabetic() || byte.is_ascii_digit() || byte == b'_'
}

/// Whether all bytes are such.
fn are_name_bytes(text: &[u8]) -> bool
    ensures { result ≡ list_all is_name_byte text.now }
{
    for byte in text {
        if !is_name_byte(*byte) {
            return false;
        }
    }
    true
}

/// Whether a text is a name.
pub fn is_name(text: &[u8]) -> bool
    ensures { result ≡ is_name text.now }
{
    match text {
        [first, ..] => !first.is_ascii_digit() && are_name_bytes(text),
        [] => false,
    }
}

/// Whether a text has neither `[` nor `]`.
pub fn has_no_bracket(text: &[u8]) -> bool
    ensures { result ≡ has_no_bracket text.now }
{
    for byte in text {
        if *byte == b'[' || *byte == b']' {
            return false;
        }
    }
    true
}

/// The number that a text spells, if it fits 32 bits.
#[tactic(auto, unfolding(crate::specs::Texts::number32_in))]
pub fn number32_of(text: &[u8]) -> Option<u32>
    ensures { result ≡ number32_in text.now }
{
    let number = number_of(text)?;
    u32::try_from(number).ok()
}

/// The bytes up to the first zero byte.
pub fn before_zero(bytes: &[u8]) -> &[u8]
    ensures { result.now ≡ text_before_zero bytes.now }
{
    match position_of(bytes, 0) {
        Some(end) => &bytes[..end],
        None => bytes,
    }
}
