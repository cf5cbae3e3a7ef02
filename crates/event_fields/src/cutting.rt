//! The bytes of a field.
ghost use Rattle.std.specs.Prelude.{◌≡◌, ◌+◌, ◌<◌, ◌≤◌, ◌^◌, length};
ghost use Rattle.std.specs.Option.{option_map};
ghost use Rattle.event_fields.specs.Cutting.{bytes_of, own_size, piece, placed, located, word_at};

use crate::field::{Layout, Place};

/// So many bytes from an offset on, if all of them are there.
#[tactic(auto, unfolding(crate::specs::Cutting::piece))]
fn piece(bytes: &[u8], at: usize, count: usize) -> Option<&[u8]>
    requires { at + count < 2 ^ 64 }
    ensures { option_map (λ found. found.now) result ≡ piece at count bytes.now }
{
    if bytes.len() < at + count {
        return None;
    }
    Some(&bytes[at..at + count])
}

/// The number of the four bytes at an offset.
fn word_at(bytes: &[u8], at: usize) -> u32
    requires { at + 4 ≤ length bytes.now }
    ensures { result ≡ word_at at bytes.now }
{
    match &bytes[at..] {
        [a, b, c, d, ..] => u32::from_le_bytes([*a, *b, *c, *d]),
        _ => unreachable!(),
    }
}

/// The bytes that a word says, whose offset counts from `base`.
fn located(bytes: &[u8], base: usize, word: u32) -> Option<&[u8]>
    requires { base < 2 ^ 33 }
    ensures { option_map (λ found. found.now) result ≡ located base word bytes.now }
{
    piece(
        bytes,
        base + (word % 65536) as usize,
        (word / 65536) as usize,
    )
}

/// The bytes of a field whose own bytes are in the payload.
fn placed(layout: Layout, payload: &[u8]) -> Option<&[u8]>
    requires { layout.at + own_size layout.place ≤ length payload.now }
    ensures { option_map (λ found. found.now) result ≡ placed layout.place layout.at payload.now }
{
    let at = layout.at as usize;
    match layout.place {
        Place::Here(size) => piece(payload, at, size as usize),
        Place::Rest => Some(&payload[at..]),
        Place::Located => located(payload, 0, word_at(payload, at)),
        Place::Relative => located(payload, at + 4, word_at(payload, at)),
    }
}

/// The bytes of a field in the payload of a record; none if they aren't all there.
#[tactic(auto, unfolding(crate::specs::Cutting::bytes_of))]
pub(crate) fn field_bytes(layout: Layout, payload: &[u8]) -> Option<&[u8]>
    ensures { option_map (λ found. found.now) result ≡ bytes_of layout payload.now }
{
    if payload.len() < layout.at as usize + layout.place.own_size() as usize {
        return None;
    }
    placed(layout, payload)
}
