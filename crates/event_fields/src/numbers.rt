//! The numbers that a field's bytes are.
ghost use Rattle.std.specs.Prelude.{◌≡◌, ◌≤◌, ◌<◌, ⊤, length, MatchOption};
ghost use Rattle.std.specs.Option.{option_map};
ghost use Rattle.event_fields.specs.declared.field.NumberSize.TheVariants.{One, Two, Four, Eight};
ghost use Rattle.event_fields.specs.Numbers.{number_seen, number_at, number_of, size_for, byte_count};

use crate::field::NumberSize;

/// A number.
#[derive(Clone, Copy, Debug, PartialEq, Eq)]
pub enum FieldNumber {
    /// One that isn't signed.
    Natural(u64),
    /// One that is.
    Integer(i64),
}

/// The number of the first byte.
fn of_one(bytes: &[u8], is_signed: bool) -> FieldNumber
    requires { 1 ≤ length bytes.now }
    ensures { number_seen result ≡ number_at is_signed One bytes.now }
{
    match bytes {
        [a, ..] if is_signed => FieldNumber::Integer(i64::from(i8::from_le_bytes([*a]))),
        [a, ..] => FieldNumber::Natural(u64::from(u8::from_le_bytes([*a]))),
        _ => unreachable!(),
    }
}

/// The number of the first two bytes.
fn of_two(bytes: &[u8], is_signed: bool) -> FieldNumber
    requires { 2 ≤ length bytes.now }
    ensures { number_seen result ≡ number_at is_signed Two bytes.now }
{
    match bytes {
        [a, b, ..] if is_signed => FieldNumber::Integer(i64::from(i16::from_le_bytes([*a, *b]))),
        [a, b, ..] => FieldNumber::Natural(u64::from(u16::from_le_bytes([*a, *b]))),
        _ => unreachable!(),
    }
}

/// The number of the first four bytes.
fn of_four(bytes: &[u8], is_signed: bool) -> FieldNumber
    requires { 4 ≤ length bytes.now }
    ensures { number_seen result ≡ number_at is_signed Four bytes.now }
{
    match bytes {
        [a, b, c, d, ..] if is_signed => FieldNumber::Integer(i64::from(i32::from_le_bytes([
            *a, *b, *c, *d,
        ]))),
        [a, b, c, d, ..] => FieldNumber::Natural(u64::from(u32::from_le_bytes([*a, *b, *c, *d]))),
        _ => unreachable!(),
    }
}

/// The number of the first eight bytes.
fn of_eight(bytes: &[u8], is_signed: bool) -> FieldNumber
    requires { 8 ≤ length bytes.now }
    ensures { number_seen result ≡ number_at is_signed Eight bytes.now }
{
    match bytes {
        [a, b, c, d, e, f, g, h, ..] if is_signed => {
            FieldNumber::Integer(i64::from_le_bytes([*a, *b, *c, *d, *e, *f, *g, *h]))
        }
        [a, b, c, d, e, f, g, h, ..] => FieldNumber::Natural(u64::from_le_bytes([
            *a, *b, *c, *d, *e, *f, *g, *h,
        ])),
        _ => unreachable!(),
    }
}

/// The number that the first bytes are.
pub(crate) fn number_at(bytes: &[u8], size: NumberSize, is_signed: bool) -> FieldNumber
    requires { byte_count size ≤ length bytes.now }
    ensures { number_seen result ≡ number_at is_signed size bytes.now }
{
    match size {
        NumberSize::One => of_one(bytes, is_signed),
        NumberSize::Two => of_two(bytes, is_signed),
        NumberSize::Four => of_four(bytes, is_signed),
        NumberSize::Eight => of_eight(bytes, is_signed),
    }
}

/// The size of a number that has `count` bytes: 1, 2, 4 or 8.
pub(crate) fn size_for(count: usize) -> Option<NumberSize>
    ensures size { result ≡ size_for count }
    ensures count { MatchOption result ⊤ (λ size. byte_count size ≡ count) }
{
    match count {
        1 => Some(NumberSize::One),
        2 => Some(NumberSize::Two),
        4 => Some(NumberSize::Four),
        8 => Some(NumberSize::Eight),
        _ => None,
    }
}

/// The number that these bytes are: of 1, 2, 4 or 8 bytes.
#[tactic(auto, unfolding(crate::specs::Numbers::number_of))]
pub(crate) fn number_in(bytes: &[u8], is_signed: bool) -> Option<FieldNumber>
    ensures { option_map number_seen result ≡ number_of is_signed bytes.now }
{
    let size = size_for(bytes.len())?;
    Some(number_at(bytes, size, is_signed))
}
