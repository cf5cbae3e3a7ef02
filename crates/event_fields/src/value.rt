//! The value of a field.
ghost use Rattle.std.specs.Prelude.{◌≡◌};
ghost use Rattle.std.specs.Option.{option_map};
ghost use Rattle.event_fields.specs.Values.{value_seen, value_in, value_of};

use crate::cutting::field_bytes;
use crate::field::{Kind, Layout, NumberKind, NumberSize};
use crate::list::Numbers;
use crate::numbers::{FieldNumber, number_in};
use crate::texts::before_zero;

/// The value of a field.
#[derive(Clone, Copy, Debug)]
pub enum Value<'a> {
    /// A number.
    Number(FieldNumber),
    /// Numbers.
    Numbers(Numbers<'a>),
    /// A text, which may have any bytes but the zero byte.
    Text(&'a [u8]),
    /// Bytes of which nothing else is known.
    Bytes(&'a [u8]),
}

/// The numbers that bytes are, if these are a whole number of elements.
fn numbers_in(bytes: &[u8], kind: NumberKind, size: NumberSize) -> Option<Value<'_>>
    ensures { option_map value_seen result ≡ value_in (Kind.Numbers kind size) bytes.now }
{
    if bytes.len() % size.byte_count() != 0 {
        return None;
    }
    Some(Value::Numbers(Numbers {
        bytes,
        size,
        is_signed: kind.is_signed(),
    }))
}

/// The value that bytes are.
fn value_in(kind: Kind, bytes: &[u8]) -> Option<Value<'_>>
    ensures { option_map value_seen result ≡ value_in kind bytes.now }
{
    match kind {
        Kind::Number(kind) => Some(Value::Number(number_in(bytes, kind.is_signed())?)),
        Kind::Numbers(kind, size) => numbers_in(bytes, kind, size),
        Kind::Text => Some(Value::Text(before_zero(bytes))),
        Kind::Bytes => Some(Value::Bytes(bytes)),
    }
}

/// The value of a field in the payload of a record; none if its bytes aren't all there, or aren't a whole number of
/// elements.
#[tactic(auto, unfolding(crate::specs::Values::value_of))]
pub fn value_of(layout: Layout, payload: &[u8]) -> Option<Value<'_>>
    ensures { option_map value_seen result ≡ value_of layout payload.now }
{
    value_in(layout.kind, field_bytes(layout, payload)?)
}
