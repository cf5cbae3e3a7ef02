//! Numbers one after the other.
ghost use Rattle.std.specs.Prelude.{◌≡◌, ◌<◌, [], ◌∷◌, length, MatchOption};
ghost use Rattle.event_fields.specs.Numbers.{number_seen};
ghost use Rattle.event_fields.specs.Values.{numbers_seen};

use crate::field::NumberSize;
use crate::numbers::{FieldNumber, number_at};

/// Numbers of one size, one after the other.
#[derive(Clone, Copy, Debug)]
pub struct Numbers<'a> {
    /// The bytes that they are.
    pub(crate) bytes: &'a [u8],
    /// How many bytes each of them has.
    pub(crate) size: NumberSize,
    /// Whether they are in two's complement.
    pub(crate) is_signed: bool,
}

impl<'a> Numbers<'a> {
    /// The first number, and the others.
    pub fn split_first(self) -> Option<(FieldNumber, Numbers<'a>)>
        ensures numbers { MatchOption result (numbers_seen self.entry ≡ [])
            (λ parts. numbers_seen self.entry ≡ number_seen parts.0 ∷ numbers_seen parts.1) }
        ensures shorter { MatchOption result (numbers_seen self.entry ≡ [])
            (λ parts. length (numbers_seen parts.1) < length (numbers_seen self.entry)) }
    {
        if self.bytes.len() < self.size.byte_count() {
            return None;
        }
        let number = number_at(self.bytes, self.size, self.is_signed);
        let others = Numbers {
            bytes: &self.bytes[self.size.byte_count()..],
            ..self
        };
        Some((number, others))
    }
}
