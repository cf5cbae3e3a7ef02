//! Numbers in a base of up to sixteen.
ghost use Rattle.std.specs.Prelude.{◌≡◌};
ghost use Rattle.kernel_names.specs.Digits.{digit_value, next_number, digits_in};

/// The value of a digit of base sixteen.
#[tactic(auto, unfolding(crate::specs::Digits::digit_value))]
fn digit_value(byte: u8) -> Option<u8>
    ensures { result ≡ digit_value byte }
{
    if byte.is_ascii_digit() {
        return Some(byte - b'0');
    }
    if byte >= b'a' && byte <= b'f' {
        return Some(byte - b'a' + 10);
    }
    if byte >= b'A' && byte <= b'F' {
        return Some(byte - b'A' + 10);
    }
    None
}

/// The number whose last digit is this, after the digits of another; None if the byte is no digit of the base, or the
/// number doesn't fit 64 bits.
#[tactic(auto, unfolding(crate::specs::Digits::next_number))]
fn with_digit(base: u64, front: u64, byte: u8) -> Option<u64>
    ensures { result ≡ next_number base front byte }
{
    let digit = u64::from(digit_value(byte)?);
    if digit >= base {
        return None;
    }
    front.checked_mul(base)?.checked_add(digit)
}

/// The number that a text spells in a base of up to sixteen, of one digit at least and of 64 bits at most; None if it
/// has any other byte. Digits above nine are letters, small or capital.
pub fn digits_of(text: &[u8], base: u64) -> Option<u64>
    ensures { result ≡ digits_in base text.now }
{
    if text.is_empty() {
        return None;
    }
    let mut number = 0;
    for byte in text {
        number = with_digit(base, number, *byte)?;
    }
    Some(number)
}
