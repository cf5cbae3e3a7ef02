//! Lines of the form KEY VALUE, and numbers.
ghost use Rattle.std.specs.Prelude.{◌≡◌, ◌+◌, ◌-◌, ◌*◌, ◌==◌, ◌<◌, ◌^◌, SomeIff, position};
ghost use Rattle.std.specs.Option.{option_map};
ghost use Rattle.std.specs.Int.{IsInRange};
ghost use Rattle.trace_dat.specs.kernel_texts.Lines.{line_at, value_in, number_in};

/// The place of the first line feed, if there is one.
fn line_end(text: &[u8]) -> Option<usize>
    ensures { result ≡ position (λ b. b == 10) text.now }
{
    text.iter().position(|byte| *byte == b'\n')
}

/// The text up to the first line feed.
#[tactic(auto, unfolding(crate::specs::kernel_texts::Lines::line_at))]
fn first_line(text: &[u8]) -> &[u8]
    ensures { result.now ≡ line_at text.now }
{
    match line_end(text) {
        Some(end) => &text[..end],
        None => text,
    }
}

/// What is after a key in the first line that begins with it.
pub(crate) fn value_of<'a>(text: &'a [u8], key: &[u8]) -> Option<&'a [u8]>
    ensures { option_map (λ value. value.now) result ≡ value_in key.now text.now }
{
    let mut is_start = true;
    for at in 0..text.len() {
        if is_start && text[at..].starts_with(key) {
            return Some(first_line(&text[at + key.len()..]));
        }
        is_start = text[at] == b'\n';
    }
    None
}

/// The number whose last digit is this, after the digits of another; None if the byte is no digit, or the number
/// doesn't fit 64 bits.
fn with_digit(front: u64, digit: u8) -> Option<u64>
    ensures { SomeIff result
        (IsInRange 48 57 digit × (front * 10 + (digit - 48) < 2 ^ 64)) (front * 10 + (digit - 48)) }
{
    if !digit.is_ascii_digit() {
        return None;
    }
    front.checked_mul(10)?.checked_add(u64::from(digit - b'0'))
}

/// The number that a text spells in decimal, of one digit at least and of 64 bits at most; None if it has any other
/// byte.
pub fn number_of(text: &[u8]) -> Option<u64>
    ensures { result ≡ number_in text.now }
{
    if text.is_empty() {
        return None;
    }
    let mut number = 0;
    for digit in text {
        number = with_digit(number, *digit)?;
    }
    Some(number)
}
