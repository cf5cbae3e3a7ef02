//! Hexadecimal digits by arithmetic: without a table, in functions that aren't inlined, the compiler reads many at
//! once.
ghost use Rattle.std.specs.Prelude.{◌≡◌, ◌≤◌, ◌+◌, ◌*◌, true, false};
ghost use Rattle.std.specs.Char.{digit_value, is_digit};
ghost use Rattle.std.specs.List.{list_all};
ghost use Rattle.text_model.specs.Text.{bytes_of_pairs};

/// The value of a hexadecimal digit, and 16 or more of another byte.
#[inline(always)]
fn plain_value(byte: u8) -> u8
    ensures digit { is_digit byte 16 ≡ true → result ≡ digit_value byte }
    ensures other { is_digit byte 16 ≡ false → 16 ≤ result }
{
    // The decimal digits become the bytes from 240 on, and all others those below.
    let decimal = byte.wrapping_add(255 - b'9').saturating_sub(6);
    let letter = (byte & !32).wrapping_sub(b'A').saturating_add(10);
    decimal.wrapping_sub(240).min(letter)
}

/// The byte that a pair of digits spells.
#[inline(always)]
fn plain_pair(high: u8, low: u8) -> u8
    ensures { is_digit high 16 ≡ true → is_digit low 16 ≡ true → result ≡ 16 * digit_value high + digit_value low }
{
    plain_value(high)
        .wrapping_mul(16)
        .wrapping_add(plain_value(low))
}

/// Whether each of 64 bytes is a digit.
#[inline(never)]
pub(crate) fn are_digits(bytes: &[u8; 64]) -> bool
    ensures { result ≡ list_all (λ c. is_digit c 16) bytes.now }
{
    let mut most = 0;
    for byte in bytes {
        most = most.max(plain_value(*byte));
    }
    most < 16
}

/// The bytes that 32 pairs of digits spell.
#[inline(never)]
pub(crate) fn bytes_of(digits: &[u8; 64]) -> [u8; 32]
    requires { list_all (λ c. is_digit c 16) digits.now ≡ true }
    ensures { result ≡ bytes_of_pairs digits.now }
{
    [
        plain_pair(digits[0], digits[1]),
        plain_pair(digits[2], digits[3]),
        plain_pair(digits[4], digits[5]),
        plain_pair(digits[6], digits[7]),
        plain_pair(digits[8], digits[9]),
        plain_pair(digits[10], digits[11]),
        plain_pair(digits[12], digits[13]),
        plain_pair(digits[14], digits[15]),
        plain_pair(digits[16], digits[17]),
        plain_pair(digits[18], digits[19]),
        plain_pair(digits[20], digits[21]),
        plain_pair(digits[22], digits[23]),
        plain_pair(digits[24], digits[25]),
        plain_pair(digits[26], digits[27]),
        plain_pair(digits[28], digits[29]),
        plain_pair(digits[30], digits[31]),
        plain_pair(digits[32], digits[33]),
        plain_pair(digits[34], digits[35]),
        plain_pair(digits[36], digits[37]),
        plain_pair(digits[38], digits[39]),
        plain_pair(digits[40], digits[41]),
        plain_pair(digits[42], digits[43]),
        plain_pair(digits[44], digits[45]),
        plain_pair(digits[46], digits[47]),
        plain_pair(digits[48], digits[49]),
        plain_pair(digits[50], digits[51]),
        plain_pair(digits[52], digits[53]),
        plain_pair(digits[54], digits[55]),
        plain_pair(digits[56], digits[57]),
        plain_pair(digits[58], digits[59]),
        plain_pair(digits[60], digits[61]),
        plain_pair(digits[62], digits[63]),
    ]
}
