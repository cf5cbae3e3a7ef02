//! What a field spells: a number, a count or a CPU. (Bytes: `payload.rt`.)
ghost use Rattle.std.specs.Prelude.{◌≡◌, ◌≢◌, ◌+◌, ◌-◌, ◌*◌, ◌^◌, ◌<◌, true, false, drop, Ok, IfOk, IfSome, SomeIff};
ghost use Rattle.std.specs.Prelude.{MatchOption};
ghost use Rattle.std.specs.Int.{IsInRange};
ghost use Rattle.std.specs.Char.{is_ascii_digit};
ghost use Rattle.std.specs.List.{list_all};
ghost use Rattle.text_model.specs.ScriptLines.{decimal_in, number_below, names_cpu, cpu_in};
ghost use Rattle.text_model.specs.Script.{count_in};
ghost use Rattle.trace_script.specs.ScriptFaults.{Gives};
ghost use Rattle.trace_script.specs.UsualLines.{IsNumberCut, IsCpuCut};

use crate::fault::LineFault;
use text_model::{MAX_LINE_STEPS, MAX_NUMBER_DIGITS, MIN_LINE_STEPS};
use trace_model::CpuId;

/// The number whose last digit is this, after the digits of another; None if the byte is no digit, or the number
/// doesn't fit 64 bits.
fn with_digit(front: u64, digit: u8) -> Option<u64>
    ensures { SomeIff result
        (IsInRange 48 57 digit × (front * 10 + (digit - 48) < 2 ^ 64)) (front * 10 + (digit - 48)) }
{
    if !digit.is_ascii_digit() {
        return None;
    }
    front.checked_mul(10)?.checked_add(u64::from(digit - b'0'))
}

/// The number that a field spells.
pub(crate) fn number_of(field: &[u8]) -> Result<u64, LineFault>
    ensures gives { Gives (λ n. n) result (decimal_in field.now) }
    ensures never_out_of_memory { result ≢ Err LineFault.NoMemory }
{
    if field.is_empty() || field.len() > MAX_NUMBER_DIGITS {
        return Err(LineFault::BadNumber);
    }
    let mut number = 0;
    for digit in field {
        let Some(next) = with_digit(number, *digit) else {
            return Err(LineFault::BadNumber);
        };
        number = next;
    }
    Ok(number)
}

/// Numbers of fewer digits than these fit 64 bits.
const SHORT_DIGITS: usize = 19;

/// A number at a text's beginning, and the text after the byte that ends it.
#[derive(Clone, Copy)]
pub(crate) struct NumberCut<'a> {
    /// The number.
    pub(crate) number: u64,
    /// The text after that byte.
    pub(crate) rest: &'a [u8],
}

/// The number at the text's beginning, if it is a short one and this byte ends it. None says nothing of the text.
#[inline(always)]
pub(crate) fn number_cut(text: &[u8], end: u8) -> Option<NumberCut<'_>>
    ensures { IfSome result (λ cut. IsNumberCut text.now end cut) }
{
    let mut number = 0;
    for at in 0..text.len().min(SHORT_DIGITS) {
        let digit = text[at].wrapping_sub(b'0');
        if digit > 9 {
            if text[at] != end || at == 0 {
                return None;
            }
            return Some(NumberCut {
                number,
                rest: &text[at + 1..],
            });
        }
        number = 10 * number + u64::from(digit);
    }
    None
}

/// The number of one digit at the front of a text, if a space ends it. None says nothing of the text.
#[inline(always)]
fn digit_cut(text: &[u8]) -> Option<NumberCut<'_>>
    ensures { IfSome result (λ cut. IsNumberCut text.now 32 cut) }
{
    let [byte, end, rest @ ..] = text else {
        return None;
    };
    let digit = byte.wrapping_sub(b'0');
    if digit > 9 || *end != b' ' {
        return None;
    }
    Some(NumberCut {
        number: u64::from(digit),
        rest,
    })
}

/// The number at the front of a text, as `number_cut` with a space, sooner where it has one digit.
#[inline(always)]
fn cpu_number_cut(text: &[u8]) -> Option<NumberCut<'_>>
    ensures { IfSome result (λ cut. IsNumberCut text.now 32 cut) }
{
    if let Some(cut) = digit_cut(text) {
        return Some(cut);
    }
    number_cut(text, b' ')
}

/// The CPU, below this number, that a text begins with, if a space ends its name. None says nothing of the text.
#[inline(always)]
pub(crate) fn cpu_cut(cpus: u32, text: &[u8]) -> Option<NumberCut<'_>>
    ensures { IfSome result (λ cut. IsCpuCut cpus text.now cut) }
{
    let [letter, named @ ..] = text else {
        return None;
    };
    if *letter != b'c' {
        return None;
    }
    let cpu = cpu_number_cut(named)?;
    if cpu.number >= u64::from(cpus) {
        return None;
    }
    Some(cpu)
}

/// The number that a field spells, which is to be below the limit.
#[tactic(auto, unfolding(text_model::specs::ScriptLines::number_below))]
pub(crate) fn number_below(limit: u64, field: &[u8]) -> Result<u64, LineFault>
    ensures gives { Gives (λ n. n) result (number_below limit field.now) }
    ensures never_out_of_memory { result ≢ Err LineFault.NoMemory }
    ensures small { IfOk result (λ n. n < limit) }
{
    let number = number_of(field)?;
    if number >= limit {
        return Err(LineFault::OutOfRange);
    }
    Ok(number)
}

/// Whether each byte is a decimal digit.
fn are_digits(bytes: &[u8]) -> bool
    ensures { result ≡ list_all is_ascii_digit bytes.now }
{
    bytes.iter().all(|b| b.is_ascii_digit())
}

/// The digits of a field that is `c` and one digit or more, and nothing else.
fn cpu_digits(field: &[u8]) -> Option<&[u8]>
    ensures { MatchOption result (names_cpu field.now ≡ false) (λ digits.
        (names_cpu field.now ≡ true) × (digits.now ≡ drop 1 field.now)) }
{
    let [letter, digits @ ..] = field else {
        return None;
    };
    if *letter != b'c' || digits.is_empty() || !are_digits(digits) {
        return None;
    }
    Some(digits)
}

/// The CPU, one of `cpus`, that a field names.
#[tactic(auto, unfolding(text_model::specs::ScriptLines::cpu_in))]
pub(crate) fn cpu_of(cpus: u32, field: &[u8]) -> Result<CpuId, LineFault>
    ensures gives { Gives (λ cpu. cpu.0) result (cpu_in cpus field.now) }
    ensures small { IfOk result (λ cpu. cpu.0 < cpus) }
    ensures never_out_of_memory { result ≢ Err LineFault.NoMemory }
{
    let Some(digits) = cpu_digits(field) else {
        return Err(LineFault::BadLine);
    };
    let cpu = number_below(u64::from(cpus), digits)?;
    Ok(CpuId(cpu as u32))
}

/// The number of steps that a field spells.
#[tactic(auto, unfolding(text_model::specs::Script::count_in))]
pub(crate) fn count_of(field: &[u8]) -> Result<u64, LineFault>
    ensures gives { Gives (λ n. n) result (count_in field.now) }
    ensures never_out_of_memory { result ≢ Err LineFault.NoMemory }
{
    let count = number_of(field)?;
    if count < MIN_LINE_STEPS || count > MAX_LINE_STEPS {
        return Err(LineFault::OutOfRange);
    }
    Ok(count)
}
