//! The names of functions, by the kernel's list of its symbols: a line `ADDRESS TYPE NAME` for each.
ghost use Rattle.std.specs.Prelude.{◌≡◌, ◌<◌, length, position, nat_le, IfSome};
ghost use Rattle.std.specs.Option.{option_map};
ghost use Rattle.kernel_names.specs.Symbols.{after_kind, is_function_kind, lent_seen, name_at, symbol_in, symbol_of};

use crate::digits::digits_of;
use event_fields::texts::cut_at;

/// A function of the kernel, whose name is lent.
#[derive(Clone, Copy)]
pub(crate) struct LentSymbol<'a> {
    /// Its address, which isn't 0.
    pub(crate) address: u64,
    /// Its name.
    pub(crate) name: &'a [u8],
}

/// Whether a symbol of this type is a function.
fn is_function_kind(kind: u8) -> bool
    ensures { result ≡ is_function_kind kind }
{
    kind == b't' || kind == b'T' || kind == b'w' || kind == b'W'
}

/// What is after the type of a function and a space.
fn after_kind(text: &[u8]) -> Option<&[u8]>
    ensures { option_map (λ found. found.now) result ≡ after_kind text.now }
{
    match text {
        [kind, space, rest @ ..] if is_function_kind(*kind) && *space == b' ' => Some(rest),
        _ => None,
    }
}

/// The position of the first blank or control character.
fn blank_in(text: &[u8]) -> Option<usize>
    ensures place { result ≡ position (λ b. nat_le b 32) text.now }
    ensures within { IfSome result (λ at. at < length text.now) }
{
    text.iter().position(|byte| *byte <= b' ')
}

/// The name that a text begins with: its bytes up to the first blank or control character.
#[tactic(auto, unfolding(crate::specs::Symbols::name_at))]
pub(crate) fn name_at(text: &[u8]) -> &[u8]
    ensures { result.now ≡ name_at text.now }
{
    match blank_in(text) {
        Some(end) => &text[..end],
        None => text,
    }
}

/// The function of this address and name, if these are an address and a name.
#[tactic(auto, unfolding(crate::specs::Symbols::symbol_of))]
fn symbol_of(address: u64, name: &[u8]) -> Option<LentSymbol<'_>>
    ensures symbol { option_map lent_seen result ≡ symbol_of address name.now }
    ensures named { IfSome result (λ symbol. symbol.name.now ≡ name.now) }
{
    if address == 0 || name.is_empty() {
        return None;
    }
    Some(LentSymbol { address, name })
}

/// The function that a line names.
#[tactic(auto, unfolding(crate::specs::Symbols::symbol_in))]
pub(crate) fn symbol_in(line: &[u8]) -> Option<LentSymbol<'_>>
    ensures symbol { option_map lent_seen result ≡ symbol_in line.now }
    ensures whole { IfSome result (λ symbol. name_at symbol.name.now ≡ symbol.name.now) }
{
    let (digits, rest) = cut_at(line, b' ')?;
    let address = digits_of(digits, 16)?;
    let named = after_kind(rest)?;
    symbol_of(address, name_at(named))
}
