//! The calls of a print format by which the kernel prints a field's number as names.
ghost use Rattle.std.specs.Prelude.{◌≡◌, ◌<◌, ◌≤◌, ⊤, ℕ, List, [], ◌∷◌, false, length, take, None, MatchOption};
ghost use Rattle.std.specs.Option.{option_map};
ghost use Rattle.event_fields.specs.Texts.{parts_of};
ghost use Rattle.kernel_names.specs.Calls.{call_seen, cut_near, bare_name, cast_name, named_in, is_closed_name};
ghost use Rattle.kernel_names.specs.Calls.{is_field, delimited, flags_in, symbols_in, call_at, calls_of, sole};
ghost use Rattle.kernel_names.specs.Calls.{print_in};
ghost use Rattle.kernel_names.specs.FieldTables.{table_in_text, table_of};

use crate::constants::is_narrow_cast;
use crate::pieces::{are_closing, unopened, unseparated};
use event_fields::texts::{after, cut_at, part_cut, position_of};

/// Within how many bytes the arguments before a table end.
const MOST_BYTES: usize = 256;

/// How a table's names stand for a number.
#[derive(Clone, Copy, Debug, PartialEq, Eq)]
pub enum TableKind {
    /// Each for some of its bits (`__print_flags`).
    Flags,
    /// One for the whole number (`__print_symbolic`).
    Symbols,
}

/// A call that prints a field's number as names.
#[derive(Clone, Copy)]
pub(crate) struct Call<'a> {
    /// How the names stand for the number.
    pub(crate) kind: TableKind,
    /// What is between two names.
    pub(crate) delimiter: &'a [u8],
    /// The text from the table on.
    pub(crate) entries: &'a [u8],
}

/// The first bytes of a text.
fn first_bytes(text: &[u8]) -> &[u8]
    ensures bytes { result.now ≡ take 256 text.now }
    ensures len { length result.now ≤ length text.now }
{
    if text.len() > MOST_BYTES {
        return &text[..MOST_BYTES];
    }
    text
}

/// What is before the first of this byte, and what is after it, if it is near.
fn cut_near(text: &[u8], byte: u8) -> Option<(&[u8], &[u8])>
    ensures { option_map (λ parts. (parts.0.now, parts.1.now)) result ≡ cut_near byte text.now }
{
    match position_of(first_bytes(text), byte) {
        Some(at) => Some((&text[..at], &text[at + 1..])),
        None => None,
    }
}

/// What is after `REC->`, which may be in brackets.
#[tactic(auto, unfolding(crate::specs::Calls::bare_name))]
fn bare_name(text: &[u8]) -> Option<&[u8]>
    ensures { option_map (λ found. found.now) result ≡ bare_name text.now }
{
    after(unopened(text), b"REC->")
}

/// What is after a cast to a type of eight bytes and `REC->`.
#[tactic(auto, unfolding(crate::specs::Calls::cast_name))]
fn cast_name(text: &[u8]) -> Option<&[u8]>
    ensures { option_map (λ found. found.now) result ≡ cast_name text.now }
{
    let (cast, rest) = cut_at(unopened(text), b')')?;
    if is_narrow_cast(cast)? {
        return None;
    }
    bare_name(rest)
}

/// What is after `REC->`, which may be in brackets and behind a cast.
#[tactic(auto, unfolding(crate::specs::Calls::named_in))]
fn named_in(text: &[u8]) -> Option<&[u8]>
    ensures { option_map (λ found. found.now) result ≡ named_in text.now }
{
    match bare_name(text) {
        Some(rest) => Some(rest),
        None => cast_name(text),
    }
}

/// Whether a text is this name, with brackets closed behind it.
fn is_closed_name(text: &[u8], name: &[u8]) -> bool
    ensures { result ≡ is_closed_name name.now text.now }
{
    match after(text, name) {
        Some(rest) => are_closing(rest),
        None => false,
    }
}

/// Whether an argument is a field as it is.
fn is_field(argument: &[u8], name: &[u8]) -> bool
    ensures { result ≡ is_field name.now argument.now }
{
    match named_in(argument) {
        Some(rest) => is_closed_name(rest, name),
        None => false,
    }
}

/// The call of this delimiter, if that is written as it is.
fn delimited<'a>(delimiter: &'a [u8], entries: &'a [u8]) -> Option<Call<'a>>
    ensures { option_map call_seen result ≡ delimited delimiter.now entries.now }
{
    if delimiter.contains(&b'\\') {
        return None;
    }
    Some(Call {
        kind: TableKind::Flags,
        delimiter,
        entries,
    })
}

/// The call of `__print_flags` of a field, by its arguments: the field, the delimiter and the table.
#[tactic(auto, unfolding(crate::specs::Calls::flags_in))]
fn flags_in<'a>(arguments: &'a [u8], name: &[u8]) -> Option<Call<'a>>
    ensures { option_map call_seen result ≡ flags_in name.now arguments.now }
{
    let (argument, rest) = cut_near(arguments, b',')?;
    if !is_field(argument, name) {
        return None;
    }
    let quoted = after(unseparated(rest), b"\"")?;
    let (delimiter, entries) = cut_near(quoted, b'"')?;
    delimited(delimiter, entries)
}

/// The call of `__print_symbolic` of a field, by its arguments: the field and the table.
#[tactic(auto, unfolding(crate::specs::Calls::symbols_in))]
fn symbols_in<'a>(arguments: &'a [u8], name: &[u8]) -> Option<Call<'a>>
    ensures { option_map call_seen result ≡ symbols_in name.now arguments.now }
{
    let (argument, entries) = cut_near(arguments, b',')?;
    if !is_field(argument, name) {
        return None;
    }
    Some(Call {
        kind: TableKind::Symbols,
        delimiter: &[],
        entries,
    })
}

/// The call of a field that a text begins with.
#[tactic(auto, unfolding(crate::specs::Calls::call_at))]
fn call_at<'a>(text: &'a [u8], name: &[u8]) -> Option<Call<'a>>
    ensures { option_map call_seen result ≡ call_at name.now text.now }
{
    match after(text, b"__print_flags(") {
        Some(arguments) => flags_in(arguments, name),
        None => symbols_in(after(text, b"__print_symbolic(")?, name),
    }
}

/// The first call of a field, and the text from its second byte on.
fn next_call<'a>(text: &'a [u8], name: &[u8]) -> Option<(Call<'a>, &'a [u8])>
    ensures { MatchOption result (calls_of name.now text.now ≡ [])
        (λ found. calls_of name.now text.now ≡ call_seen found.0 ∷ calls_of name.now found.1.now) }
{
    let mut left = text;
    while let [_, rest @ ..] = left {
        if let Some(call) = call_at(left, name) {
            return Some((call, rest));
        }
        left = rest;
    }
    None
}

/// The call of a field, if it has one and no other.
pub(crate) fn sole_call<'a>(text: &'a [u8], name: &[u8]) -> Option<Call<'a>>
    ensures { option_map call_seen result ≡ sole (calls_of name.now text.now) }
{
    let (call, rest) = next_call(text, name)?;
    match next_call(rest, name) {
        Some(_) => None,
        None => Some(call),
    }
}

/// What the print format of an event is: what is behind `print fmt: ` in the first line that begins with it.
fn print_text(format: &[u8]) -> Option<&[u8]>
    ensures { option_map (λ found. found.now) result ≡ print_in (parts_of 10 format.now) }
{
    let mut left = format;
    loop {
        let (line, rest) = part_cut(left, b'\n');
        if let Some(text) = after(line, b"print fmt: ") {
            return Some(text);
        }
        left = rest?;
    }
}

/// Whether a call that prints a field as names may begin here: none does, if the answer is no.
fn may_begin_call(text: &[u8]) -> bool
    ensures { result ≡ false → (name : List ℕ) → call_at name text.now ≡ None }
{
    text.starts_with(b"__print_")
}

/// A print format from the first such call on; empty, if there is none.
fn from_call(text: &[u8]) -> &[u8]
    ensures { (name : List ℕ) → calls_of name result.now ≡ calls_of name text.now }
{
    let mut left = text;
    while let [_, rest @ ..] = left {
        if may_begin_call(left) {
            return left;
        }
        left = rest;
    }
    left
}

/// The print format of an event from the first call on that may print a field as names; empty, if there is none.
pub(crate) fn call_text(format: &[u8]) -> &[u8]
    ensures { (name : List ℕ) → table_in_text name result.now ≡ table_of name format.now }
{
    match print_text(format) {
        Some(text) => from_call(text),
        None => &[],
    }
}
