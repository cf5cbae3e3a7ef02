//! The fields of a format.
ghost use Rattle.std.specs.Prelude.{◌≡◌, ◌++◌, ◌∷◌, [], map, IfOk};
ghost use Rattle.std.specs.Option.{option_map};
ghost use Rattle.event_fields.specs.declared.fields.FormatError.TheVariants.{NoMemory};
ghost use Rattle.event_fields.specs.Lines.{field_seen, lent_seen};
ghost use Rattle.event_fields.specs.Fields.{begins_field, ends_fields, fields_of, further_in, has_name, IsReading};
ghost use Rattle.event_fields.specs.Fields.{ReadsOn};

use crate::field::{Field, LentField};
use crate::line::field_in;
use crate::texts::part_cut;
use std::alloc::{AllocError, AllocFailed, Global};

/// How many fields a format may have.
const MOST_FIELDS: usize = 256;

/// Why the fields of a format weren't read.
#[derive(Clone, Copy, Debug, PartialEq, Eq)]
pub enum FormatError {
    /// An allocation was refused.
    NoMemory,
    /// A line that is to describe a field describes none, or one of the name of another, or one too many.
    Malformed {
        /// The offset in the text, in bytes, of the line's first byte.
        at: usize,
    },
}

impl From<AllocError> for FormatError {
    ghost from_gives = { λ _ e. e ≡ NoMemory };

    fn from(_error: AllocError) -> FormatError {
        FormatError::NoMemory
    }
}

impl<T: Drop> From<AllocFailed<T>> for FormatError {
    ghost from_gives = { λ _ e. e ≡ NoMemory };

    fn from(_error: AllocFailed<T>) -> FormatError {
        FormatError::NoMemory
    }
}

/// Whether a line is to describe a field.
#[tactic(auto, unfolding(crate::specs::Fields::begins_field))]
fn begins_field(line: &[u8]) -> bool
    ensures { result ≡ begins_field line.now }
{
    line.starts_with(b"\tfield")
}

/// Whether no line after this one speaks of fields.
#[tactic(auto, unfolding(crate::specs::Fields::ends_fields))]
fn ends_fields(line: &[u8]) -> bool
    ensures { result ≡ ends_fields line.now }
{
    line.starts_with(b"print fmt: ")
}

/// Whether one of the fields has this name.
fn has_name(fields: &[Field], name: &[u8]) -> bool
    ensures { result ≡ has_name name.now (map field_seen fields.now) }
{
    for field in fields {
        if field.name.as_slice() == name {
            return true;
        }
    }
    false
}

/// The field that a line describes after others.
#[tactic(auto, unfolding(crate::specs::Fields::further_in))]
fn further<'a>(fields: &[Field], line: &'a [u8]) -> Option<LentField<'a>>
    ensures { option_map lent_seen result ≡ further_in (map field_seen fields.now) line.now }
{
    let field = field_in(line)?;
    if fields.len() >= MOST_FIELDS || has_name(fields, field.name) {
        return None;
    }
    Some(field)
}

/// Puts a field after others.
fn put_field(fields: &mut Vec<Field>, field: LentField<'_>, alloc: Global) -> Result<(), AllocError>
    ensures { IfOk result (λ _. map field_seen fields.new.items
        ≡ map field_seen fields.old.items ++ lent_seen field.entry ∷ []) }
{
    let name = field.name.to_vec(alloc)?;
    fields.push(Field {
        name,
        layout: field.layout,
    })?;
    Ok(())
}

/// Puts the field that the line at an offset describes, if it is to describe one, after others.
fn put_line(
    fields: &mut Vec<Field>,
    at: usize,
    line: &[u8],
    alloc: Global,
) -> Result<(), FormatError>
    ensures { ReadsOn result (map field_seen fields.old.items) at line.now (map field_seen fields.new.items) }
{
    if !begins_field(line) {
        return Ok(());
    }
    let Some(field) = further(fields.as_slice(), line) else {
        return Err(FormatError::Malformed { at });
    };
    put_field(fields, field, alloc)?;
    Ok(())
}

/// The fields of a format, in their order: those of its lines that begin with a tab and `field`, before the first line
/// `print fmt: `. There are 256 at most, of different names. If a line describes none, or one too many, or one of the
/// name of another, the format is malformed at that line.
#[tactic(auto, unfolding(crate::specs::Fields::fields_of))]
pub(crate) fn read_fields(alloc: Global, format: &[u8]) -> Result<Vec<Field>, FormatError>
    ensures { IsReading result (fields_of format.now) }
{
    let mut fields = Vec::new(alloc);
    let mut at = 0;
    let mut left = format;
    loop {
        let (line, rest) = part_cut(left, b'\n');
        if ends_fields(line) {
            return Ok(fields);
        }
        put_line(&mut fields, at, line, alloc)?;
        let Some(rest) = rest else {
            return Ok(fields);
        };
        at += line.len() + 1;
        left = rest;
    }
}
