//! A line as its fields.
ghost use Rattle.std.specs.Prelude.{◌≡◌, ◌↔◌, IsTrue, [], ◌∷◌, bytes_eq};
ghost use Rattle.text_model.specs.Text.{fields_of, is_well_spaced};
ghost use Rattle.trace_script.specs.ScriptFields.{AreFields, HasNoFifth};

use crate::lines::field_cut;

/// The fields of a line, as many as some line of a script has.
#[derive(Clone, Copy)]
pub(crate) enum Fields<'a> {
    One,
    Two(&'a [u8], &'a [u8]),
    Three(&'a [u8], &'a [u8], &'a [u8]),
    /// Three fields, and the text after the space that ends the third: one field, or more.
    More(&'a [u8], &'a [u8], &'a [u8], &'a [u8]),
}

/// The fields of a line, as its spaces cut it.
pub(crate) fn fields_of(line: &[u8]) -> Fields<'_>
    ensures { AreFields result (fields_of line.now) }
{
    let (first, rest) = field_cut(line);
    let Some(rest) = rest else {
        return Fields::One;
    };
    let (second, rest) = field_cut(rest);
    let Some(rest) = rest else {
        return Fields::Two(first, second);
    };
    let (third, rest) = field_cut(rest);
    let Some(rest) = rest else {
        return Fields::Three(first, second, third);
    };
    Fields::More(first, second, third, rest)
}

/// Whether exactly one space separates any two fields of a line, and none is at either end.
pub(crate) fn is_well_spaced(line: &[u8]) -> bool
    ensures { result ≡ is_well_spaced (fields_of line.now) }
{
    let mut left = line;
    loop {
        let (field, rest) = field_cut(left);
        if field.is_empty() {
            return false;
        }
        let Some(rest) = rest else {
            return true;
        };
        left = rest;
    }
}

/// Whether there is no fifth field.
pub(crate) fn is_whole(fields: Fields) -> bool
    ensures { IsTrue result ↔ HasNoFifth fields.entry }
{
    match fields {
        Fields::More(_, _, _, rest) => field_cut(rest).1.is_none(),
        Fields::One => true,
        Fields::Two(_, _) => true,
        Fields::Three(_, _, _) => true,
    }
}

/// Whether a field is this one letter.
pub(crate) fn is_letter(field: &[u8], letter: u8) -> bool
    ensures { result ≡ bytes_eq field.now (letter ∷ []) }
{
    match field {
        [only] => *only == letter,
        _ => false,
    }
}
