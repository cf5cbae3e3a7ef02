//! What a format declares of a field.
ghost use Rattle.std.specs.Prelude.{◌≡◌};
ghost use Rattle.std.specs.Option.{option_map};
ghost use Rattle.event_fields.specs.Declarations.{declaration_seen, declaration_of, typed_in, array_in, direct_in};
ghost use Rattle.event_fields.specs.Declarations.{elsewhere_in, declaration_in};

use crate::texts::{
    after, before, cut_at, cut_at_last_space, has_no_bracket, is_name, number32_of,
};

/// How the bytes of a field are declared.
#[derive(Clone, Copy)]
pub(crate) enum Shape {
    /// As one value.
    Single,
    /// As an array, with the number of its elements if that is given as a number.
    Array(Option<u32>),
    /// As bytes that are elsewhere in the payload.
    Located,
    /// The same, counted from after the field.
    Relative,
}

/// What a format declares of a field.
#[derive(Clone, Copy)]
pub(crate) struct Declared<'a> {
    /// The type of the field, or of its elements.
    pub(crate) type_text: &'a [u8],
    /// Its name.
    pub(crate) name: &'a [u8],
    /// How its bytes are declared.
    pub(crate) shape: Shape,
}

/// The declaration of this shape, type and name, if these are a type and a name.
#[tactic(auto, unfolding(crate::specs::Declarations::declaration_of))]
fn declaration_of<'a>(shape: Shape, type_text: &'a [u8], name: &'a [u8]) -> Option<Declared<'a>>
    ensures { option_map declaration_seen result ≡ declaration_of shape type_text.now name.now }
{
    if type_text.is_empty() || !has_no_bracket(type_text) || !is_name(name) {
        return None;
    }
    Some(Declared {
        type_text,
        name,
        shape,
    })
}

/// A type and a name after the last space.
#[tactic(auto, unfolding(crate::specs::Declarations::typed_in))]
fn typed(shape: Shape, text: &[u8]) -> Option<Declared<'_>>
    ensures { option_map declaration_seen result ≡ typed_in shape text.now }
{
    let (type_text, name) = cut_at_last_space(text);
    declaration_of(shape, type_text, name)
}

/// An array whose type and name are this text, with a number of elements.
fn array<'a>(text: &'a [u8], count: &[u8]) -> Option<Declared<'a>>
    ensures { option_map declaration_seen result ≡ array_in text.now count.now }
{
    if !has_no_bracket(count) {
        return None;
    }
    typed(Shape::Array(number32_of(count)), text)
}

/// A field whose bytes are at its offset.
#[tactic(auto, unfolding(crate::specs::Declarations::direct_in))]
fn direct(text: &[u8]) -> Option<Declared<'_>>
    ensures { option_map declaration_seen result ≡ direct_in text.now }
{
    match cut_at(text, b'[') {
        Some((front, after)) => array(front, before(after, b"]")?),
        None => typed(Shape::Single, text),
    }
}

/// A field whose bytes are elsewhere.
#[tactic(auto, unfolding(crate::specs::Declarations::elsewhere_in))]
fn elsewhere(shape: Shape, text: &[u8]) -> Option<Declared<'_>>
    ensures { option_map declaration_seen result ≡ elsewhere_in shape text.now }
{
    match before(text, b"[]") {
        Some(front) => typed(shape, front),
        None => {
            let (type_text, name) = cut_at_last_space(text);
            declaration_of(shape, before(type_text, b"[]").unwrap_or(type_text), name)
        }
    }
}

/// What a declaration says.
#[tactic(auto, unfolding(crate::specs::Declarations::declaration_in))]
pub(crate) fn declaration_in(text: &[u8]) -> Option<Declared<'_>>
    ensures { option_map declaration_seen result ≡ declaration_in text.now }
{
    if let Some(rest) = after(text, b"__data_loc ") {
        return elsewhere(Shape::Located, rest);
    }
    if let Some(rest) = after(text, b"__rel_loc ") {
        return elsewhere(Shape::Relative, rest);
    }
    direct(text)
}
