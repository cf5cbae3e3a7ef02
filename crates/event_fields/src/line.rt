//! What a line of a format says of a field.
ghost use Rattle.std.specs.Prelude.{◌≡◌};
ghost use Rattle.std.specs.Option.{option_map};
ghost use Rattle.event_fields.specs.Declarations.{declaration_seen};
ghost use Rattle.event_fields.specs.Lines.{lent_seen, number_kind, element_size, single_kind, numbers_kind, array_kind};
ghost use Rattle.event_fields.specs.Lines.{kind_of, place_of, number_after, sign_in, measures_in, field_of, field_in};

use crate::declaration::{Declared, Shape, declaration_in};
use crate::field::{Kind, Layout, LentField, NumberKind, NumberSize, Place};
use crate::numbers::size_for;
use crate::texts::{after, cut_at, number32_of};
use crate::types::{is_named, is_pointer, type_size};

/// Which numbers those of a type are.
#[tactic(auto, unfolding(crate::specs::Lines::number_kind))]
fn number_kind(type_text: &[u8], is_signed: bool) -> NumberKind
    ensures { result ≡ number_kind type_text.now is_signed }
{
    if is_pointer(type_text) {
        return NumberKind::Address;
    }
    if is_signed {
        return NumberKind::Signed;
    }
    if is_named(type_text, b"unsigned long") {
        return NumberKind::Word;
    }
    NumberKind::Unsigned
}

/// The size of an element of an array that has `size` bytes.
fn element_size(shape: Shape, type_text: &[u8], size: u32) -> Option<NumberSize>
    ensures { result ≡ element_size shape type_text.now size }
{
    match shape {
        Shape::Array(Some(count)) => counted_size(count, type_text, size),
        Shape::Array(None) => type_size(type_text),
        Shape::Single => type_size(type_text),
        Shape::Located => type_size(type_text),
        Shape::Relative => type_size(type_text),
    }
}

/// The size of an element of an array of `count` elements that has `size` bytes.
fn counted_size(count: u32, type_text: &[u8], size: u32) -> Option<NumberSize>
    ensures { result ≡ element_size (Shape.Array (Some count)) type_text.now size }
{
    if size > 0 && count > 0 && size % count == 0 {
        return size_for((size / count) as usize);
    }
    type_size(type_text)
}

/// What one value of some size says.
fn single_kind(numbers: NumberKind, size: Option<NumberSize>) -> Kind
    ensures { result ≡ single_kind numbers size }
{
    match size {
        Some(_) => Kind::Number(numbers),
        None => Kind::Bytes,
    }
}

/// What numbers of some size say.
fn numbers_kind(numbers: NumberKind, size: Option<NumberSize>) -> Kind
    ensures { result ≡ numbers_kind numbers size }
{
    match size {
        Some(size) => Kind::Numbers(numbers, size),
        None => Kind::Bytes,
    }
}

/// What an array says.
#[tactic(auto, unfolding(crate::specs::Lines::array_kind))]
fn array_kind(shape: Shape, type_text: &[u8], size: u32, is_signed: bool) -> Kind
    ensures { result ≡ array_kind shape type_text.now size is_signed }
{
    if is_named(type_text, b"char") {
        return Kind::Text;
    }
    let numbers = number_kind(type_text, is_signed);
    numbers_kind(numbers, element_size(shape, type_text, size))
}

/// What a field says.
fn kind_of(shape: Shape, type_text: &[u8], size: u32, is_signed: bool) -> Kind
    ensures { result ≡ kind_of shape type_text.now size is_signed }
{
    match shape {
        Shape::Single => single_kind(number_kind(type_text, is_signed), size_for(size as usize)),
        Shape::Array(_) => array_kind(shape, type_text, size, is_signed),
        Shape::Located => array_kind(shape, type_text, size, is_signed),
        Shape::Relative => array_kind(shape, type_text, size, is_signed),
    }
}

/// Where the bytes of a field are.
fn place_of(shape: Shape, size: u32) -> Option<Place>
    ensures { result ≡ place_of shape size }
{
    match shape {
        Shape::Array(_) if size == 0 => Some(Place::Rest),
        Shape::Array(_) => Some(Place::Here(size)),
        Shape::Single => Some(Place::Here(size)),
        Shape::Located if size == 4 => Some(Place::Located),
        Shape::Relative if size == 4 => Some(Place::Relative),
        Shape::Located => None,
        Shape::Relative => None,
    }
}

/// A number after a word and before a semicolon, and what is after that.
#[tactic(auto, unfolding(crate::specs::Lines::number_after))]
fn number_after<'a>(text: &'a [u8], word: &[u8]) -> Option<(u32, &'a [u8])>
    ensures { option_map (λ parts. (parts.0, parts.1.now)) result ≡ number_after word.now text.now }
{
    let rest = after(text, word)?;
    let (digits, left) = cut_at(rest, b';')?;
    let number = number32_of(digits)?;
    Some((number, left))
}

/// Whether the numbers are signed, which the last part of a line says.
#[tactic(auto, unfolding(crate::specs::Lines::sign_in))]
fn sign_of(text: &[u8]) -> Option<bool>
    ensures { result ≡ sign_in text.now }
{
    if text == b"\tsigned:1;".as_slice() {
        return Some(true);
    }
    if text == b"\tsigned:0;".as_slice() {
        return Some(false);
    }
    None
}

/// The offset and the size that a line states, and whether the numbers are signed.
#[tactic(auto, unfolding(crate::specs::Lines::measures_in))]
fn measures_of(text: &[u8]) -> Option<(u32, u32, bool)>
    ensures { result ≡ measures_in text.now }
{
    let (offset, rest) = number_after(text, b"\toffset:")?;
    let (size, rest) = number_after(rest, b"\tsize:")?;
    let is_signed = sign_of(rest)?;
    Some((offset, size, is_signed))
}

/// The field of this declaration, with these measures.
#[tactic(auto, unfolding(crate::specs::Lines::field_of))]
fn field_of(declared: Declared<'_>, measures: (u32, u32, bool)) -> Option<LentField<'_>>
    ensures { option_map lent_seen result ≡ field_of (declaration_seen declared.entry) measures }
{
    let (at, size, is_signed) = measures;
    let place = place_of(declared.shape, size)?;
    let kind = kind_of(declared.shape, declared.type_text, size, is_signed);
    Some(LentField {
        name: declared.name,
        layout: Layout { at, place, kind },
    })
}

/// The field that a line describes.
#[tactic(auto, unfolding(crate::specs::Lines::field_in))]
pub(crate) fn field_in(line: &[u8]) -> Option<LentField<'_>>
    ensures { option_map lent_seen result ≡ field_in line.now }
{
    let rest = after(line, b"\tfield:")?;
    let (declaration, left) = cut_at(rest, b';')?;
    let declared = declaration_in(declaration)?;
    let measures = measures_of(left)?;
    field_of(declared, measures)
}
