//! The fields of a record.
ghost use Rattle.std.specs.Prelude.{◌≡◌, [], ◌∷◌, ◌&&◌, pos, map, flat_map, is_none, unsigned_abs, MatchOption};
ghost use Rattle.std.specs.Prelude.{option_map};
ghost use Rattle.std.specs.Fmt.{signed_decimal};
ghost use Rattle.event_fields.specs.Lines.{field_seen};
ghost use Rattle.event_fields.specs.Numbers.{number_seen};
ghost use Rattle.event_fields.specs.Values.{bytes, numbers_seen, value_of, value_seen};
ghost use Rattle.text_values.specs.Putting.{Puts};
ghost use Rattle.capture_text.specs.Fields.{comma, joined, continued, is_no_text, is_uncut, has_uncut};
ghost use Rattle.capture_text.specs.Fields.{number_text, value_text, value_or_mark, shown_text, field_text};
ghost use Rattle.capture_text.specs.Fields.{fields_text, json_member, shown_names, json_names, names_start};
ghost use Rattle.capture_text.specs.Fields.{names_continued, open_names, json_names_part, json_uncut, uncut_part};
ghost use Rattle.capture_text.specs.Fields.{json_fields};
ghost use Rattle.capture_text.specs.Beside.{member_of};
ghost use Rattle.capture_text.specs.Sources.{found_seen, source_seen, source_at, event_source, HasTablesOf};

use crate::beside::{
    FieldNames, FoundNames, NameSource, put_names_member, put_names_part, value_names,
};
use crate::form::Form;
use crate::quoting::{put_marked, put_quoted};
use command_io::Sink;
use event_fields::{Field, FieldNumber, NumberKind, Numbers, Value, value_of};
use text_values::Out;

/// How far a number is from 0.
fn magnitude(number: FieldNumber) -> u64
    ensures { result ≡ unsigned_abs (number_seen number) }
{
    match number {
        FieldNumber::Natural(number) => number,
        FieldNumber::Integer(number) => number.unsigned_abs(),
    }
}

/// Puts a number in decimal.
fn put_decimal<W: Sink>(out: &mut Out<'_, W>, number: FieldNumber)
    ensures { Puts (signed_decimal (number_seen number)) out.old out.new }
{
    match number {
        FieldNumber::Natural(number) => out.put_number(number),
        FieldNumber::Integer(number) => out.put_signed(number),
    }
}

/// Puts an address.
fn put_address<W: Sink>(out: &mut Out<'_, W>, form: Form, address: u64)
    ensures { Puts (number_text form NumberKind.Address (pos address)) out.old out.new }
{
    match form {
        Form::Text => out.put_hexadecimal(address),
        Form::Json => {
            out.put(b"\"");
            out.put_hexadecimal(address);
            out.put(b"\"");
        }
    }
}

/// Puts a number of this kind.
fn put_number<W: Sink>(out: &mut Out<'_, W>, form: Form, kind: NumberKind, number: FieldNumber)
    ensures { Puts (number_text form kind (number_seen number)) out.old out.new }
{
    match (form, kind) {
        (_, NumberKind::Signed | NumberKind::Unsigned) => put_decimal(out, number),
        (Form::Text, NumberKind::Word) => out.put_hexadecimal(magnitude(number)),
        (Form::Json, NumberKind::Word) => put_decimal(out, number),
        (_, NumberKind::Address) => put_address(out, form, magnitude(number)),
    }
}

/// Puts numbers of this kind, each after a comma.
fn put_others<W: Sink>(out: &mut Out<'_, W>, form: Form, kind: NumberKind, numbers: Numbers<'_>)
    ensures { Puts (flat_map (λ n. 44 ∷ number_text form kind n) (numbers_seen numbers.entry)) out.old out.new }
{
    let mut left = numbers;
    while let Some((number, others)) = left.split_first() {
        out.put(b",");
        put_number(out, form, kind, number);
        left = others;
    }
}

/// Puts numbers of this kind in brackets, with a comma between two.
fn put_numbers<W: Sink>(out: &mut Out<'_, W>, form: Form, kind: NumberKind, numbers: Numbers<'_>)
    ensures { Puts (value_text form kind (value_seen (Value.Numbers numbers.entry))) out.old out.new }
{
    out.put(b"[");
    if let Some((first, others)) = numbers.split_first() {
        put_number(out, form, kind, first);
        put_others(out, form, kind, others);
    }
    out.put(b"]");
}

/// Puts bytes of which nothing else is known.
fn put_bytes<W: Sink>(out: &mut Out<'_, W>, form: Form, kind: NumberKind, given: &[u8])
    ensures { Puts (value_text form kind (bytes given.now)) out.old out.new }
{
    match form {
        Form::Text => out.put_payload(given),
        Form::Json => {
            out.put(b"\"");
            out.put_hex(given);
            out.put(b"\"");
        }
    }
}

/// Puts a value, whose numbers are of this kind.
fn put_value<W: Sink>(out: &mut Out<'_, W>, form: Form, kind: NumberKind, value: Value<'_>)
    ensures { Puts (value_text form kind (value_seen value.entry)) out.old out.new }
{
    match value {
        Value::Number(number) => put_number(out, form, kind, number),
        Value::Numbers(numbers) => put_numbers(out, form, kind, numbers),
        Value::Text(text) => put_quoted(out, text),
        Value::Bytes(bytes) => put_bytes(out, form, kind, bytes),
    }
}

// ---- in a line of text

/// Puts a value, or `!` if there is none.
fn put_value_or_mark<W: Sink>(out: &mut Out<'_, W>, kind: NumberKind, value: Option<Value<'_>>)
    ensures { Puts (value_or_mark kind (option_map value_seen value.entry)) out.old out.new }
{
    match value {
        Some(value) => put_value(out, Form::Text, kind, value),
        None => out.put(b"!"),
    }
}

/// Puts a space, the name of a field, `=` and its value, or `!` if it has none in the payload, and the names that the
/// value has by this source. Answers whether it has no value.
fn put_shown<W: Sink>(
    out: &mut Out<'_, W>,
    source: NameSource<'_>,
    field: &Field,
    payload: &[u8],
) -> bool
    ensures text { Puts (shown_text (source_seen source.entry) payload.now (field_seen field.now)) out.old out.new }
    ensures uncut { result ≡ is_none (value_of field.now.layout payload.now) }
{
    out.put(b" ");
    out.put(&field.name);
    out.put(b"=");
    let value = value_of(field.layout, payload);
    put_value_or_mark(out, field.layout.kind.number_kind(), value);
    put_names_part(out, source, value);
    value.is_none()
}

/// Puts the field at a place if it is shown, and answers whether it is and has no value in the payload.
fn put_field<W: Sink>(
    out: &mut Out<'_, W>,
    names: FieldNames<'_>,
    place: usize,
    field: &Field,
    payload: &[u8],
) -> bool
    ensures text { Puts (field_text (source_at names.entry place) payload.now (field_seen field.now)) out.old out.new }
    ensures uncut { result ≡ is_uncut payload.now (field_seen field.now) }
{
    field.is_shown() && put_shown(out, names.source(place, field), field, payload)
}

/// Puts the fields that are shown, in their order, and answers whether one of them has no value in the payload.
pub(crate) fn put_fields<W: Sink>(
    out: &mut Out<'_, W>,
    names: FieldNames<'_>,
    fields: &[Field],
    payload: &[u8],
) -> bool
    requires { HasTablesOf names (map field_seen fields.now) }
    ensures text { Puts (fields_text (event_source names.entry) payload.now (map field_seen fields.now))
        out.old out.new }
    ensures uncut { result ≡ has_uncut payload.now (map field_seen fields.now) }
{
    let mut is_uncut = false;
    for (place, field) in fields.iter().enumerate() {
        is_uncut |= put_field(out, names, place, field, payload);
    }
    is_uncut
}

// ---- in a JSON line

/// Puts a comma, unless what comes is the first.
fn put_comma<W: Sink>(out: &mut Out<'_, W>, is_first: bool)
    ensures { Puts (comma is_first) out.old out.new }
{
    if !is_first {
        out.put(b",");
    }
}

/// Puts the member of a field that is shown and has a value in the payload, after a comma if it isn't the first.
/// Answers whether a member is still to be the first.
fn put_member<W: Sink>(out: &mut Out<'_, W>, is_first: bool, field: &Field, payload: &[u8]) -> bool
    ensures text { Puts (continued is_first (json_member payload.now (field_seen field.now))) out.old out.new }
    ensures first { result ≡ (is_first && is_no_text (json_member payload.now (field_seen field.now))) }
{
    if !field.is_shown() {
        return is_first;
    }
    let Some(value) = value_of(field.layout, payload) else {
        return is_first;
    };
    put_comma(out, is_first);
    put_marked(out, &field.name);
    out.put(b":");
    put_value(out, Form::Json, field.layout.kind.number_kind(), value);
    false
}

/// Puts the members of the fields that are shown and have values in the payload, with a comma between two.
fn put_members<W: Sink>(out: &mut Out<'_, W>, fields: &[Field], payload: &[u8])
    ensures { Puts (joined (flat_map (json_member payload.now) (map field_seen fields.now))) out.old out.new }
{
    let mut is_first = true;
    for field in fields {
        is_first = put_member(out, is_first, field, payload);
    }
}

/// Whether a field is shown and has no value in the payload.
fn is_uncut(field: &Field, payload: &[u8]) -> bool
    ensures { result ≡ is_uncut payload.now (field_seen field.now) }
{
    field.is_shown() && value_of(field.layout, payload).is_none()
}

/// Whether a field is such.
fn has_uncut(fields: &[Field], payload: &[u8]) -> bool
    ensures { result ≡ has_uncut payload.now (map field_seen fields.now) }
{
    for field in fields {
        if is_uncut(field, payload) {
            return true;
        }
    }
    false
}

/// Puts the name of a field that is shown and has no value in the payload, after a comma if it isn't the first. Answers
/// whether a name is still to be the first.
fn put_uncut_name<W: Sink>(
    out: &mut Out<'_, W>,
    is_first: bool,
    field: &Field,
    payload: &[u8],
) -> bool
    ensures text { Puts (continued is_first (json_uncut payload.now (field_seen field.now))) out.old out.new }
    ensures first { result ≡ (is_first && is_no_text (json_uncut payload.now (field_seen field.now))) }
{
    if !is_uncut(field, payload) {
        return is_first;
    }
    put_comma(out, is_first);
    put_marked(out, &field.name);
    false
}

/// Puts the names of the fields that are shown and have no value in the payload, with a comma between two.
fn put_uncut_names<W: Sink>(out: &mut Out<'_, W>, fields: &[Field], payload: &[u8])
    ensures { Puts (joined (flat_map (json_uncut payload.now) (map field_seen fields.now))) out.old out.new }
{
    let mut is_first = true;
    for field in fields {
        is_first = put_uncut_name(out, is_first, field, payload);
    }
}

/// What is before a member of names: the beginning of the member that has them, or a comma.
fn put_names_start<W: Sink>(out: &mut Out<'_, W>, is_first: bool)
    ensures { Puts (names_start is_first) out.old out.new }
{
    if is_first {
        out.put(b",\"names\":{");
    } else {
        out.put(b",");
    }
}

/// The names that the value of a field has, if it is shown.
fn shown_names<'a>(source: NameSource<'a>, field: &Field, payload: &[u8]) -> Option<FoundNames<'a>>
    ensures { MatchOption result
        (shown_names (source_seen source.entry) payload.now (field_seen field.now) ≡ [])
        (λ found. shown_names (source_seen source.entry) payload.now (field_seen field.now)
        ≡ member_of field.now.name.items (found_seen found) ∷ []) }
{
    if source.is_nothing() || !field.is_shown() {
        return None;
    }
    value_names(source, value_of(field.layout, payload))
}

/// Puts the names that the value of the field at a place has, if it is shown, and has some. Answers whether names are
/// still to be the first.
fn put_names_of<W: Sink>(
    out: &mut Out<'_, W>,
    is_first: bool,
    source: NameSource<'_>,
    field: &Field,
    payload: &[u8],
) -> bool
    ensures text { Puts (names_continued is_first (shown_names (source_seen source.entry) payload.now
        (field_seen field.now))) out.old out.new }
    ensures first { result ≡ (is_first && is_no_text (shown_names (source_seen source.entry) payload.now
        (field_seen field.now))) }
{
    let Some(found) = shown_names(source, field, payload) else {
        return is_first;
    };
    put_names_start(out, is_first);
    put_names_member(out, &field.name, found);
    false
}

/// Puts the names of the values of fields, if there are any, but for the brace behind them. Answers whether there are
/// none.
fn put_open_names<W: Sink>(
    out: &mut Out<'_, W>,
    names: FieldNames<'_>,
    fields: &[Field],
    payload: &[u8],
) -> bool
    requires { HasTablesOf names (map field_seen fields.now) }
    ensures text { Puts (open_names (flat_map (json_names (event_source names.entry) payload.now)
        (map field_seen fields.now))) out.old out.new }
    ensures first { result ≡ is_no_text (flat_map (json_names (event_source names.entry) payload.now)
        (map field_seen fields.now)) }
{
    let mut is_first = true;
    for (place, field) in fields.iter().enumerate() {
        is_first = put_names_of(out, is_first, names.source(place, field), field, payload);
    }
    is_first
}

/// Puts the names of the values of fields, if there are any, as a JSON member.
fn put_json_names<W: Sink>(
    out: &mut Out<'_, W>,
    names: FieldNames<'_>,
    fields: &[Field],
    payload: &[u8],
)
    requires { HasTablesOf names (map field_seen fields.now) }
    ensures { Puts (json_names_part (flat_map (json_names (event_source names.entry) payload.now)
        (map field_seen fields.now))) out.old out.new }
{
    let is_none = put_open_names(out, names, fields, payload);
    if !is_none {
        out.put(b"}");
    }
}

/// Puts the names of the fields that have no value in the payload, if there are any, as a JSON member. Answers whether
/// there are some.
fn put_uncut_part<W: Sink>(out: &mut Out<'_, W>, fields: &[Field], payload: &[u8]) -> bool
    ensures text { Puts (uncut_part (flat_map (json_uncut payload.now) (map field_seen fields.now))) out.old out.new }
    ensures uncut { result ≡ has_uncut payload.now (map field_seen fields.now) }
{
    let has_uncut = has_uncut(fields, payload);
    if has_uncut {
        out.put(b",\"uncut\":[");
        put_uncut_names(out, fields, payload);
        out.put(b"]");
    }
    has_uncut
}

/// Puts the fields that are shown, in their order, as a JSON member, the names of their values as another, and the
/// names of those that have no value in the payload as a third. Answers whether there are such.
pub(crate) fn put_json_fields<W: Sink>(
    out: &mut Out<'_, W>,
    names: FieldNames<'_>,
    fields: &[Field],
    payload: &[u8],
) -> bool
    requires { HasTablesOf names (map field_seen fields.now) }
    ensures text { Puts (json_fields (event_source names.entry) payload.now (map field_seen fields.now))
        out.old out.new }
    ensures uncut { result ≡ has_uncut payload.now (map field_seen fields.now) }
{
    out.put(b",\"fields\":{");
    put_members(out, fields, payload);
    out.put(b"}");
    put_json_names(out, names, fields, payload);
    put_uncut_part(out, fields, payload)
}
