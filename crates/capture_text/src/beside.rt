//! The names that stand beside numbers.
ghost use Rattle.std.specs.Prelude.{◌≡◌, ◌∷◌, [], MatchOption, option_map};
ghost use Rattle.std.specs.Int.{w64, cast_unsigned};
ghost use Rattle.std.specs.List.{list_all};
ghost use Rattle.trace_dat.specs.kernel_texts.Names.{event_seen};
ghost use Rattle.event_fields.specs.Lines.{field_seen};
ghost use Rattle.event_fields.specs.Numbers.{number_seen};
ghost use Rattle.event_fields.specs.Values.{value_seen};
ghost use Rattle.kernel_names.specs.SymbolNames.{symbol_seen};
ghost use Rattle.text_values.specs.Putting.{Puts};
ghost use Rattle.capture_text.specs.Beside.{bits, has_addresses, is_address_name, is_label_byte, json_task, label};
ghost use Rattle.capture_text.specs.Beside.{label_text, location, member_of, name_text, names_of, names_part};
ghost use Rattle.capture_text.specs.Beside.{names_text, rest_names, separator, task_part, value_names};
ghost use Rattle.capture_text.specs.Lent.{task_known, tasks_lent};
ghost use Rattle.capture_text.specs.Sources.{found_seen, further_text, left_seen, source_seen};

use crate::form::Form;
use crate::quoting::{put_escaped_name, put_marked, put_quoted};
use command_io::Sink;
use event_fields::{Field, FieldNumber, Value};
use kernel_names::{FieldTable, KnownSymbol, NumberNames, SymbolNames, TaskNames};
use text_values::Out;
use trace_dat::kernel_texts::EventName;

// ---- processes

/// The name of a process, if it is known.
pub(crate) fn task_of(tasks: Option<&TaskNames>, pid: i32) -> Option<&[u8]>
    ensures { option_map (λ name. name.now) result ≡ task_known (tasks_lent tasks.entry) pid }
{
    match tasks {
        Some(tasks) => tasks.name_of(pid),
        None => None,
    }
}

/// Puts the name of a process after a space, if it has one.
pub(crate) fn put_task<W: Sink>(out: &mut Out<'_, W>, task: Option<&[u8]>)
    ensures { Puts (task_part (option_map (λ name. name.now) task.entry)) out.old out.new }
{
    if let Some(name) = task {
        out.put(b" ");
        put_quoted(out, name);
    }
}

/// Puts the name of a process as a JSON member, if it has one.
pub(crate) fn put_json_task<W: Sink>(out: &mut Out<'_, W>, task: Option<&[u8]>)
    ensures { Puts (json_task (option_map (λ name. name.now) task.entry)) out.old out.new }
{
    if let Some(name) = task {
        out.put(b",\"task\":");
        put_quoted(out, name);
    }
}

// ---- where the names of a field's numbers are from

/// Where the names of a field's numbers are from.
#[derive(Clone, Copy)]
pub(crate) enum NameSource<'a> {
    /// Its numbers have none.
    Nothing,
    /// The field's table.
    Table(&'a FieldTable),
    /// The functions, by their addresses.
    Functions(&'a SymbolNames),
}

impl NameSource<'_> {
    ghost use Rattle.std.specs.Prelude.{◌≡◌, true};
    ghost use Rattle.capture_text.specs.Beside.{nothing};
    ghost use Rattle.capture_text.specs.Sources.{source_seen};

    /// Whether numbers have no names.
    pub(crate) fn is_nothing(self) -> bool
        ensures { result ≡ true → source_seen self.entry ≡ nothing }
    {
        matches!(self, NameSource::Nothing)
    }
}

/// What names the numbers of an event's fields.
#[derive(Clone, Copy)]
pub(crate) struct FieldNames<'a> {
    /// The event.
    pub(crate) event: EventName<'a>,
    /// The tables of its fields, each at the place of its field, if tables are given.
    pub(crate) tables: Option<&'a [Option<FieldTable>]>,
    /// The functions, if they are given.
    pub(crate) symbols: Option<&'a SymbolNames>,
}

/// Whether a field has addresses of functions, if its event is one of the function tracers.
fn is_address_name(name: &[u8]) -> bool
    ensures { result ≡ is_address_name name.now }
{
    name == b"ip".as_slice() || name == b"parent_ip".as_slice() || name == b"func".as_slice()
}

/// Whether a field of an event has addresses of functions.
fn has_addresses(event: EventName<'_>, field: &Field) -> bool
    ensures { result ≡ has_addresses (event_seen event.entry) (field_seen field.now) }
{
    event.system == b"ftrace".as_slice() && is_address_name(&field.name)
}

impl<'a> FieldNames<'a> {
    ghost use Rattle.std.specs.Prelude.{◌≡◌, if◌then◌else◌, None, option_map};
    ghost use Rattle.trace_dat.specs.kernel_texts.Names.{event_seen};
    ghost use Rattle.event_fields.specs.Lines.{field_seen};
    ghost use Rattle.capture_text.specs.Beside.{has_addresses, source_or_table, table_source};
    ghost use Rattle.capture_text.specs.Lent.{function_known, symbols_lent};
    ghost use Rattle.capture_text.specs.Sources.{source_at, source_seen, table_at, tables_of};

    /// The source that is the table at this place, if there is one.
    fn table_at(self, place: usize) -> NameSource<'a>
        ensures { source_seen result ≡ table_source (table_at (tables_of self.entry) place) }
    {
        let Some(tables) = self.tables else {
            return NameSource::Nothing;
        };
        match tables.get(place) {
            Some(Some(table)) => NameSource::Table(table),
            _ => NameSource::Nothing,
        }
    }

    /// The functions, if the field has their addresses, and they are given.
    fn functions_for(self, field: &Field) -> Option<&'a SymbolNames>
        ensures { option_map function_known (symbols_lent result)
            ≡ (if has_addresses (event_seen self.entry.event) (field_seen field.now)
            then option_map function_known (symbols_lent self.entry.symbols) else None) }
    {
        let symbols = self.symbols?;
        if has_addresses(self.event, field) {
            Some(symbols)
        } else {
            None
        }
    }

    /// Where the names of the field at this place are from.
    pub(crate) fn source(self, place: usize, field: &Field) -> NameSource<'a>
        ensures { source_seen result ≡ source_at self.entry place (field_seen field.now) }
    {
        match self.functions_for(field) {
            Some(symbols) => NameSource::Functions(symbols),
            None => self.table_at(place),
        }
    }
}

// ---- the names of a number

/// The names that a number has: one at least.
#[derive(Clone, Copy)]
pub(crate) enum FoundNames<'a> {
    /// The first name of a table, and what is left of its names.
    Labels(&'a [u8], NumberNames<'a>),
    /// A function, and how many bytes the number is above its address.
    Place(KnownSymbol<'a>),
}

/// The 64 bits of a number.
fn bits_of(number: FieldNumber) -> u64
    ensures { result ≡ cast_unsigned w64 (number_seen number) }
{
    match number {
        FieldNumber::Natural(number) => number,
        FieldNumber::Integer(number) => number.cast_unsigned(),
    }
}

/// The names of a number.
fn names_of(source: NameSource<'_>, number: FieldNumber) -> Option<FoundNames<'_>>
    ensures { MatchOption result (names_of (source_seen source.entry) (number_seen number) ≡ [])
        (λ found. names_of (source_seen source.entry) (number_seen number) ≡ found_seen found) }
{
    match source {
        NameSource::Nothing => None,
        NameSource::Table(table) => {
            let (first, others) = table.names_of(bits_of(number)).split_first()?;
            Some(FoundNames::Labels(first, others))
        }
        NameSource::Functions(symbols) => {
            let found = symbols.symbol_at(bits_of(number))?;
            Some(FoundNames::Place(found))
        }
    }
}

/// The names of a value.
pub(crate) fn value_names<'a>(
    source: NameSource<'a>,
    value: Option<Value<'_>>,
) -> Option<FoundNames<'a>>
    ensures { MatchOption result (value_names (source_seen source.entry) (option_map value_seen value.entry) ≡ [])
        (λ found. value_names (source_seen source.entry) (option_map value_seen value.entry) ≡ found_seen found) }
{
    match value {
        Some(Value::Number(number)) => names_of(source, number),
        _ => None,
    }
}

// ---- how they are printed

/// Whether a name has a byte without quotation marks.
fn is_label_byte(byte: u8) -> bool
    ensures { result ≡ is_label_byte byte }
{
    byte > b' ' && byte < 127 && !(byte == b'"' || byte == b'\\' || byte == b'|' || byte == b':')
}

/// Whether a name has all its bytes without quotation marks.
fn is_label(name: &[u8]) -> bool
    ensures { result ≡ list_all is_label_byte name.now }
{
    for byte in name {
        if !is_label_byte(*byte) {
            return false;
        }
    }
    true
}

/// Puts a name as text: between quotation marks if it has another byte.
fn put_label_text<W: Sink>(out: &mut Out<'_, W>, name: &[u8])
    ensures { Puts (label_text name.now) out.old out.new }
{
    if is_label(name) {
        out.put(name);
    } else {
        put_quoted(out, name);
    }
}

/// Puts a name of a table.
fn put_label<W: Sink>(out: &mut Out<'_, W>, form: Form, name: &[u8])
    ensures { Puts (name_text form (label name.now)) out.old out.new }
{
    match form {
        Form::Text => put_label_text(out, name),
        Form::Json => put_quoted(out, name),
    }
}

/// Puts bits that have no name.
fn put_bits<W: Sink>(out: &mut Out<'_, W>, form: Form, number: u64)
    ensures { Puts (name_text form (bits number)) out.old out.new }
{
    match form {
        Form::Text => out.put_hexadecimal(number),
        Form::Json => {
            out.put(b"\"");
            out.put_hexadecimal(number);
            out.put(b"\"");
        }
    }
}

/// Puts a function and how far an address is behind its beginning.
fn put_place<W: Sink>(out: &mut Out<'_, W>, form: Form, found: KnownSymbol<'_>)
    ensures { Puts (name_text form (location (symbol_seen found.entry))) out.old out.new }
{
    match form {
        Form::Text => {
            put_label_text(out, found.name);
            out.put(b"+");
            out.put_hexadecimal(found.offset);
        }
        Form::Json => {
            out.put(b"\"");
            put_escaped_name(out, found.name);
            out.put(b"+");
            out.put_hexadecimal(found.offset);
            out.put(b"\"");
        }
    }
}

/// Puts what is between two names.
fn put_separator<W: Sink>(out: &mut Out<'_, W>, form: Form)
    ensures { Puts (separator form ∷ []) out.old out.new }
{
    match form {
        Form::Text => out.put(b"|"),
        Form::Json => out.put(b","),
    }
}

/// Puts the names that are left of a number's, and its bits without a name, each after a separator.
fn put_others<W: Sink>(out: &mut Out<'_, W>, form: Form, names: NumberNames<'_>)
    ensures { Puts (further_text form (left_seen names.entry)) out.old out.new }
{
    let mut left = names;
    while let Some((name, others)) = left.split_first() {
        put_separator(out, form);
        put_label(out, form, name);
        left = others;
    }
    put_rest(out, form, left.rest());
}

/// Puts bits without a name after a separator, if there are any.
fn put_rest<W: Sink>(out: &mut Out<'_, W>, form: Form, rest: u64)
    ensures { Puts (further_text form (rest_names rest)) out.old out.new }
{
    if rest != 0 {
        put_separator(out, form);
        put_bits(out, form, rest);
    }
}

/// Puts the names of a number.
fn put_names<W: Sink>(out: &mut Out<'_, W>, form: Form, found: FoundNames<'_>)
    ensures { Puts (names_text form (found_seen found.entry)) out.old out.new }
{
    match found {
        FoundNames::Labels(first, others) => {
            put_label(out, form, first);
            put_others(out, form, others);
        }
        FoundNames::Place(found) => put_place(out, form, found),
    }
}

/// Puts the names of a value after a colon, if it has some.
pub(crate) fn put_names_part<W: Sink>(
    out: &mut Out<'_, W>,
    source: NameSource<'_>,
    value: Option<Value<'_>>,
)
    ensures { Puts (names_part (value_names (source_seen source.entry) (option_map value_seen value.entry)))
        out.old out.new }
{
    if let Some(found) = value_names(source, value) {
        out.put(b":");
        put_names(out, Form::Text, found);
    }
}

/// Puts the member of a field's names.
pub(crate) fn put_names_member<W: Sink>(out: &mut Out<'_, W>, name: &[u8], found: FoundNames<'_>)
    ensures { Puts (member_of name.now (found_seen found.entry)) out.old out.new }
{
    put_marked(out, name);
    out.put(b":[");
    put_names(out, Form::Json, found);
    out.put(b"]");
}
