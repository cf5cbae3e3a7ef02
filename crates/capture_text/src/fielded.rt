//! What a line says of its record's event and fields.
ghost use Rattle.std.specs.Prelude.{◌≡◌, Some};
ghost use Rattle.std.specs.Option.{option_map};
ghost use Rattle.trace_dat.specs.kernel_texts.Names.{event_seen, events_of};
ghost use Rattle.trace_dat.specs.kernel_texts.FirstBytes.{common_fields_in};
ghost use Rattle.event_fields.specs.Events.{fields_of_event, known_by, list_seen, HasFields};
ghost use Rattle.text_values.specs.Putting.{Puts};
ghost use Rattle.capture_text.specs.Fielded.{lacks_value, is_cut, payload_part, fields_or_payload, event_part};
ghost use Rattle.capture_text.specs.Fielded.{fielded_part, json_payload, json_fields_or_payload, json_event_part};
ghost use Rattle.capture_text.specs.Fielded.{json_fielded};
ghost use Rattle.capture_text.specs.Lent.{naming_seen, tables_lent, task_known, tasks_lent};
ghost use Rattle.capture_text.specs.Printed.{AreTables};
ghost use Rattle.capture_text.specs.Sources.{event_source, event_tables, given_tables, names_naming, HasTablesAt};
ghost use Rattle.capture_text.specs.Sources.{HasTablesOfList};

use crate::beside::FieldNames;
use crate::fields::{put_fields, put_json_fields};
use crate::names::{put_event_or_number, put_json_event, put_json_process, put_process};
use crate::naming::Beside;
use command_io::Sink;
use event_fields::{EventFields, FieldList};
use text_values::Out;
use trace_dat::kernel_texts::{EventName, EventNames, common_fields};

// ---- in a line of text

/// Puts the payload, after a space.
fn put_payload_part<W: Sink>(out: &mut Out<'_, W>, payload: &[u8])
    ensures { Puts (payload_part payload.now) out.old out.new }
{
    out.put(b" ");
    out.put_payload(payload);
}

/// What names the numbers of the fields of the event of this number.
fn names_for<'a>(beside: Beside<'a>, event: EventName<'a>, id: u16) -> FieldNames<'a>
    ensures event { event_seen result.event ≡ event_seen event.entry }
    ensures naming { names_naming result ≡ naming_seen beside.entry }
    ensures tables { given_tables result.tables ≡ event_tables (tables_lent beside.entry.tables) id }
{
    FieldNames {
        event,
        tables: beside.tables.map(|tables| tables.of_event(id)),
        symbols: beside.symbols,
    }
}

/// Puts the fields that an event's format describes, and the payload if one has no value in it; or the payload, if no
/// fields are known. Answers whether one has none.
fn put_list_or_payload<W: Sink>(
    out: &mut Out<'_, W>,
    names: FieldNames<'_>,
    list: &FieldList,
    payload: &[u8],
) -> bool
    requires { HasTablesOfList names (list_seen list.now) }
    ensures text { Puts (fields_or_payload (event_source names.entry) (list_seen list.now) payload.now)
        out.old out.new }
    ensures cut { result ≡ lacks_value (Some (list_seen list.now)) payload.now }
{
    match list {
        FieldList::Known(fields) => {
            let is_cut = put_fields(out, names, fields, payload);
            if is_cut {
                put_payload_part(out, payload);
            }
            is_cut
        }
        FieldList::Malformed(_) => {
            put_payload_part(out, payload);
            false
        }
    }
}

/// Puts the fields of a payload, whose event has this number, and the payload if one has no value in it; or the
/// payload, if no fields are known. Answers whether one has none.
fn put_event_part<W: Sink>(
    out: &mut Out<'_, W>,
    fields: &EventFields,
    beside: Beside<'_>,
    payload: &[u8],
    id: u16,
    event: Option<EventName<'_>>,
) -> bool
    requires fields { known_by fields.now id ≡ fields_of_event (option_map event_seen event) }
    requires tables { HasTablesAt (tables_lent beside.tables) (option_map event_seen event) id }
    ensures text { Puts (event_part (naming_seen beside.entry) (option_map event_seen event.entry) payload.now)
        out.old out.new }
    ensures cut { result ≡ lacks_value (fields_of_event (option_map event_seen event.entry)) payload.now }
{
    match (event, fields.of_event(id)) {
        (Some(event), Some(list)) => {
            put_list_or_payload(out, names_for(beside, event, id), list, payload)
        }
        _ => {
            put_payload_part(out, payload);
            false
        }
    }
}

/// Puts the process, the event and the fields of a record, whose event has this number. Answers whether one of
/// them has no value in the payload.
fn put_known_fields<W: Sink>(
    out: &mut Out<'_, W>,
    names: &EventNames,
    fields: &EventFields,
    beside: Beside<'_>,
    payload: &[u8],
    id: u16,
    pid: i32,
) -> bool
    requires fields { HasFields fields.now (events_of names.now) }
    requires tables { AreTables (tables_lent beside.tables) (events_of names.now) }
    ensures text { Puts (fielded_part (naming_seen beside.entry) (events_of names.now)
        (task_known (tasks_lent beside.entry.tasks)) payload.now (Some (record { event = id; pid = pid })))
        out.old out.new }
    ensures cut { result ≡ is_cut (events_of names.now) payload.now (Some (record { event = id; pid = pid })) }
{
    let event = names.event(id);
    put_process(out, beside.tasks, pid);
    out.put(b" ");
    put_event_or_number(out, id, event);
    put_event_part(out, fields, beside, payload, id, event)
}

/// Puts what a line says of its record's event and fields. Answers whether a field has no value in the payload.
pub(crate) fn put_fielded<W: Sink>(
    out: &mut Out<'_, W>,
    names: &EventNames,
    fields: &EventFields,
    beside: Beside<'_>,
    payload: &[u8],
) -> bool
    requires fields { HasFields fields.now (events_of names.now) }
    requires tables { AreTables (tables_lent beside.tables) (events_of names.now) }
    ensures text { Puts (fielded_part (naming_seen beside.entry) (events_of names.now)
        (task_known (tasks_lent beside.entry.tasks)) payload.now (common_fields_in payload.now)) out.old out.new }
    ensures cut { result ≡ is_cut (events_of names.now) payload.now (common_fields_in payload.now) }
{
    match common_fields(payload) {
        Some(common) => put_known_fields(
            out,
            names,
            fields,
            beside,
            payload,
            common.event,
            common.pid,
        ),
        None => {
            out.put(b"- -");
            put_payload_part(out, payload);
            false
        }
    }
}

// ---- in a JSON line

/// Puts the payload as a JSON member.
fn put_json_payload_member<W: Sink>(out: &mut Out<'_, W>, payload: &[u8])
    ensures { Puts (json_payload payload.now) out.old out.new }
{
    out.put(b",\"data\":\"");
    out.put_hex(payload);
    out.put(b"\"");
}

/// Puts the fields that an event's format describes as JSON members, and the payload if one has no value in it; or the
/// payload, if no fields are known. Answers whether one has none.
fn put_json_list_or_payload<W: Sink>(
    out: &mut Out<'_, W>,
    names: FieldNames<'_>,
    list: &FieldList,
    payload: &[u8],
) -> bool
    requires { HasTablesOfList names (list_seen list.now) }
    ensures text { Puts (json_fields_or_payload (event_source names.entry) (list_seen list.now) payload.now)
        out.old out.new }
    ensures cut { result ≡ lacks_value (Some (list_seen list.now)) payload.now }
{
    match list {
        FieldList::Known(fields) => {
            let is_cut = put_json_fields(out, names, fields, payload);
            if is_cut {
                put_json_payload_member(out, payload);
            }
            is_cut
        }
        FieldList::Malformed(_) => {
            put_json_payload_member(out, payload);
            false
        }
    }
}

/// Puts the fields of a payload, whose event has this number, as JSON members, and the payload if one has no value in
/// it; or the payload, if no fields are known. Answers whether one has none.
fn put_json_event_part<W: Sink>(
    out: &mut Out<'_, W>,
    fields: &EventFields,
    beside: Beside<'_>,
    payload: &[u8],
    id: u16,
    event: Option<EventName<'_>>,
) -> bool
    requires fields { known_by fields.now id ≡ fields_of_event (option_map event_seen event) }
    requires tables { HasTablesAt (tables_lent beside.tables) (option_map event_seen event) id }
    ensures text { Puts (json_event_part (naming_seen beside.entry) (option_map event_seen event.entry) payload.now)
        out.old out.new }
    ensures cut { result ≡ lacks_value (fields_of_event (option_map event_seen event.entry)) payload.now }
{
    match (event, fields.of_event(id)) {
        (Some(event), Some(list)) => {
            put_json_list_or_payload(out, names_for(beside, event, id), list, payload)
        }
        _ => {
            put_json_payload_member(out, payload);
            false
        }
    }
}

/// Puts the process, the event and the fields of a record, whose event has this number, as JSON members. Answers
/// whether one of them has no value in the payload.
fn put_json_known_fields<W: Sink>(
    out: &mut Out<'_, W>,
    names: &EventNames,
    fields: &EventFields,
    beside: Beside<'_>,
    payload: &[u8],
    id: u16,
    pid: i32,
) -> bool
    requires fields { HasFields fields.now (events_of names.now) }
    requires tables { AreTables (tables_lent beside.tables) (events_of names.now) }
    ensures text { Puts (json_fielded (naming_seen beside.entry) (events_of names.now)
        (task_known (tasks_lent beside.entry.tasks)) payload.now (Some (record { event = id; pid = pid })))
        out.old out.new }
    ensures cut { result ≡ is_cut (events_of names.now) payload.now (Some (record { event = id; pid = pid })) }
{
    let event = names.event(id);
    put_json_process(out, beside.tasks, pid);
    out.put(b",\"event\":");
    put_json_event(out, id, event);
    put_json_event_part(out, fields, beside, payload, id, event)
}

/// Puts what a JSON line says of its record's event and fields, and its payload if that is in the line. Answers whether
/// a field has no value in the payload.
pub(crate) fn put_json_fielded<W: Sink>(
    out: &mut Out<'_, W>,
    names: &EventNames,
    fields: &EventFields,
    beside: Beside<'_>,
    payload: &[u8],
) -> bool
    requires fields { HasFields fields.now (events_of names.now) }
    requires tables { AreTables (tables_lent beside.tables) (events_of names.now) }
    ensures text { Puts (json_fielded (naming_seen beside.entry) (events_of names.now)
        (task_known (tasks_lent beside.entry.tasks)) payload.now (common_fields_in payload.now)) out.old out.new }
    ensures cut { result ≡ is_cut (events_of names.now) payload.now (common_fields_in payload.now) }
{
    match common_fields(payload) {
        Some(common) => put_json_known_fields(
            out,
            names,
            fields,
            beside,
            payload,
            common.event,
            common.pid,
        ),
        None => {
            put_json_payload_member(out, payload);
            false
        }
    }
}
