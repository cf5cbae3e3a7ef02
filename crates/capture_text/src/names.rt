//! What a line says of its record's event.
ghost use Rattle.std.specs.Prelude.{◌≡◌, ◌++◌, ◌∷◌, []};
ghost use Rattle.std.specs.Option.{option_map};
ghost use Rattle.trace_dat.specs.kernel_texts.Names.{event_seen, events_of};
ghost use Rattle.trace_dat.specs.kernel_texts.FirstBytes.{common_fields_in};
ghost use Rattle.text_values.specs.Putting.{Puts};
ghost use Rattle.capture_text.specs.Names.{event_text, is_print, print_text, event_or_number};
ghost use Rattle.capture_text.specs.Names.{print_part, named_part, known_part, json_event, json_print, json_named};
ghost use Rattle.capture_text.specs.Names.{json_known, process_part, json_process};
ghost use Rattle.capture_text.specs.Lent.{task_known, tasks_lent};

use crate::beside::{put_json_task, put_task, task_of};
use crate::quoting::{put_name, put_quoted};
use command_io::Sink;
use event_fields::before_zero;
use kernel_names::TaskNames;
use text_values::Out;
use trace_dat::kernel_texts::{EventName, EventNames, common_fields};

/// How many bytes are before the text of a print: the fields that all events have, and an address.
const PRINT_TEXT: usize = 16;

/// Puts the names of an event.
fn put_event<W: Sink>(out: &mut Out<'_, W>, event: EventName<'_>)
    ensures { Puts (event_text (event_seen event.entry)) out.old out.new }
{
    put_name(out, event.system);
    out.put(b":");
    put_name(out, event.name);
}

/// Whether the event is what a program prints.
fn is_print(event: Option<EventName<'_>>) -> bool
    ensures { result ≡ is_print (option_map event_seen event.entry) }
{
    match event {
        Some(event) => event.system == b"ftrace".as_slice() && event.name == b"print".as_slice(),
        None => false,
    }
}

/// The text of what a program printed.
fn print_text(bytes: &[u8]) -> &[u8]
    ensures { result.now ≡ print_text bytes.now }
{
    if bytes.len() < PRINT_TEXT {
        return &[];
    }
    before_zero(&bytes[PRINT_TEXT..])
}

// ---- in a line of text

/// Puts the event, or its number.
pub(crate) fn put_event_or_number<W: Sink>(
    out: &mut Out<'_, W>,
    id: u16,
    event: Option<EventName<'_>>,
)
    ensures { Puts (event_or_number id (option_map event_seen event.entry)) out.old out.new }
{
    match event {
        Some(event) => put_event(out, event),
        None => out.put_number(u64::from(id)),
    }
}

/// Puts the text of a print.
fn put_print<W: Sink>(out: &mut Out<'_, W>, event: Option<EventName<'_>>, bytes: &[u8])
    ensures { Puts (print_part (option_map event_seen event.entry) bytes.now) out.old out.new }
{
    if is_print(event) {
        out.put(b" ");
        put_quoted(out, print_text(bytes));
    }
}

/// Puts a process, and its name if it has one.
pub(crate) fn put_process<W: Sink>(out: &mut Out<'_, W>, tasks: Option<&TaskNames>, pid: i32)
    ensures { Puts (process_part pid (task_known (tasks_lent tasks.entry) pid)) out.old out.new }
{
    out.put_signed(i64::from(pid));
    put_task(out, task_of(tasks, pid));
}

/// Puts the process and the event of a record, whose event has this number.
fn put_known<W: Sink>(
    out: &mut Out<'_, W>,
    names: &EventNames,
    tasks: Option<&TaskNames>,
    bytes: &[u8],
    id: u16,
    pid: i32,
)
    ensures { Puts (known_part (events_of names.now) (task_known (tasks_lent tasks.entry)) bytes.now id pid)
        out.old out.new }
{
    let event = names.event(id);
    put_process(out, tasks, pid);
    out.put(b" ");
    put_event_or_number(out, id, event);
    put_print(out, event, bytes);
}

/// Puts what a line says of its record's event.
pub(crate) fn put_named<W: Sink>(
    out: &mut Out<'_, W>,
    names: &EventNames,
    tasks: Option<&TaskNames>,
    bytes: &[u8],
)
    ensures { Puts (named_part (events_of names.now) (task_known (tasks_lent tasks.entry)) bytes.now
        (common_fields_in bytes.now)) out.old out.new }
{
    match common_fields(bytes) {
        Some(fields) => put_known(out, names, tasks, bytes, fields.event, fields.pid),
        None => out.put(b"- -"),
    }
}

// ---- in a JSON line

/// Puts the event, or its number, as a JSON value.
pub(crate) fn put_json_event<W: Sink>(out: &mut Out<'_, W>, id: u16, event: Option<EventName<'_>>)
    ensures { Puts (json_event id (option_map event_seen event.entry)) out.old out.new }
{
    match event {
        Some(event) => put_json_name(out, event),
        None => out.put_number(u64::from(id)),
    }
}

/// Puts the names of an event between quotation marks.
fn put_json_name<W: Sink>(out: &mut Out<'_, W>, event: EventName<'_>)
    ensures { Puts (34 ∷ event_text (event_seen event.entry) ++ 34 ∷ []) out.old out.new }
{
    out.put(b"\"");
    put_event(out, event);
    out.put(b"\"");
}

/// Puts the text of a print as a JSON member.
fn put_json_print<W: Sink>(out: &mut Out<'_, W>, event: Option<EventName<'_>>, bytes: &[u8])
    ensures { Puts (json_print (option_map event_seen event.entry) bytes.now) out.old out.new }
{
    if is_print(event) {
        out.put(b",\"text\":");
        put_quoted(out, print_text(bytes));
    }
}

/// Puts a process, and its name if it has one, as JSON members.
pub(crate) fn put_json_process<W: Sink>(out: &mut Out<'_, W>, tasks: Option<&TaskNames>, pid: i32)
    ensures { Puts (json_process pid (task_known (tasks_lent tasks.entry) pid)) out.old out.new }
{
    out.put(b",\"pid\":");
    out.put_signed(i64::from(pid));
    put_json_task(out, task_of(tasks, pid));
}

/// Puts the process and the event of a record, whose event has this number, as JSON members.
fn put_json_known<W: Sink>(
    out: &mut Out<'_, W>,
    names: &EventNames,
    tasks: Option<&TaskNames>,
    bytes: &[u8],
    id: u16,
    pid: i32,
)
    ensures { Puts (json_known (events_of names.now) (task_known (tasks_lent tasks.entry)) bytes.now id pid)
        out.old out.new }
{
    let event = names.event(id);
    put_json_process(out, tasks, pid);
    out.put(b",\"event\":");
    put_json_event(out, id, event);
    put_json_print(out, event, bytes);
}

/// Puts what a JSON line says of its record's event.
pub(crate) fn put_json_named<W: Sink>(
    out: &mut Out<'_, W>,
    names: &EventNames,
    tasks: Option<&TaskNames>,
    bytes: &[u8],
)
    ensures { Puts (json_named (events_of names.now) (task_known (tasks_lent tasks.entry)) bytes.now
        (common_fields_in bytes.now)) out.old out.new }
{
    if let Some(fields) = common_fields(bytes) {
        put_json_known(out, names, tasks, bytes, fields.event, fields.pid);
    }
}
