//! The lines of records.
ghost use Rattle.std.specs.Prelude.{◌≡◌, ◌+◌, ◌≤◌, [], ◌∷◌, ◌++◌, codes, drop};
ghost use Rattle.std.specs.Fmt.{decimal};
ghost use Rattle.text_model.specs.Text.{space};
ghost use Rattle.text_values.specs.Digits.{pairs_of};
ghost use Rattle.time_merge.specs.Lines.{line_seen};
ghost use Rattle.world_model.specs.Printing.{printed_line};
ghost use Rattle.trace_dat.specs.kernel_texts.Names.{events_of};
ghost use Rattle.trace_dat.specs.kernel_texts.FirstBytes.{common_fields_in};
ghost use Rattle.text_values.specs.Putting.{Puts};
ghost use Rattle.event_fields.specs.Events.{HasFields};
ghost use Rattle.capture_text.specs.Fielded.{is_cut};
ghost use Rattle.capture_text.specs.Names.{json_named};
ghost use Rattle.capture_text.specs.Lent.{naming_seen, tables_lent, task_known, tasks_lent};
ghost use Rattle.capture_text.specs.Printed.{AreTables, IsDetail, IsSound};
ghost use Rattle.capture_text.specs.Printing.{Detail, record_line, is_line_cut};
ghost use Rattle.capture_text.specs.Printing.{named_line, fielded_line, json_line, json_fielded_line};
ghost use Rattle.capture_text.specs.Selection.{selection_seen};
ghost use Rattle.capture_text.specs.Listed.{listed_line, is_listed_cut};

use crate::fielded::{put_fielded, put_json_fielded};
use crate::form::Form;
use crate::names::{put_json_named, put_named};
use crate::naming::{Beside, Naming};
use crate::selection::Selection;
use command_io::Sink;
use event_fields::EventFields;
use itoa::write_digits;
use kernel_names::TaskNames;
use text_values::Out;
use time_merge::Line;
use trace_dat::kernel_texts::EventNames;

/// Room for the three numbers of a line, each of which takes at most 21 bytes with the space after it.
const FRONT: usize = 64;

/// Puts the number in decimal and a space, so that they end here, and answers where they begin.
#[inline(always)]
fn put_in_front(front: &mut [u8; FRONT], number: u64, end: usize) -> usize
    requires room { 21 ≤ end }
    requires inside { end ≤ 64 }
    ensures room { end ≤ result + 21 }
    ensures inside { result ≤ end }
    ensures written { drop result front.new ≡ decimal number ++ space ∷ drop end front.old }
{
    front[end - 1] = b' ';
    write_digits(number, front, end - 1)
}

/// Puts the numbers of a line, with a space after each.
fn put_numbers<W: Sink>(out: &mut Out<'_, W>, line: &Line<'_>)
    ensures { Puts (decimal line.now.cpu.0 ++ space ∷ decimal line.now.number.0
        ++ space ∷ decimal line.now.moment.0 ++ space ∷ []) out.old out.new }
{
    let mut front = [0; FRONT];
    let moment = put_in_front(&mut front, line.moment.0, FRONT);
    let number = put_in_front(&mut front, line.number.0, moment);
    let cpu = put_in_front(&mut front, u64::from(line.cpu.0), number);
    out.put(&front[cpu..]);
}

/// Puts a record's line.
fn put_line<W: Sink>(out: &mut Out<'_, W>, line: &Line<'_>)
    ensures { Puts (printed_line (line_seen line.now)) out.old out.new }
{
    put_numbers(out, line);
    out.put_payload(line.bytes);
    out.put(b"\n");
}

/// Puts a record's line with what its event is.
fn put_named_line<W: Sink>(
    out: &mut Out<'_, W>,
    names: &EventNames,
    tasks: Option<&TaskNames>,
    line: &Line<'_>,
)
    ensures { Puts (named_line (events_of names.now) (task_known (tasks_lent tasks.entry)) (line_seen line.now))
        out.old out.new }
{
    put_numbers(out, line);
    put_named(out, names, tasks, line.bytes);
    out.put(b" ");
    out.put_payload(line.bytes);
    out.put(b"\n");
}

/// Puts the numbers of a record as JSON members, after the mark that opens the object.
fn put_json_numbers<W: Sink>(out: &mut Out<'_, W>, line: &Line<'_>)
    ensures { Puts (codes "{\"cpu\":" ++ decimal line.now.cpu.0 ++ codes ",\"number\":"
        ++ decimal line.now.number.0 ++ codes ",\"time\":" ++ decimal line.now.moment.0) out.old out.new }
{
    out.put(b"{\"cpu\":");
    out.put_number(u64::from(line.cpu.0));
    out.put(b",\"number\":");
    out.put_number(line.number.0);
    out.put(b",\"time\":");
    out.put_number(line.moment.0);
}

/// Puts the payload of a record as a JSON member, and ends the object and the line.
fn put_json_payload<W: Sink>(out: &mut Out<'_, W>, bytes: &[u8])
    ensures { Puts (codes ",\"data\":\"" ++ pairs_of bytes.now ++ codes "\"}" ++ 10 ∷ []) out.old out.new }
{
    out.put(b",\"data\":\"");
    out.put_hex(bytes);
    out.put(b"\"}\n");
}

/// Puts a record's line as JSON.
fn put_json_line<W: Sink>(out: &mut Out<'_, W>, line: &Line<'_>)
    ensures { Puts (json_line [] (line_seen line.now)) out.old out.new }
{
    put_json_numbers(out, line);
    put_json_payload(out, line.bytes);
}

/// Puts a record's line as JSON, with what its event is.
fn put_json_named_line<W: Sink>(
    out: &mut Out<'_, W>,
    names: &EventNames,
    tasks: Option<&TaskNames>,
    line: &Line<'_>,
)
    ensures { Puts (json_line (json_named (events_of names.now) (task_known (tasks_lent tasks.entry))
        line.now.bytes.now (common_fields_in line.now.bytes.now)) (line_seen line.now)) out.old out.new }
{
    put_json_numbers(out, line);
    put_json_named(out, names, tasks, line.bytes);
    put_json_payload(out, line.bytes);
}

/// Puts a record's line with the fields of its event. Answers whether a field has no value in the payload.
fn put_fielded_line<W: Sink>(
    out: &mut Out<'_, W>,
    names: &EventNames,
    fields: &EventFields,
    beside: Beside<'_>,
    line: &Line<'_>,
) -> bool
    requires fields { HasFields fields.now (events_of names.now) }
    requires tables { AreTables (tables_lent beside.tables) (events_of names.now) }
    ensures text { Puts (fielded_line (naming_seen beside.entry) (events_of names.now)
        (task_known (tasks_lent beside.entry.tasks)) (line_seen line.now)) out.old out.new }
    ensures cut { result ≡ is_cut (events_of names.now) line.now.bytes.now (common_fields_in line.now.bytes.now) }
{
    put_numbers(out, line);
    let is_cut = put_fielded(out, names, fields, beside, line.bytes);
    out.put(b"\n");
    is_cut
}

/// Puts a record's line as JSON, with the fields of its event. Answers whether a field has no value in the payload.
fn put_json_fielded_line<W: Sink>(
    out: &mut Out<'_, W>,
    names: &EventNames,
    fields: &EventFields,
    beside: Beside<'_>,
    line: &Line<'_>,
) -> bool
    requires fields { HasFields fields.now (events_of names.now) }
    requires tables { AreTables (tables_lent beside.tables) (events_of names.now) }
    ensures text { Puts (json_fielded_line (naming_seen beside.entry) (events_of names.now)
        (task_known (tasks_lent beside.entry.tasks)) (line_seen line.now)) out.old out.new }
    ensures cut { result ≡ is_cut (events_of names.now) line.now.bytes.now (common_fields_in line.now.bytes.now) }
{
    put_json_numbers(out, line);
    let is_cut = put_json_fielded(out, names, fields, beside, line.bytes);
    out.put(b"}\n");
    is_cut
}

/// Puts a record's line with what its naming says of the event. Answers whether a field is printed that has no value in
/// the payload.
fn put_record<W: Sink>(
    out: &mut Out<'_, W>,
    form: Form,
    naming: Naming<'_>,
    line: &Line<'_>,
) -> bool
    requires { IsSound naming }
    ensures text { (detail : Detail) → IsDetail naming.entry detail
        → Puts (record_line form detail (line_seen line.now)) out.old out.new }
    ensures cut { (detail : Detail) → IsDetail naming.entry detail → result ≡ is_line_cut detail (line_seen line.now) }
{
    match (form, naming) {
        (Form::Text, Naming::Payload) => put_line(out, line),
        (Form::Text, Naming::Names(names, tasks)) => put_named_line(out, names, tasks, line),
        (Form::Text, Naming::Fields(names, fields, beside)) => {
            return put_fielded_line(out, names, fields, beside, line);
        }
        (Form::Json, Naming::Payload) => put_json_line(out, line),
        (Form::Json, Naming::Names(names, tasks)) => put_json_named_line(out, names, tasks, line),
        (Form::Json, Naming::Fields(names, fields, beside)) => {
            return put_json_fielded_line(out, names, fields, beside, line);
        }
    }
    false
}

/// Puts a record's line, if it is listed. Answers whether a field is printed that has no value in the payload.
pub(crate) fn put_listed<W: Sink>(
    out: &mut Out<'_, W>,
    form: Form,
    naming: Naming<'_>,
    selection: &Selection<'_>,
    line: &Line<'_>,
) -> bool
    requires { IsSound naming }
    ensures text { (detail : Detail) → IsDetail naming.entry detail
        → Puts (listed_line form detail (selection_seen selection.now) (line_seen line.now)) out.old out.new }
    ensures cut { (detail : Detail) → IsDetail naming.entry detail
        → result ≡ is_listed_cut detail (selection_seen selection.now) (line_seen line.now) }
{
    selection.has(line) && put_record(out, form, naming, line)
}
