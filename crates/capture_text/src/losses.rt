//! Lines for missing runs, losses of unknown number, and damaged pages.
ghost use Rattle.std.specs.Prelude.{◌≡◌, ℕ, [], ◌++◌, List, codes, flat_map, option_map, slice_index_or};
ghost use Rattle.std.specs.Fmt.{decimal};
ghost use Rattle.collector.specs.Runs.{AreMissingRuns};
ghost use Rattle.capture.specs.Captures.{numbers_of};
ghost use Rattle.world_model.specs.Printing.{printed_missing};
ghost use Rattle.dump_command.specs.ImageFaults.{reader_fault_text, word_fault_text};
ghost use Rattle.text_values.specs.Putting.{Puts};
ghost use Rattle.capture_text.specs.Printing.{json_missing, run_line, unknown_line, damaged_line, reported_line};
ghost use Rattle.capture_text.specs.Printing.{late_line};
ghost use Rattle.capture_text.specs.Selection.{selection_seen};
ghost use Rattle.capture_text.specs.Window.{bound_at, bound_seen, listed_bound};
ghost use Rattle.capture_text.specs.Listed.{is_run_listed, is_place_listed, listed_run, listed_runs};
ghost use Rattle.capture_text.specs.Listed.{listed_loss, listed_losses, listed_page};

use crate::form::Form;
use crate::offsets::offset_of;
use crate::selection::Selection;
use crate::window::{Bound, Window};
use capture::{Damaged, Part};
use collector::Collector;
use command_io::Sink;
use itoa::Buffer;
use page_image::ImageFault;
use record_words::WordFault;
use text_values::Out;
use time_merge::Line;
use trace_model::{CpuId, MAX_CPUS, RecordNo};

/// Whether a missing run of a CPU is listed; the CPU is if it has a bound.
fn is_run_listed(bound: Option<Bound>, first: RecordNo, last: RecordNo) -> bool
    ensures { result ≡ is_run_listed (option_map bound_seen bound) (first.0, last.0) }
{
    match bound {
        Some(bound) => bound.has_run(first, last),
        None => false,
    }
}

/// Whether records of a CPU that were lost before this number are listed.
fn is_place_listed(bound: Option<Bound>, number: RecordNo) -> bool
    ensures { result ≡ is_place_listed (option_map bound_seen bound) number.0 }
{
    match bound {
        Some(bound) => bound.has_place(number),
        None => false,
    }
}

/// Puts a number with text around it.
fn put_between<W: Sink>(out: &mut Out<'_, W>, before: &[u8], number: u64, after: &[u8])
    ensures { Puts (before.now ++ decimal number ++ after.now) out.old out.new }
{
    out.put_numbered(before, number);
    out.put(after);
}

/// Puts the line of a missing run as text.
fn put_text_run<W: Sink>(out: &mut Out<'_, W>, cpu: u64, first: RecordNo, last: RecordNo)
    ensures { Puts (printed_missing cpu (first.0, last.0)) out.old out.new }
{
    put_between(out, b"missing ", cpu, b" ");
    out.put_number(first.0);
    put_between(out, b"-", last.0, b"\n");
}

/// Puts the line of a missing run as JSON.
fn put_json_run<W: Sink>(out: &mut Out<'_, W>, cpu: u64, first: RecordNo, last: RecordNo)
    ensures { Puts (json_missing cpu (first.0, last.0)) out.old out.new }
{
    put_between(out, b"{\"cpu\":", cpu, b",\"missing\":[");
    out.put_number(first.0);
    put_between(out, b",", last.0, b"]}\n");
}

/// Puts the line of a missing run.
fn put_run<W: Sink>(out: &mut Out<'_, W>, form: Form, cpu: CpuId, first: RecordNo, last: RecordNo)
    ensures { Puts (run_line form cpu.0 (first.0, last.0)) out.old out.new }
{
    let cpu = u64::from(cpu.0);
    match form {
        Form::Text => put_text_run(out, cpu, first, last),
        Form::Json => put_json_run(out, cpu, first, last),
    }
}

/// Puts the line of a missing run, if it is listed.
pub(crate) fn put_listed_run<W: Sink>(
    out: &mut Out<'_, W>,
    form: Form,
    bound: Option<Bound>,
    cpu: CpuId,
    first: RecordNo,
    last: RecordNo,
)
    ensures { Puts (listed_run form (option_map bound_seen bound) cpu.0 (first.0, last.0)) out.old out.new }
{
    if is_run_listed(bound, first, last) {
        put_run(out, form, cpu, first, last);
    }
}

/// Puts the lines of the missing runs of one CPU.
fn put_runs_of<W: Sink>(
    out: &mut Out<'_, W>,
    form: Form,
    bound: Option<Bound>,
    collector: &Collector,
    cpu: CpuId,
)
    ensures { (runs : List (ℕ × ℕ)) × AreMissingRuns collector.now cpu.0 runs
        × Puts (flat_map (listed_run form (option_map bound_seen bound) cpu.0) runs) out.old out.new }
{
    for (first, last) in collector.missing(cpu) {
        put_listed_run(out, form, bound, cpu, first, last);
    }
}

/// Puts the lines of the missing runs of each CPU.
pub(crate) fn put_runs<W: Sink>(
    out: &mut Out<'_, W>,
    form: Form,
    selection: &Selection<'_>,
    window: &Window,
    collector: &Collector,
)
    ensures { (runs : List (List (ℕ × ℕ)))
        × ((cpu : ℕ) → AreMissingRuns collector.now cpu (slice_index_or runs cpu []))
        × Puts (listed_runs form (listed_bound (selection_seen selection.now) (bound_at window.now)) runs)
        out.old out.new }
{
    let _parcels = collector.parcels();
    for cpu in 0..MAX_CPUS {
        let cpu = CpuId(cpu);
        put_runs_of(out, form, window.of(selection, cpu), collector, cpu);
    }
}

/// Puts the line of a loss of unknown number.
fn put_loss<W: Sink>(out: &mut Out<'_, W>, form: Form, cpu: CpuId, number: RecordNo)
    ensures { Puts (unknown_line form cpu.0 number.0) out.old out.new }
{
    let cpu = u64::from(cpu.0);
    match form {
        Form::Text => {
            put_between(out, b"unknown ", cpu, b" ");
            put_between(out, b"", number.0, b"\n");
        }
        Form::Json => {
            put_between(out, b"{\"cpu\":", cpu, b",\"unknown\":");
            put_between(out, b"", number.0, b"}\n");
        }
    }
}

/// Puts the line of a loss of unknown number, if it is listed.
fn put_listed_loss<W: Sink>(
    out: &mut Out<'_, W>,
    form: Form,
    bound: Option<Bound>,
    cpu: CpuId,
    number: RecordNo,
)
    ensures { Puts (listed_loss form (option_map bound_seen bound) cpu.0 number.0) out.old out.new }
{
    if is_place_listed(bound, number) {
        put_loss(out, form, cpu, number);
    }
}

/// Puts the lines of these losses.
pub(crate) fn put_losses<W: Sink>(
    out: &mut Out<'_, W>,
    form: Form,
    bound: Option<Bound>,
    cpu: CpuId,
    numbers: &[RecordNo],
)
    ensures { Puts (listed_losses form (option_map bound_seen bound) cpu.0 (numbers_of numbers.now)) out.old out.new }
{
    for number in numbers {
        put_listed_loss(out, form, bound, cpu, *number);
    }
}

/// Puts that a record comes later than its place.
pub(crate) fn put_late<W: Sink>(out: &mut Out<'_, W>, form: Form, line: &Line<'_>)
    ensures { Puts (late_line form line.now.cpu.0 line.now.number.0) out.old out.new }
{
    let cpu = u64::from(line.cpu.0);
    match form {
        Form::Text => {
            put_between(out, b"late ", cpu, b" ");
            put_between(out, b"", line.number.0, b"\n");
        }
        Form::Json => {
            put_between(out, b"{\"cpu\":", cpu, b",\"late\":");
            put_between(out, b"", line.number.0, b"}\n");
        }
    }
}

/// Puts the name of a cause, and where it is.
fn put_cause<W: Sink>(out: &mut Out<'_, W>, cause: &[u8], at: usize)
    ensures { Puts (cause.now ++ codes " at " ++ decimal at) out.old out.new }
{
    out.put(cause);
    out.put(b" at ");
    out.put_number(at as u64);
}

/// Puts what is wrong with a word.
fn put_word_fault<W: Sink>(out: &mut Out<'_, W>, fault: WordFault)
    ensures { Puts (word_fault_text fault) out.old out.new }
{
    match fault {
        WordFault::Cut(at) => put_cause(out, b"Cut", at),
        WordFault::BadLength(at) => put_cause(out, b"BadLength", at),
        WordFault::TimeOverflow(at) => put_cause(out, b"TimeOverflow", at),
    }
}

/// Puts what is wrong with a page. The refusal of memory is no fault of a page, and has no text.
fn put_fault<W: Sink>(out: &mut Out<'_, W>, fault: ImageFault)
    ensures { Puts (reader_fault_text fault) out.old out.new }
{
    match fault {
        ImageFault::TooShort => out.put(b"TooShort"),
        ImageFault::BadSize => out.put(b"BadSize"),
        ImageFault::BadCount => out.put(b"BadCount"),
        ImageFault::Word(fault) => put_word_fault(out, fault),
        ImageFault::NoMemory => out.put(b""),
    }
}

/// Puts where a page begins.
fn put_offset<W: Sink>(out: &mut Out<'_, W>, offset: u128)
    ensures { Puts (decimal offset) out.old out.new }
{
    let mut digits = Buffer::new();
    out.put(digits.format(offset).as_bytes());
}

/// Puts the line of a damaged page as text.
fn put_page<W: Sink>(out: &mut Out<'_, W>, cpu: u64, damaged: &Damaged, offset: u128)
    ensures { Puts (damaged_line Form.Text cpu damaged.now.number.0 damaged.now.page offset
        (reader_fault_text damaged.now.fault)) out.old out.new }
{
    put_between(out, b"damaged ", cpu, b" ");
    put_between(out, b"", damaged.number.0, b" page ");
    put_between(out, b"", damaged.page, b" byte ");
    put_offset(out, offset);
    out.put(b": ");
    put_fault(out, damaged.fault);
    out.put(b"\n");
}

/// Puts the line of a damaged page as JSON.
fn put_json_page<W: Sink>(out: &mut Out<'_, W>, cpu: u64, damaged: &Damaged, offset: u128)
    ensures { Puts (damaged_line Form.Json cpu damaged.now.number.0 damaged.now.page offset
        (reader_fault_text damaged.now.fault)) out.old out.new }
{
    put_between(out, b"{\"cpu\":", cpu, b",\"damaged\":");
    put_between(out, b"", damaged.number.0, b",\"page\":");
    put_between(out, b"", damaged.page, b",\"byte\":");
    put_offset(out, offset);
    out.put(b",\"fault\":\"");
    put_fault(out, damaged.fault);
    out.put(b"\"}\n");
}

/// Puts the line of a damaged page.
fn put_damage<W: Sink>(
    out: &mut Out<'_, W>,
    form: Form,
    cpu: CpuId,
    damaged: &Damaged,
    parts: &[Part],
)
    ensures { Puts (reported_line form parts.now cpu.0 damaged.now) out.old out.new }
{
    let cpu = u64::from(cpu.0);
    let offset = offset_of(parts, damaged.page);
    match form {
        Form::Text => put_page(out, cpu, damaged, offset),
        Form::Json => put_json_page(out, cpu, damaged, offset),
    }
}

/// Puts the line of a damaged page, if it is listed.
fn put_listed_damage<W: Sink>(
    out: &mut Out<'_, W>,
    form: Form,
    bound: Option<Bound>,
    cpu: CpuId,
    damaged: &Damaged,
    parts: &[Part],
)
    ensures { Puts (listed_page form (option_map bound_seen bound) parts.now cpu.0 damaged.now) out.old out.new }
{
    if is_place_listed(bound, damaged.number) {
        put_damage(out, form, cpu, damaged, parts);
    }
}

/// Puts the lines of these pages.
pub(crate) fn put_damages<W: Sink>(
    out: &mut Out<'_, W>,
    form: Form,
    bound: Option<Bound>,
    cpu: CpuId,
    pages: &[Damaged],
    parts: &[Part],
)
    ensures { Puts (flat_map (listed_page form (option_map bound_seen bound) parts.now cpu.0) pages.now)
        out.old out.new }
{
    for damaged in pages {
        put_listed_damage(out, form, bound, cpu, damaged, parts);
    }
}
