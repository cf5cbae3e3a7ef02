//! The listing of raw captures whose pages are read while they are listed.
ghost use Rattle.std.specs.Prelude.{◌≡◌, ◌≤◌, ◌++◌, ℕ, false, true, List, None, IsSome, flat_map};
ghost use Rattle.std.specs.Prelude.{IfOk, OnErr};
ghost use Rattle.std.specs.List.{AllByRecursion};
ghost use Rattle.capture.specs.Pages.{Page};
ghost use Rattle.capture_text.specs.Listed.{listed_run};
ghost use Rattle.capture_text.specs.Printed.{IsSound, bounds_of};
ghost use Rattle.capture_text.specs.Printing.{Detail};
ghost use Rattle.capture_text.specs.Selection.{selection_seen};
ghost use Rattle.command_io.specs.Written.{IsTextWritten};
ghost use Rattle.text_values.specs.Putting.{Start, contents_of, has_failed, HasPut, KeepsWriter, Puts};
ghost use Rattle.page_lines.specs.Tallies.{IsTally, runs_from};
ghost use Rattle.collect_command.specs.Paged.{RawFile, AreRawOf, CpusRise, HasEnded, raw_runs};
ghost use Rattle.collect_command.specs.Paged.{raw_unknown, raw_damaged};
ghost use Rattle.collect_command.specs.Paged.{raw_intact, raw_losses, ListsPages, said_behind};
ghost use Rattle.collect_command.specs.Paged.{ending_for, first_halt, halt_ending};
ghost use Rattle.collect_command.specs.Listings.{Describes};

use crate::ending::{Ending, Listed};
use crate::listing::ending_of;
use capture::Part;
use capture_text::{Form, Naming, Printer, Selection, Window};
use command_io::{Sink, Source};
use event_fields::MalformedEvent;
use page_lines::{Halt, PageLines, Tally};
use std::alloc::Global;
use text_values::{Out, TextBuffer, finish, finish_memory};
use time_merge::walk_sources;
use trace_model::{NoMemory, RecordNo};

/// Prints the runs of missing numbers of a CPU.
fn print_runs_of<W: Sink>(printer: &Printer<'_>, out: &mut Out<'_, W>, tally: &Tally)
    ensures { (pages : List Page) → IsTally tally.now pages
        → Puts (flat_map (listed_run printer.now.form (bounds_of printer.now tally.now.cpu.0) tally.now.cpu.0)
        (runs_from 0 0 pages)) out.old out.new }
{
    for (first, last) in &tally.missing {
        printer.put_run(out, tally.cpu, *first, *last);
    }
    let from = tally.from.0;
    let next = tally.next.0;
    if from < next {
        printer.put_run(out, tally.cpu, RecordNo(from), RecordNo(next - 1));
    }
}

/// Prints the runs of missing numbers of each CPU.
fn print_runs<R: Source + Drop, W: Sink>(
    printer: &Printer<'_>,
    out: &mut Out<'_, W>,
    sources: &[PageLines<R>],
)
    ensures { (raws : List RawFile) → AreRawOf sources.now raws
        → Puts (raw_runs printer.now.form (bounds_of printer.now) raws) out.old out.new }
{
    for source in sources {
        print_runs_of(printer, out, source.tally());
    }
}

/// Prints the losses of unknown number of each CPU.
fn print_unknown<R: Source + Drop, W: Sink>(
    printer: &Printer<'_>,
    out: &mut Out<'_, W>,
    sources: &[PageLines<R>],
)
    ensures { (raws : List RawFile) → AreRawOf sources.now raws
        → Puts (raw_unknown printer.now.form (bounds_of printer.now) raws) out.old out.new }
{
    for source in sources {
        let tally = source.tally();
        printer.put_unknown_at(out, tally.cpu, &tally.unknown);
    }
}

/// Prints the damaged pages of each CPU, of `size` bytes each.
fn print_damaged<R: Source + Drop, W: Sink>(
    printer: &Printer<'_>,
    out: &mut Out<'_, W>,
    size: u64,
    sources: &[PageLines<R>],
)
    ensures { (raws : List RawFile) → AreRawOf sources.now raws
        → Puts (raw_damaged printer.now.form (bounds_of printer.now) size raws) out.old out.new }
{
    for source in sources {
        let tally = source.tally();
        let part = Part {
            size,
            length: source.taken(),
        };
        printer.put_damaged_pages(out, tally.cpu, &tally.damaged, &[part]);
    }
}

/// Whether each page of each CPU can be read.
fn are_intact<R: Source + Drop>(sources: &[PageLines<R>]) -> bool
    ensures { (raws : List RawFile) → AreRawOf sources.now raws → result ≡ raw_intact raws }
{
    for source in sources {
        if !source.tally().damaged.as_slice().is_empty() {
            return false;
        }
    }
    true
}

/// Whether each source is of a later CPU than the one before.
fn are_rising<R: Source + Drop>(sources: &[PageLines<R>]) -> bool
    ensures { result ≡ true → CpusRise 0 sources.now }
{
    let mut next = 0;
    for source in sources {
        let cpu = source.tally().cpu.0;
        if cpu < next {
            return false;
        }
        next = cpu + 1;
    }
    true
}

/// How many bytes a source has read, if it has read its reader to the end.
fn length_at_end<R: Source + Drop>(source: &PageLines<R>) -> Option<u64>
    ensures { IsSome result → HasEnded R.remaining R.failed source.now }
{
    if source.halt().is_some() {
        return None;
    }
    if source.is_at_end() {
        Some(source.taken())
    } else {
        None
    }
}

/// Whether each source has read its reader to the end.
fn have_ended<R: Source + Drop>(sources: &[PageLines<R>]) -> bool
    ensures { result ≡ true → AllByRecursion (HasEnded R.remaining R.failed) sources.now }
{
    for source in sources {
        if length_at_end(source).is_none() {
            return false;
        }
    }
    true
}

/// The index of the first source that can't go on, and why.
fn first_halt<R: Source + Drop>(sources: &[PageLines<R>]) -> Option<(usize, Halt)>
    ensures { result ≡ first_halt 0 sources.now }
{
    for at in 0..sources.len() {
        if let Some(halt) = sources[at].halt() {
            return Some((at, halt));
        }
    }
    None
}

/// Whether each source can go on.
fn can_go_on<R: Source + Drop>(sources: &[PageLines<R>]) -> bool
    ensures { result ≡ true → AllByRecursion (λ source. source.halt ≡ None) sources.now }
{
    for source in sources {
        if source.halt().is_some() {
            return false;
        }
    }
    true
}

/// How a listing ends whose input of this index can't go on.
fn ending_for(input: usize, halt: Halt) -> Ending
    ensures { result ≡ ending_for input halt }
{
    match halt {
        Halt::NoMemory => Ending::NoMemory,
        Halt::NotRead => Ending::NotRead(input),
        Halt::NotRaw | Halt::SmallerPages | Halt::Falls | Halt::Numbers => Ending::Changed(input),
    }
}

/// Writes what still waits of a listing whose inputs aren't all read to their ends: if memory was refused, with the line
/// that says so.
fn end_early<W: Sink>(out: &mut Out<'_, W>, halt: Option<(usize, Halt)>) -> Ending
    ensures writer { KeepsWriter out.old out.new }
    ensures written { (start : Start) (text : List ℕ) → HasPut start text out.old
        → IsTextWritten Ending.NotWritten start.contents (contents_of out.new) (has_failed out.new)
        (text ++ said_behind (halt_ending halt)) (halt_ending halt) result }
{
    match halt {
        Some((_, Halt::NoMemory)) => finish_memory(out, Ending::NoMemory, Ending::NotWritten),
        Some((input, halt)) => finish(out, ending_for(input, halt), Ending::NotWritten),
        None => finish(out, Ending::Changed(0), Ending::NotWritten),
    }
}

/// Prints what was lost of each CPU, whose pages have `size` bytes each.
fn print_losses<R: Source + Drop, W: Sink>(
    printer: &Printer<'_>,
    out: &mut Out<'_, W>,
    size: u64,
    sources: &[PageLines<R>],
)
    ensures { (raws : List RawFile) → AreRawOf sources.now raws
        → Puts (raw_losses printer.now.form (bounds_of printer.now) size raws) out.old out.new }
{
    print_runs(printer, out, sources);
    print_unknown(printer, out, sources);
    print_damaged(printer, out, size, sources);
}

/// Prints what the pages of these sources have and miss, as far as it is selected, in this form, with what the naming
/// says of each record's event; these are the events whose formats are malformed. If memory is refused at the
/// beginning, nothing is written.
pub(crate) fn print_pages<R: Source + Drop, W: Sink>(
    alloc: Global,
    form: Form,
    naming: Naming<'_>,
    selection: Selection<'_>,
    malformed: Vec<MalformedEvent>,
    size: usize,
    sources: Vec<PageLines<R>>,
    writer: &mut W,
) -> Result<Listed, NoMemory>
    requires size { 48 ≤ size }
    requires sound { W.failed writer.old ≡ false }
    requires sound_naming { IsSound naming }
    ensures listed { (detail : Detail) → Describes naming.entry malformed.items detail → IfOk result (λ listed.
        ListsPages R.remaining R.failed form detail (selection_seen selection.entry) size sources.items
        (W.contents writer.old) (W.contents writer.new) (W.failed writer.new) listed) }
    ensures refused { OnErr result (writer.new ≡ writer.old) }
{
    let mut buffer = TextBuffer::new(alloc)?;
    let mut out = Out::new(&mut buffer, writer);
    if !can_go_on(&sources) {
        let ending = end_early(&mut out, first_halt(&sources));
        return Ok(Listed::nothing(alloc, ending));
    }
    let mut printer = Printer {
        form,
        naming,
        selection,
        cut: 0,
        window: Window::new(),
    };
    let walked = walk_sources(alloc, sources, &mut printer, &mut out)?;
    let sources = walked.sources.as_slice();
    if !walked.is_whole || !are_rising(sources) || !have_ended(sources) {
        let ending = end_early(&mut out, first_halt(sources));
        return Ok(Listed::nothing(alloc, ending));
    }
    print_losses(&printer, &mut out, size as u64, sources);
    let is_written = out.finish().is_ok();
    Ok(Listed {
        ending: ending_of(is_written, are_intact(sources)),
        cut: printer.cut,
        malformed,
        is_unnamed: false,
    })
}
