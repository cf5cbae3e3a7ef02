//! The command `collect`.
ghost use Rattle.std.specs.Prelude.{◌≡◌, ◌<◌, ◌≤◌, ◌⊎◌, ◌++◌, ℕ, false, List, All, Option, length, map};
ghost use Rattle.std.specs.Prelude.{IfOk, OnErr, OnOk};
ghost use Rattle.std.specs.Option.{option_map};
ghost use Rattle.trace_model.specs.declared.limits.TheConstants.{MAX_CPUS};
ghost use Rattle.trace_dat.specs.Contents.{EventFormat, format_seen};
ghost use Rattle.trace_dat.specs.declared.kernel_texts.counters.Counters.{Counters};
ghost use Rattle.trace_dat.specs.kernel_texts.Names.{HasEvents, events_of};
ghost use Rattle.kernel_names.specs.SymbolNames.{HasSymbols};
ghost use Rattle.kernel_names.specs.Tasks.{HasTasks};
ghost use Rattle.capture.specs.Pages.{Page};
ghost use Rattle.capture.specs.files.Files.{File, ModelPart};
ghost use Rattle.capture.specs.files.Captures.{AreCaptured};
ghost use Rattle.capture_text.specs.Lent.{symbols_lent, tasks_lent};
ghost use Rattle.capture_text.specs.Printed.{AreSymbols, AreTasks};
ghost use Rattle.capture_text.specs.Selection.{selection_seen};
ghost use Rattle.command_io.specs.Written.{IsTextWritten};
ghost use Rattle.collect_command.specs.Gathered.{AreReadFrom};
ghost use Rattle.collect_command.specs.Listings.{AreCounted, AreTexts, IsListedCut, detail_by, is_unnamed, with_marks};
ghost use Rattle.collect_command.specs.Patterns.{marks_of};
ghost use Rattle.collect_command.specs.Runs.{AreGiven, IsCollectRun, IsListedSo, KeepsOthers, KeepsRead, ListsFiles};
ghost use Rattle.collect_command.specs.Runs.{TellsFault, TellsMemory, is_missing, kept_if, lines_for, text_in};
ghost use Rattle.collect_command.specs.Runs.{wanted_by};

use crate::ending::{Collected, Ending, Listed};
use crate::events::mark_events;
use crate::fault_line::fault_line;
use crate::listing::print_listing;
use crate::memory::tell_memory;
use capture::files::{
    Captured, CpuCapture, CutFile, FileFault, Input, InputFault, Unread, Wanted, read_inputs,
};
use capture_text::{Beside, Form, Naming, Selection};
use command_io::{Sink, Source, write_text};
use event_fields::{EventFields, malformed_events};
use kernel_names::{EventTables, SymbolNames, TaskNames};
use std::alloc::Global;
use trace_dat::Format;
use trace_dat::kernel_texts::EventNames;
use trace_model::NoMemory;

/// The only line if the numbers of a CPU don't fit 64 bits.
pub(crate) const NUMBERS_LINE: &[u8] = b"numbers\n";

/// What a line says of its record besides the numbers.
#[derive(Clone, Copy, Debug, PartialEq, Eq)]
pub enum Detail {
    /// The payload, in hexadecimal.
    Payload,
    /// The process, the event, and the payload.
    Names,
    /// The process, the event, and the fields that its format describes. The payload is behind them if a field has no
    /// value in it, or if no fields are known.
    Fields,
}

/// How files are listed.
#[derive(Clone, Copy, Debug)]
pub struct Collecting<'a> {
    /// The form of the lines.
    pub form: Form,
    /// The size of a raw page, in bytes: 48 at least.
    pub page: usize,
    /// The name of the trace buffer that is read of files of trace-cmd: that of an instance, or none for the main one.
    pub buffer: &'a [u8],
    /// What a line says of its record.
    pub detail: Detail,
    /// Which records are listed.
    pub selection: Selection<'a>,
    /// The events whose records are listed, by their names, in place of those that the selection marks: `*` stands for
    /// any bytes, `?` for one byte, and each other byte for itself. What is before the first `:` is for the system, if
    /// there is one, and what is after it for the event's own name.
    pub pattern: Option<&'a [u8]>,
    /// The formats of events beside those that files of trace-cmd have.
    pub formats: &'a [Format<'a>],
    /// The names of processes, if they are printed, beside those that files of trace-cmd have: a line `PID NAME` for
    /// each, as the kernel's `saved_cmdlines` has them.
    pub tasks: Option<&'a [u8]>,
    /// The functions, if they are printed behind their addresses, beside those that files of trace-cmd have: a line
    /// `ADDRESS TYPE NAME` for each, as the kernel's `kallsyms` has them.
    pub symbols: Option<&'a [u8]>,
}

/// Writes a text, and answers how that ends.
pub(crate) fn write_line<W: Sink>(writer: &mut W, line: &[u8], wanted: Ending) -> Ending
    requires { W.failed writer.old ≡ false }
    ensures { IsTextWritten Ending.NotWritten (W.contents writer.old) (W.contents writer.new) (W.failed writer.new)
        line.now wanted result }
{
    write_text(writer, line, wanted, Ending::NotWritten)
}

/// Reports the fault of a file.
fn tell_file<W: Sink>(alloc: Global, input: usize, fault: FileFault, writer: &mut W) -> Ending
    requires { W.failed writer.old ≡ false }
    ensures { TellsFault input (InputFault.File fault) (W.contents writer.old) (W.contents writer.new)
        (W.failed writer.new) result }
{
    match fault_line(alloc, fault) {
        Ok(line) => write_line(
            writer,
            line.as_slice(),
            Ending::MalformedFile { input, fault },
        ),
        Err(NoMemory) => tell_memory(writer),
    }
}

/// Reports why an input isn't read.
fn tell_fault<W: Sink>(alloc: Global, unread: Unread, writer: &mut W) -> Ending
    requires { W.failed writer.old ≡ false }
    ensures { TellsFault unread.input unread.fault (W.contents writer.old) (W.contents writer.new) (W.failed writer.new)
        result }
{
    match unread.fault {
        InputFault::Read => Ending::NotRead(unread.input),
        InputFault::File(fault) => tell_file(alloc, unread.input, fault, writer),
        InputFault::Numbers => write_line(writer, NUMBERS_LINE, Ending::Numbers),
        InputFault::NoMemory => tell_memory(writer),
    }
}

/// What was read of files, with what is given beside it: what names the records of a listing.
#[derive(Clone, Copy)]
pub(crate) struct Texts<'a> {
    /// The events by their numbers.
    pub(crate) names: &'a EventNames,
    /// The names of processes, if they are printed.
    pub(crate) tasks: Option<&'a TaskNames>,
    /// The functions, if they are printed.
    pub(crate) symbols: Option<&'a SymbolNames>,
}

/// Prints what was read, with its fields. If memory is refused, nothing is written.
fn print_fields<W: Sink>(
    alloc: Global,
    form: Form,
    texts: Texts<'_>,
    selection: Selection<'_>,
    cpus: &[CpuCapture],
    cut: Option<CutFile>,
    writer: &mut W,
) -> Result<Listed, NoMemory>
    requires sound { W.failed writer.old ≡ false }
    requires read { (parts : List ModelPart) × (captures : List (List Page)) × AreReadFrom parts 0 cpus.now captures }
    ensures listed { (formats : List EventFormat) (tasks symbols : Option (List (List ℕ)))
        (counted : ℕ → Option Counters) (parts : List ModelPart) (captures : List (List Page))
        → AreTexts texts.entry formats tasks symbols → AreReadFrom parts 0 cpus.now captures
        → AreCounted counted 0 cpus.now → IfOk result (λ listed.
        IsListedCut cut form (detail_by Detail.Fields formats tasks symbols) (selection_seen selection.entry) counted
        parts captures (W.contents writer.old) (W.contents writer.new) (W.failed writer.new) listed) }
    ensures refused { OnErr result (writer.new ≡ writer.old) }
{
    let fields = EventFields::new(alloc, texts.names)?;
    let tables = EventTables::new(alloc, texts.names, &fields)?;
    let malformed = malformed_events(alloc, texts.names, &fields)?;
    let beside = Beside {
        tasks: texts.tasks,
        tables: Some(&tables),
        symbols: texts.symbols,
    };
    let naming = Naming::Fields(texts.names, &fields, beside);
    print_listing(alloc, form, naming, selection, malformed, cpus, cut, writer)
}

/// Prints what was read, with what is asked for of each record. If memory is refused, nothing is written.
fn print_captured<W: Sink>(
    alloc: Global,
    collecting: &Collecting<'_>,
    texts: Texts<'_>,
    selection: Selection<'_>,
    cpus: &[CpuCapture],
    cut: Option<CutFile>,
    writer: &mut W,
) -> Result<Listed, NoMemory>
    requires sound { W.failed writer.old ≡ false }
    requires read { (parts : List ModelPart) × (captures : List (List Page)) × AreReadFrom parts 0 cpus.now captures }
    ensures listed { (formats : List EventFormat) (tasks symbols : Option (List (List ℕ)))
        (counted : ℕ → Option Counters) (parts : List ModelPart) (captures : List (List Page))
        → AreTexts texts.entry formats tasks symbols → AreReadFrom parts 0 cpus.now captures
        → AreCounted counted 0 cpus.now → IfOk result (λ listed.
        IsListedCut cut collecting.now.form (detail_by collecting.now.detail formats tasks symbols)
        (selection_seen selection.entry) counted parts captures
        (W.contents writer.old) (W.contents writer.new) (W.failed writer.new) listed) }
    ensures refused { OnErr result (writer.new ≡ writer.old) }
{
    let form = collecting.form;
    let none = Vec::new(alloc);
    match collecting.detail {
        Detail::Payload => {
            print_listing(
                alloc,
                form,
                Naming::Payload,
                selection,
                none,
                cpus,
                cut,
                writer,
            )
        }
        Detail::Names => {
            let naming = Naming::Names(texts.names, texts.tasks);
            print_listing(alloc, form, naming, selection, none, cpus, cut, writer)
        }
        Detail::Fields => print_fields(alloc, form, texts, selection, cpus, cut, writer),
    }
}

/// Adds names of processes, if they are given.
fn add_tasks(tasks: &mut TaskNames, text: Option<&[u8]>) -> Result<(), NoMemory>
    ensures { (known : List (List ℕ)) → HasTasks tasks.old known
        → OnOk result (AreTasks (kept_if text.entry tasks.new) (lines_for (text_in text.entry) known)) }
{
    match text {
        Some(text) => tasks.add(text),
        None => Ok(()),
    }
}

/// Adds functions, if they are given.
fn add_symbols(symbols: &mut SymbolNames, text: Option<&[u8]>) -> Result<(), NoMemory>
    ensures { (known : List (List ℕ)) → HasSymbols symbols.old known
        → OnOk result (AreSymbols (kept_if text.entry symbols.new) (lines_for (text_in text.entry) known)) }
{
    match text {
        Some(text) => symbols.add(text),
        None => Ok(()),
    }
}

/// Adds the formats and names that are given to those of the files.
pub(crate) fn add_given(
    collecting: &Collecting<'_>,
    captured: &mut Captured,
) -> Result<(), NoMemory>
    ensures kept { KeepsRead captured.old captured.new }
    ensures given { (formats : List EventFormat) (tasks symbols : List (List ℕ))
        → HasEvents captured.old.names formats → HasTasks captured.old.tasks tasks
        → HasSymbols captured.old.symbols symbols → OnOk result (AreGiven collecting.now captured.new
        (formats ++ map format_seen collecting.now.formats.now)
        (lines_for (text_in collecting.now.tasks) tasks)
        (lines_for (text_in collecting.now.symbols) symbols)) }
{
    captured.names.add(collecting.formats)?;
    add_tasks(&mut captured.tasks, collecting.tasks)?;
    add_symbols(&mut captured.symbols, collecting.symbols)?;
    Ok(())
}

/// What is read beside the pages, since it is asked for.
pub(crate) fn wanted_by(collecting: &Collecting<'_>) -> Wanted
    ensures { result ≡ wanted_by collecting.now }
{
    Wanted {
        tasks: collecting.tasks.is_some(),
        symbols: collecting.symbols.is_some(),
    }
}

/// What names the records of a listing, of what was read and given.
pub(crate) fn texts_of<'a>(collecting: &Collecting<'_>, captured: &'a Captured) -> Texts<'a>
    ensures names { result.names.now ≡ captured.now.names }
    ensures tasks { tasks_lent result.tasks ≡ kept_if collecting.now.tasks captured.now.tasks }
    ensures symbols { symbols_lent result.symbols ≡ kept_if collecting.now.symbols captured.now.symbols }
{
    Texts {
        names: &captured.names,
        tasks: collecting.tasks.map(|_| &captured.tasks),
        symbols: collecting.symbols.map(|_| &captured.symbols),
    }
}

/// The events that a pattern names, if there is one.
pub(crate) fn marks_for(
    alloc: Global,
    names: &EventNames,
    pattern: Option<&[u8]>,
) -> Result<Option<Vec<bool>>, NoMemory>
    ensures { IfOk result (λ marks. option_map (λ m. m.items) marks
        ≡ option_map (λ p. marks_of p (events_of names.now)) (text_in pattern.entry)) }
{
    match pattern {
        Some(pattern) => Ok(Some(mark_events(alloc, names, pattern)?)),
        None => Ok(None),
    }
}

/// Marks, lent, if there are some.
pub(crate) fn lent_marks(marks: &Option<Vec<bool>>) -> Option<&[bool]>
    ensures { option_map (λ lent. lent.now) result ≡ option_map (λ marks. marks.items) marks.now }
{
    match marks {
        Some(marks) => Some(marks.as_slice()),
        None => None,
    }
}

/// A selection with these events in place of its own, if there are some.
pub(crate) fn with_events<'a>(selection: Selection<'a>, marks: Option<&'a [bool]>) -> Selection<'a>
    ensures { selection_seen result
        ≡ with_marks (option_map (λ m. m.now) marks.entry) (selection_seen selection.entry) }
{
    match marks {
        Some(marks) => Selection {
            events: Some(marks),
            ..selection
        },
        None => selection,
    }
}

/// Whether there are marks, and none is set.
pub(crate) fn is_unnamed(marks: Option<&[bool]>) -> bool
    ensures { result ≡ is_unnamed (option_map (λ m. m.now) marks.entry) }
{
    match marks {
        Some(marks) => !marks.contains(&true),
        None => false,
    }
}

/// Lists what was read and given. If memory is refused, nothing is written.
fn list_named<W: Sink>(
    alloc: Global,
    collecting: &Collecting<'_>,
    captured: &Captured,
    writer: &mut W,
) -> Result<Listed, NoMemory>
    requires sound { W.failed writer.old ≡ false }
    requires read { (parts : List ModelPart) × (captures : List (List Page))
        × AreReadFrom parts 0 captured.now.cpus.items captures }
    ensures listed { (formats : List EventFormat) (tasks symbols : Option (List (List ℕ)))
        (counted : ℕ → Option Counters) (parts : List ModelPart) (captures : List (List Page))
        → AreGiven collecting.now captured.now formats tasks symbols
        → AreReadFrom parts 0 captured.now.cpus.items captures → AreCounted counted 0 captured.now.cpus.items
        → IfOk result (λ listed. IsListedSo collecting.now formats tasks symbols captured.now.cut counted parts captures
        (W.contents writer.old) (W.contents writer.new) (W.failed writer.new) listed) }
    ensures refused { OnErr result (writer.new ≡ writer.old) }
{
    let marks = marks_for(alloc, &captured.names, collecting.pattern)?;
    let marks = lent_marks(&marks);
    let selection = with_events(collecting.selection, marks);
    let texts = texts_of(collecting, captured);
    let cut = captured.cut;
    let mut listed = print_captured(
        alloc,
        collecting,
        texts,
        selection,
        &captured.cpus,
        cut,
        writer,
    )?;
    listed.is_unnamed = is_unnamed(marks);
    Ok(listed)
}

/// Lists what was read. If memory is refused, nothing is written.
fn list_captured<W: Sink>(
    alloc: Global,
    collecting: &Collecting<'_>,
    captured: &mut Captured,
    writer: &mut W,
) -> Result<Listed, NoMemory>
    requires sound { W.failed writer.old ≡ false }
    requires read { (files : List File)
        × AreCaptured collecting.now.page collecting.now.buffer.now files captured.old }
    requires wanted { captured.old.wanted ≡ wanted_by collecting.now }
    ensures listed { (files : List File) → AreCaptured collecting.now.page collecting.now.buffer.now files captured.old
        → IfOk result (λ listed. ListsFiles collecting.now files (W.contents writer.old) (W.contents writer.new)
        (W.failed writer.new) listed) }
    ensures refused { OnErr result (writer.new ≡ writer.old) }
    ensures kept { KeepsOthers captured.old captured.new }
{
    add_given(collecting, captured)?;
    list_named(alloc, collecting, captured, writer)
}

/// Lists what was read, or reports that memory was refused.
fn list_or_tell<W: Sink>(
    alloc: Global,
    collecting: &Collecting<'_>,
    captured: &mut Captured,
    writer: &mut W,
) -> Listed
    requires sound { W.failed writer.old ≡ false }
    requires read { (files : List File)
        × AreCaptured collecting.now.page collecting.now.buffer.now files captured.old }
    requires wanted { captured.old.wanted ≡ wanted_by collecting.now }
    ensures listed { (files : List File) → AreCaptured collecting.now.page collecting.now.buffer.now files captured.old
        → ListsFiles collecting.now files (W.contents writer.old) (W.contents writer.new)
        (W.failed writer.new) result
        ⊎ TellsMemory (W.contents writer.old) (W.contents writer.new) (W.failed writer.new) result }
    ensures kept { KeepsOthers captured.old captured.new }
{
    match list_captured(alloc, collecting, captured, writer) {
        Ok(listed) => listed,
        Err(NoMemory) => Listed::nothing(alloc, tell_memory(writer)),
    }
}

/// Whether the buffer of this name is that of an instance, and wasn't found.
fn is_missing(name: &[u8], found: bool) -> bool
    ensures { result ≡ is_missing name.now found }
{
    !name.is_empty() && !found
}

/// Lists files that a kernel's trace was read to: all that they have, by time, and what was lost. A file of trace-cmd
/// that was cut short is listed as far as it goes; what is wrong with the first such file is said at the end, by the
/// ending too. Nothing is written before all are read, and memory is asked for only before the first byte is written.
pub fn collect_to<R: Source, W: Sink>(
    alloc: Global,
    collecting: &Collecting<'_>,
    inputs: &mut [Input<R>],
    writer: &mut W,
) -> Collected
    requires page { 48 ≤ collecting.now.page }
    requires some { 0 < length inputs.old }
    requires cpus { All (λ input. input.cpu.0 < MAX_CPUS) inputs.old }
    requires sound_readers { All (λ input. R.failed input.reader ≡ false) inputs.old }
    requires sound_writer { W.failed writer.old ≡ false }
    ensures { IsCollectRun R.remaining R.failed collecting.now inputs.old inputs.new
        (W.contents writer.old) (W.contents writer.new) (W.failed writer.new) result }
{
    let wanted = wanted_by(collecting);
    match read_inputs(alloc, collecting.page, collecting.buffer, wanted, inputs) {
        Ok(captured) => {
            let mut captured = captured;
            let listed = list_or_tell(alloc, collecting, &mut captured, writer);
            let Captured { others, found, .. } = captured;
            Collected {
                listed,
                is_missing: is_missing(collecting.buffer, found),
                others,
            }
        }
        Err(unread) => {
            let ending = tell_fault(alloc, unread, writer);
            Collected {
                listed: Listed::nothing(alloc, ending),
                is_missing: false,
                others: Vec::new(alloc),
            }
        }
    }
}
