//! The listing of captures.
ghost use Rattle.std.specs.Prelude.{◌≡◌, ◌==◌, ℕ, true, false, List, [], Option, length, slice_index_or, IfOk, OnErr};
ghost use Rattle.std.specs.Prelude.{if◌then◌else◌};
ghost use Rattle.trace_dat.specs.declared.kernel_texts.counters.Counters.{Counters};
ghost use Rattle.collector.specs.Runs.{AreMissingRuns};
ghost use Rattle.capture.specs.Captures.{IsCapture};
ghost use Rattle.capture_text.specs.LossSums.{missing_count};
ghost use Rattle.capture.specs.Pages.{Page, unknown_from};
ghost use Rattle.capture.specs.files.Files.{ModelPart};
ghost use Rattle.text_values.specs.Putting.{Puts};
ghost use Rattle.capture_text.specs.Printed.{IsSound, bounds_of};
ghost use Rattle.capture_text.specs.Printing.{Detail};
ghost use Rattle.capture_text.specs.Selection.{selection_seen};
ghost use Rattle.collect_command.specs.Gathered.{AreReadFrom};
ghost use Rattle.collect_command.specs.Listings.{all_unknown, all_damaged, are_all_intact, ending_of};
ghost use Rattle.collect_command.specs.Listings.{AreCounted, Describes, IsListedCut, all_sums, ring_losses, sum_of};
ghost use Rattle.collect_command.specs.Listings.{cut_ending, cut_line};
ghost use Rattle.collect_command.specs.declared.ending.Ending.TheVariants.{NotWritten};

use crate::ending::{Ending, Listed};
use crate::fault_line::fault_line;
use crate::gather::gather;
use capture::Capture;
use capture::files::{CpuCapture, CutFile, FileFault};
use capture_text::{Form, Naming, Printer, RingLosses, Selection, Window};
use collector::Collector;
use command_io::Sink;
use event_fields::MalformedEvent;
use std::alloc::Global;
use text_values::{Out, TextBuffer};
use time_merge::walk_lines;
use trace_dat::kernel_texts::Counters;
use trace_model::NoMemory;

/// Prints the losses of unknown number of each CPU.
fn print_unknown<W: Sink>(printer: &Printer<'_>, out: &mut Out<'_, W>, cpus: &[CpuCapture])
    ensures { (parts : List ModelPart) (captures : List (List Page)) → AreReadFrom parts 0 cpus.now captures
        → Puts (all_unknown printer.now.form (bounds_of printer.now) 0 captures) out.old out.new }
{
    for found in cpus {
        printer.put_unknown(out, &found.capture);
    }
}

/// Prints the damaged pages of each CPU.
fn print_damaged<W: Sink>(printer: &Printer<'_>, out: &mut Out<'_, W>, cpus: &[CpuCapture])
    ensures { (parts : List ModelPart) (captures : List (List Page)) → AreReadFrom parts 0 cpus.now captures
        → Puts (all_damaged printer.now.form (bounds_of printer.now) parts 0 captures) out.old out.new }
{
    for found in cpus {
        printer.put_damaged(out, &found.capture, &found.parts);
    }
}

/// What the kernel counted of a ring.
fn ring_losses(counters: Counters) -> RingLosses
    ensures { result ≡ ring_losses counters }
{
    RingLosses {
        overrun: counters.overrun,
        commit_overrun: counters.commit_overrun,
        dropped: counters.dropped,
    }
}

/// Prints the losses of a CPU in sum, if its ring's counters are known.
fn print_sum<W: Sink>(
    printer: &Printer<'_>,
    out: &mut Out<'_, W>,
    collector: &Collector,
    found: &CpuCapture,
)
    ensures { (pages : List Page) (runs : List (ℕ × ℕ)) → IsCapture found.now.capture pages
        → AreMissingRuns collector.now found.now.capture.cpu.0 runs
        → Puts (sum_of printer.now.form (selection_seen printer.now.selection) found.now.counters
        found.now.capture.cpu.0 (missing_count runs) (length (unknown_from 0 pages))) out.old out.new }
{
    if let Some(counters) = found.counters {
        printer.put_losses_in_sum(out, collector, &found.capture, ring_losses(counters));
    }
}

/// Prints the losses of each CPU in sum.
fn print_sums<W: Sink>(
    printer: &Printer<'_>,
    out: &mut Out<'_, W>,
    collector: &Collector,
    cpus: &[CpuCapture],
)
    ensures { (counted : ℕ → Option Counters) (parts : List ModelPart) (captures : List (List Page))
        (runs : List (List (ℕ × ℕ))) → AreReadFrom parts 0 cpus.now captures → AreCounted counted 0 cpus.now
        → ((cpu : ℕ) → AreMissingRuns collector.now cpu (slice_index_or runs cpu []))
        → Puts (all_sums printer.now.form (selection_seen printer.now.selection) counted runs 0 captures)
        out.old out.new }
{
    for found in cpus {
        print_sum(printer, out, collector, found);
    }
}

/// Whether each page of a capture can be read.
fn is_intact(capture: &Capture) -> bool
    ensures { result ≡ (length capture.now.damaged.items == 0) }
{
    capture.damaged.as_slice().is_empty()
}

/// Whether each page can be read.
fn are_intact(cpus: &[CpuCapture]) -> bool
    ensures { (parts : List ModelPart) (captures : List (List Page)) → AreReadFrom parts 0 cpus.now captures
        → result ≡ are_all_intact captures }
{
    for found in cpus {
        if !is_intact(&found.capture) {
            return false;
        }
    }
    true
}

/// How a listing ends.
pub(crate) fn ending_of(is_written: bool, is_intact: bool) -> Ending
    ensures { result ≡ ending_of is_written is_intact }
{
    if !is_written {
        return Ending::NotWritten;
    }
    if is_intact {
        Ending::Done
    } else {
        Ending::Damaged
    }
}

/// The line of a file that was cut short, if one was.
fn cut_line(alloc: Global, cut: Option<CutFile>) -> Result<Vec<u8>, NoMemory>
    ensures { IfOk result (λ line. line.items ≡ cut_line cut) }
{
    match cut {
        Some(cut) => fault_line(alloc, FileFault::Format(cut.fault)),
        None => Ok(Vec::new(alloc)),
    }
}

/// How a listing ends, if this file was cut short.
fn ending_with(cut: Option<CutFile>, is_written: bool, is_intact: bool) -> Ending
    ensures { result ≡ (if is_written then cut_ending cut (ending_of true is_intact) else NotWritten) }
{
    if !is_written {
        return Ending::NotWritten;
    }
    match cut {
        Some(cut) => Ending::MalformedFile {
            input: cut.input,
            fault: FileFault::Format(cut.fault),
        },
        None => ending_of(true, is_intact),
    }
}

/// Prints what captures have and miss, as far as it is selected, in this form, with what the naming says of each
/// record's event; these are the events whose formats are malformed. Last of all is the line of the file that was cut
/// short, if one was. If memory is refused, nothing is written.
pub(crate) fn print_listing<W: Sink>(
    alloc: Global,
    form: Form,
    naming: Naming<'_>,
    selection: Selection<'_>,
    malformed: Vec<MalformedEvent>,
    cpus: &[CpuCapture],
    cut: Option<CutFile>,
    writer: &mut W,
) -> Result<Listed, NoMemory>
    requires sound { W.failed writer.old ≡ false }
    requires sound_naming { IsSound naming }
    requires read { (parts : List ModelPart) × (captures : List (List Page)) × AreReadFrom parts 0 cpus.now captures }
    ensures listed { (detail : Detail) (counted : ℕ → Option Counters) (parts : List ModelPart)
        (captures : List (List Page)) → Describes naming.entry malformed.items detail
        → AreReadFrom parts 0 cpus.now captures → AreCounted counted 0 cpus.now → IfOk result (λ listed.
        IsListedCut cut form detail (selection_seen selection.entry) counted parts captures (W.contents writer.old)
        (W.contents writer.new) (W.failed writer.new) listed) }
    ensures refused { OnErr result (writer.new ≡ writer.old) }
{
    let collector = gather(alloc, cpus)?;
    let line = cut_line(alloc, cut)?;
    let mut buffer = TextBuffer::new(alloc)?;
    let mut out = Out::new(&mut buffer, writer);
    let window = Window::new();
    let mut printer = Printer {
        form,
        naming,
        selection,
        cut: 0,
        window,
    };
    walk_lines(alloc, &collector, &mut printer, &mut out)?;
    printer.put_missing(&mut out, &collector);
    print_unknown(&printer, &mut out, cpus);
    print_damaged(&printer, &mut out, cpus);
    print_sums(&printer, &mut out, &collector, cpus);
    out.put(line.as_slice());
    let is_written = out.finish().is_ok();
    Ok(Listed {
        ending: ending_with(cut, is_written, are_intact(cpus)),
        cut: printer.cut,
        malformed,
        is_unnamed: false,
    })
}
