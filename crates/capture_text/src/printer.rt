//! What prints a collection.

use crate::form::Form;
use crate::lines::put_listed;
use crate::losses::{put_damages, put_late, put_listed_run, put_losses, put_runs};
use crate::naming::Naming;
use crate::selection::Selection;
use crate::sums::{RingLosses, put_listed_sum};
use crate::window::Window;
use capture::{Capture, Damaged, Part};
use collector::Collector;
use command_io::Sink;
use text_values::Out;
use time_merge::{Line, TakesLines};
use trace_model::{CpuId, RecordNo};

/// What prints a collection, or the part of it that is selected.
#[derive(Debug, Drop)]
pub struct Printer<'a> {
    /// The form of the lines.
    pub form: Form,
    /// What a line says of its record's event. Of the fields of events it takes those that the names' formats describe.
    pub naming: Naming<'a>,
    /// Which records are listed.
    pub selection: Selection<'a>,
    /// How many of the records that were listed have a field without a value: [`u64::MAX`] if there are more.
    pub cut: u64,
    /// Where the selected moments lie among the numbers of each CPU, by all records that were passed.
    pub window: Window,
}

impl Printer<'_> {
    ghost use Rattle.std.specs.Prelude.{ℕ, List, [], flat_map, length, slice_index_or};
    ghost use Rattle.collector.specs.Runs.{AreMissingRuns};
    ghost use Rattle.capture.specs.Pages.{Page, unknown_from, damages_from};
    ghost use Rattle.capture.specs.Captures.{IsCapture, numbers_of};
    ghost use Rattle.text_values.specs.Putting.{Puts};
    ghost use Rattle.time_merge.specs.Lines.{line_seen};
    ghost use Rattle.capture_text.specs.Listed.{listed_run, listed_runs, listed_losses, listed_damages, listed_page};
    ghost use Rattle.capture_text.specs.Listed.{listed_late};
    ghost use Rattle.capture_text.specs.LossSums.{listed_sum, missing_count};
    ghost use Rattle.capture_text.specs.Printed.{bounds_of};
    ghost use Rattle.capture_text.specs.Selection.{selection_seen};

    /// Prints a line for each run of missing numbers of each CPU, by rising CPU and number, that is listed.
    pub fn put_missing<W: Sink>(&self, out: &mut Out<'_, W>, collector: &Collector)
        ensures { (runs : List (List (ℕ × ℕ)))
            × ((cpu : ℕ) → AreMissingRuns collector.now cpu (slice_index_or runs cpu []))
            × Puts (listed_runs self.now.form (bounds_of self.now) runs) out.old out.new }
    {
        put_runs(out, self.form, &self.selection, &self.window, collector);
    }

    /// Prints the line of a run of missing numbers of a CPU, if it is listed.
    pub fn put_run<W: Sink>(
        &self,
        out: &mut Out<'_, W>,
        cpu: CpuId,
        first: RecordNo,
        last: RecordNo,
    )
        ensures { Puts (listed_run self.now.form (bounds_of self.now cpu.0) cpu.0 (first.0, last.0)) out.old out.new }
    {
        let bound = self.window.of(&self.selection, cpu);
        put_listed_run(out, self.form, bound, cpu, first, last);
    }

    /// Prints a line for each loss of a CPU before these numbers whose number isn't known, if it is listed.
    pub fn put_unknown_at<W: Sink>(&self, out: &mut Out<'_, W>, cpu: CpuId, numbers: &[RecordNo])
        ensures { Puts (listed_losses self.now.form (bounds_of self.now cpu.0) cpu.0 (numbers_of numbers.now))
            out.old out.new }
    {
        let bound = self.window.of(&self.selection, cpu);
        put_losses(out, self.form, bound, cpu, numbers);
    }

    /// Prints a line for each of these damaged pages of a CPU, if it is listed. Its pages are those of these parts, one
    /// after the other.
    pub fn put_damaged_pages<W: Sink>(
        &self,
        out: &mut Out<'_, W>,
        cpu: CpuId,
        pages: &[Damaged],
        parts: &[Part],
    )
        ensures { Puts (flat_map (listed_page self.now.form (bounds_of self.now cpu.0) parts.now cpu.0) pages.now)
            out.old out.new }
    {
        let bound = self.window.of(&self.selection, cpu);
        put_damages(out, self.form, bound, cpu, pages, parts);
    }

    /// Prints that the record of this line comes later than its place, if the record is listed.
    pub fn put_late<W: Sink>(&self, out: &mut Out<'_, W>, line: &Line<'_>)
        ensures { Puts (listed_late self.now.form (selection_seen self.now.selection) (line_seen line.now)) out.old
            out.new }
    {
        if self.selection.has(line) {
            put_late(out, self.form, line);
        }
    }

    /// Prints a line for each loss of a capture whose number isn't known, if it is listed.
    pub fn put_unknown<W: Sink>(&self, out: &mut Out<'_, W>, capture: &Capture)
        ensures { (pages : List Page) → IsCapture capture.now pages →
            Puts (listed_losses self.now.form (bounds_of self.now capture.now.cpu.0) capture.now.cpu.0
            (unknown_from 0 pages)) out.old out.new }
    {
        self.put_unknown_at(out, capture.cpu, &capture.unknown);
    }

    /// Prints the line of the losses of a capture in sum, with what the kernel counted of its ring, if it is listed.
    /// `collector` has the captures of all CPUs.
    pub fn put_losses_in_sum<W: Sink>(
        &self,
        out: &mut Out<'_, W>,
        collector: &Collector,
        capture: &Capture,
        ring: RingLosses,
    )
        ensures { (pages : List Page) (runs : List (ℕ × ℕ)) → IsCapture capture.now pages
            → AreMissingRuns collector.now capture.now.cpu.0 runs
            → Puts (listed_sum self.now.form (selection_seen self.now.selection) capture.now.cpu.0 (missing_count runs)
            (length (unknown_from 0 pages)) ring) out.old out.new }
    {
        let unknown = capture.unknown.len() as u64;
        put_listed_sum(
            out,
            self.form,
            &self.selection,
            collector,
            capture.cpu,
            unknown,
            ring,
        );
    }

    /// Prints a line for each damaged page of a capture, if it is listed. Its pages are those of these parts, one after
    /// the other.
    pub fn put_damaged<W: Sink>(&self, out: &mut Out<'_, W>, capture: &Capture, parts: &[Part])
        ensures { (pages : List Page) → IsCapture capture.now pages →
            Puts (listed_damages self.now.form (bounds_of self.now capture.now.cpu.0) parts.now capture.now.cpu.0
            (damages_from 0 0 pages)) out.old out.new }
    {
        self.put_damaged_pages(out, capture.cpu, &capture.damaged, parts);
    }
}

impl<W: Sink> TakesLines<Out<'_, W>> for Printer<'_> {
    ghost use Rattle.capture_text.specs.Printed.{IsSound, PrintsRecord};

    ghost can_take = { λ p. IsSound p.0.naming };

    ghost takes = { λ p line q. PrintsRecord line p.0 p.1 q.0 q.1 };

    fn take_line(&mut self, out: &mut Out<'_, W>, line: &Line<'_>) {
        let is_cut = put_listed(out, self.form, self.naming, &self.selection, line);
        self.cut = self.cut.saturating_add(u64::from(is_cut));
        self.window.note(&self.selection, line);
    }
}
