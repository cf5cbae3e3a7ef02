//! Where the moments that are listed lie among the numbers of a CPU's records.
ghost use Rattle.std.specs.Prelude.{◌≡◌, option_map};
ghost use Rattle.time_merge.specs.Lines.{line_seen};
ghost use Rattle.capture_text.specs.Selection.{selection_seen};
ghost use Rattle.capture_text.specs.Window.{later, earlier, bound_seen, noted, has_run, has_place};

use crate::selection::Selection;
use time_merge::Line;
use trace_model::{CpuId, MAX_CPUS, RecordNo};

/// The greater number.
fn later(known: Option<RecordNo>, number: RecordNo) -> Option<RecordNo>
    ensures { option_map (λ n. n.0) result ≡ later (option_map (λ n. n.0) known) number.0 }
{
    match known {
        Some(known) if number.0 < known.0 => Some(known),
        _ => Some(number),
    }
}

/// The smaller number.
fn earlier(known: Option<RecordNo>, number: RecordNo) -> Option<RecordNo>
    ensures { option_map (λ n. n.0) result ≡ earlier (option_map (λ n. n.0) known) number.0 }
{
    match known {
        Some(known) if known.0 < number.0 => Some(known),
        _ => Some(number),
    }
}

/// What is known of a CPU: which records are before the moments that are listed, and which are after them.
#[derive(Clone, Copy, Debug)]
pub(crate) struct Bound {
    /// The greatest number of a record before them.
    before: Option<RecordNo>,
    /// The smallest number of one after them.
    after: Option<RecordNo>,
}

impl Bound {
    /// No record is known.
    const NONE: Bound = Bound {
        before: None,
        after: None,
    };

    /// The same, and this record of the CPU is known too.
    fn noted(self, selection: &Selection<'_>, line: &Line<'_>) -> Bound
        ensures { bound_seen result ≡ noted (selection_seen selection.now) (bound_seen self) (line_seen line.now) }
    {
        let mut bound = self;
        if line.moment.0 < selection.since.0 {
            bound.before = later(bound.before, line.number);
        }
        if selection.until.0 < line.moment.0 {
            bound.after = earlier(bound.after, line.number);
        }
        bound
    }

    /// Whether a run of missing records may be of these moments: no record after it is before them, and none before it
    /// after them.
    pub(crate) fn has_run(self, first: RecordNo, last: RecordNo) -> bool
        ensures { result ≡ has_run (bound_seen self) (first.0, last.0) }
    {
        !self.before.is_some_and(|number| last.0 < number.0)
            && !self.after.is_some_and(|number| number.0 < first.0)
    }

    /// Whether records that were lost before the record of this number may be of these moments.
    pub(crate) fn has_place(self, number: RecordNo) -> bool
        ensures { result ≡ has_place (bound_seen self) number.0 }
    {
        !self.before.is_some_and(|known| number.0 <= known.0)
            && !self.after.is_some_and(|known| known.0 < number.0)
    }
}

/// What is known of each CPU.
#[derive(Clone, Copy, Debug)]
pub struct Window {
    of_cpus: [Bound; MAX_CPUS as usize],
}

impl Window {
    ghost use Rattle.std.specs.Prelude.{◌≡◌, ℕ, option_map};
    ghost use Rattle.time_merge.specs.Lines.{line_seen};
    ghost use Rattle.capture_text.specs.Selection.{selection_seen};
    ghost use Rattle.capture_text.specs.Window.{bound_at, bound_seen, listed_bound, noted_of, unbounded};

    /// No record is known.
    pub const fn new() -> Window
        ensures { (cpu : ℕ) → bound_at result cpu ≡ unbounded }
    {
        Window {
            of_cpus: [Bound::NONE; MAX_CPUS as usize],
        }
    }

    /// What is known of a CPU.
    fn at(&self, cpu: CpuId) -> Bound
        ensures { bound_seen result ≡ bound_at self.now cpu.0 }
    {
        match self.of_cpus.get(cpu.0 as usize) {
            Some(bound) => *bound,
            None => Bound::NONE,
        }
    }

    /// What is known of a CPU, if it is listed.
    pub(crate) fn of(&self, selection: &Selection<'_>, cpu: CpuId) -> Option<Bound>
        ensures { option_map bound_seen result
            ≡ listed_bound (selection_seen selection.now) (bound_at self.now) cpu.0 }
    {
        if selection.has_cpu(cpu) {
            Some(self.at(cpu))
        } else {
            None
        }
    }

    /// A record more is known.
    pub(crate) fn note(&mut self, selection: &Selection<'_>, line: &Line<'_>)
        ensures { (cpu : ℕ) → bound_at self.new cpu
            ≡ noted_of (selection_seen selection.now) cpu (bound_at self.old cpu) (line_seen line.now) }
    {
        let cpu = line.cpu.0 as usize;
        if cpu < self.of_cpus.len() {
            self.of_cpus[cpu] = self.of_cpus[cpu].noted(selection, line);
        }
    }
}
