//! Which records of a collection are listed.
ghost use Rattle.std.specs.Prelude.{◌≡◌, option_map};
ghost use Rattle.capture_text.specs.Selection.{is_marked, is_one_of};

use time_merge::Line;
use trace_dat::kernel_texts::common_fields;
use trace_model::{CpuId, Moment};

/// Whether a number is marked; each is, if there are no marks.
fn is_marked(marks: Option<&[bool]>, number: usize) -> bool
    ensures { result ≡ is_marked (option_map (λ m. m.now) marks.entry) number }
{
    match marks {
        Some(marks) => number < marks.len() && marks[number],
        None => true,
    }
}

/// Whether a process is one of these; each is, if there are none.
fn is_one_of(pids: Option<&[i32]>, pid: i32) -> bool
    ensures { result ≡ is_one_of (option_map (λ p. p.now) pids.entry) pid }
{
    match pids {
        Some(pids) => pids.contains(&pid),
        None => true,
    }
}

/// Which records are listed: those of these CPUs, events and processes, from one moment to another.
#[derive(Clone, Copy, Debug)]
pub struct Selection<'a> {
    /// The CPUs, each marked at the place that is its number; all, if it is None.
    pub cpus: Option<&'a [bool]>,
    /// The first moment.
    pub since: Moment,
    /// The last one.
    pub until: Moment,
    /// The events, each marked at the place that is its number; all records, if it is None.
    pub events: Option<&'a [bool]>,
    /// The processes; all records, if it is None.
    pub pids: Option<&'a [i32]>,
}

impl Selection<'_> {
    ghost use Rattle.std.specs.Prelude.{◌≡◌};
    ghost use Rattle.time_merge.specs.Lines.{line_seen};
    ghost use Rattle.trace_dat.specs.kernel_texts.FirstBytes.{common_fields_in};
    ghost use Rattle.capture_text.specs.Selection.{is_marked, all_selected, selection_seen};
    ghost use Rattle.capture_text.specs.LossSums.{has_all_moments};
    ghost use Rattle.capture_text.specs.Selection.{has_moment, has_writer, is_selected};

    /// All records.
    pub const fn all() -> Selection<'static>
        ensures { selection_seen result ≡ all_selected }
    {
        Selection {
            cpus: None,
            since: Moment(0),
            until: Moment(u64::MAX),
            events: None,
            pids: None,
        }
    }

    /// Whether a CPU is listed.
    pub(crate) fn has_cpu(&self, cpu: CpuId) -> bool
        ensures { result ≡ is_marked (selection_seen self.now).cpus cpu.0 }
    {
        is_marked(self.cpus, cpu.0 as usize)
    }

    /// Whether a moment is one of these.
    fn has_moment(&self, moment: Moment) -> bool
        ensures { result ≡ has_moment (selection_seen self.now) moment.0 }
    {
        self.since.0 <= moment.0 && moment.0 <= self.until.0
    }

    /// Whether all moments are.
    pub(crate) fn has_all_moments(&self) -> bool
        ensures { result ≡ has_all_moments (selection_seen self.now) }
    {
        self.since.0 == 0 && self.until.0 == u64::MAX
    }

    /// Whether a record's event and process are such. A record that is too short to have either is none of some.
    fn has_writer(&self, payload: &[u8]) -> bool
        ensures { result ≡ has_writer (selection_seen self.now) (common_fields_in payload.now) }
    {
        if self.events.is_none() && self.pids.is_none() {
            return true;
        }
        match common_fields(payload) {
            Some(common) => {
                is_marked(self.events, common.event as usize) && is_one_of(self.pids, common.pid)
            }
            None => false,
        }
    }

    /// Whether a record is listed.
    pub(crate) fn has(&self, line: &Line<'_>) -> bool
        ensures { result ≡ is_selected (selection_seen self.now) (line_seen line.now) }
    {
        self.has_cpu(line.cpu) && self.has_moment(line.moment) && self.has_writer(line.bytes)
    }
}
