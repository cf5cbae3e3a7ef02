//! What is seen of a ring between two steps.
ghost use Rattle.std.specs.Prelude.{◌≡◌, ◌&&◌, ◌==◌, ◌+◌, ◌^◌, ◌<◌, max, if◌then◌else◌, ℕ, Some, None};
ghost use Rattle.trace_model.specs.Ring as model;
ghost use Rattle.nested_writer.specs.Stack.{state_of};
ghost use Rattle.ring_frames.specs.Value.{phase_of};
ghost use Rattle.ring_core.specs.IsCore.{IsCore};
ghost use Rattle.step_model.specs.StepCounts.{owns_from};
ghost use Rattle.script_replay.specs.Known.{top_frame};
ghost use Rattle.step_text.specs.Seen.{state_in, top_in};
ghost use Rattle.step_text.specs.Counting.{Follows, IsCounted, top_claims_in, takes_in, head_in, gives_in};
ghost use Rattle.step_text.specs.Counting.{all_have_left_in, top_moment_in};

use link_marks::Link;
use nested_writer::frame::{Progress, Purpose};
use ring_core::{Answer, Core};
use ring_frames::{Phase, Role, TakeState};

/// What a frame is on the stack.
#[derive(Clone, Copy, Debug, PartialEq, Eq)]
pub(crate) enum FrameState {
    /// It has no record yet.
    Waiting,
    /// Its record has this number.
    Reserved(u64),
    /// It has left, and is still at the bottom.
    Left,
}

impl FrameState {
    /// What a frame of this progress is.
    fn of(progress: Progress) -> FrameState
        ensures { state_in result ≡ state_of progress }
    {
        match progress {
            Progress::Waiting(_) | Progress::Through(_) => FrameState::Waiting,
            Progress::Reserved(slot) => FrameState::Reserved(slot.number),
            Progress::Left(_) => FrameState::Left,
        }
    }
}

/// A frame: what it was pushed for, what it is, and how far it has come.
#[derive(Clone, Copy, Debug)]
pub(crate) struct FrameSeen {
    pub(crate) purpose: Purpose,
    pub(crate) state: FrameState,
    pub(crate) phase: Phase,
}

/// The counts of a ring.
#[derive(Clone, Copy, Debug)]
pub(crate) struct Counts {
    pub(crate) spare: u16,
    pub(crate) done: u64,
    pub(crate) opened: u64,
    pub(crate) wish: u64,
    /// The least fill that is neither taken nor lost.
    pub(crate) head: u64,
    /// How many records are committed.
    pub(crate) committed: u64,
}

/// What is seen of a ring beside its links and the positions of its pages.
#[derive(Clone, Copy, Debug)]
pub(crate) struct Parts {
    pub(crate) spare_link: Link,
    pub(crate) counts: Counts,
    /// How many frames are on the stack.
    pub(crate) depth: u64,
    /// The one on top.
    pub(crate) top: Option<FrameSeen>,
    pub(crate) reader: TakeState,
    /// How many records are reserved.
    pub(crate) records: u64,
    /// The moment of the last one.
    pub(crate) last_moment: u64,
}

/// The frame on top of a ring's stack.
pub(crate) fn top_of(ring: &Core) -> Option<FrameSeen>
    ensures { (n size start : ℕ) (c : model.Core) → IsCore n size start ring.now c
        → top_in result ≡ top_frame c.frames }
{
    match ring.top() {
        Some(frame) => Some(FrameSeen {
            purpose: frame.purpose,
            state: FrameState::of(frame.progress),
            phase: ring.top_phase(),
        }),
        None => None,
    }
}

/// Whether a frame that was about to claim the head owns its move now.
fn owns_from(before: Phase, after: Phase) -> bool
    ensures { result ≡ owns_from (phase_of before) (phase_of after) }
{
    match (before, after) {
        (
            Phase::Claiming { .. },
            Phase::LookingNext {
                role: Role::Owner,
                ..
            },
        ) => true,
        _ => false,
    }
}

impl Parts {
    /// Whether the frame on top has claimed the head, if these are the frames now.
    fn top_claims(&self, depth: u64, top: Option<FrameSeen>) -> bool
        ensures { result ≡ top_claims_in self.now depth top }
    {
        match (self.top, top) {
            (Some(before), Some(after)) => self.depth == depth
                && owns_from(before.phase, after.phase),
            _ => false,
        }
    }

    /// The moment that the frame on top was pushed with.
    fn top_moment(&self) -> u64
        ensures { result ≡ top_moment_in self.now.top }
    {
        match self.top {
            Some(
                FrameSeen {
                    purpose: Purpose::Record { moment, .. },
                    ..
                },
            ) => moment,
            _ => 0,
        }
    }

    /// The head after a step with this answer, if these are the frames now.
    fn head_after(&self, answer: &Answer, depth: u64, top: Option<FrameSeen>) -> u64
        requires { self.now.counts.head < 2 ^ 63 }
        ensures { result ≡ head_in self.now answer.now depth top }
    {
        if takes(answer) || self.top_claims(depth, top) {
            self.counts.head + 1
        } else {
            self.counts.head
        }
    }

    /// The number of records after a step that reserves one or not.
    fn records_after(&self, reserves: bool) -> u64
        requires { self.now.records < 2 ^ 63 }
        ensures { result ≡ (if reserves then self.now.records + 1 else self.now.records) }
    {
        if reserves {
            self.records + 1
        } else {
            self.records
        }
    }

    /// The moment of the last record after such a step.
    fn moment_after(&self, reserves: bool) -> u64
        ensures { result ≡ (if reserves then max (top_moment_in self.now.top) self.now.last_moment
            else self.now.last_moment) }
    {
        if reserves {
            self.top_moment().max(self.last_moment)
        } else {
            self.last_moment
        }
    }

    /// The number of committed records after a step, if these are the frames and the records now.
    fn committed_after(&self, depth: u64, top: Option<FrameSeen>, records: u64) -> u64
        ensures { result ≡ (if all_have_left_in depth top then records else self.now.counts.committed) }
    {
        if all_have_left(depth, top) {
            records
        } else {
            self.counts.committed
        }
    }

    /// The parts after a step with this answer.
    pub(crate) fn after(&self, answer: &Answer, ring: &Core) -> Parts
        requires { (before : model.Core) × IsCounted self.now before }
        ensures { Follows self.now answer.now ring.now result }
    {
        let depth = ring.depth() as u64;
        let top = top_of(ring);
        let reserves = gives_next(self.records, answer);
        let records = self.records_after(reserves);
        Parts {
            spare_link: ring.spare_link(),
            counts: Counts {
                spare: ring.spare(),
                done: ring.done(),
                opened: ring.opened(),
                wish: ring.wish(),
                head: self.head_after(answer, depth, top),
                committed: self.committed_after(depth, top, records),
            },
            depth,
            top,
            reader: ring.reader(),
            records,
            last_moment: self.moment_after(reserves),
        }
    }
}

/// Whether the answer is that the head is taken.
fn takes(answer: &Answer) -> bool
    ensures { result ≡ takes_in answer.now }
{
    matches!(answer, Answer::Taken(_, _))
}

/// Whether the answer gives the next number, which none of `count` records has.
fn gives_next(count: u64, answer: &Answer) -> bool
    ensures { result ≡ gives_in count answer.now }
{
    match answer {
        Answer::Reserved(number) => number.0 == count,
        _ => false,
    }
}

/// Whether no frame is on the stack but one that has left.
fn all_have_left(depth: u64, top: Option<FrameSeen>) -> bool
    ensures { result ≡ all_have_left_in depth top }
{
    match top {
        Some(frame) => depth == 1 && frame.state == FrameState::Left,
        None => true,
    }
}
