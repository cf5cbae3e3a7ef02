//! A record that is written at once.
use crate::frames::Frames;
use crate::phase::{Phase, StepAnswer};
use nested_writer::Wrote;

/// Which records a call writes at once.
#[derive(Clone, Copy, Debug, PartialEq, Eq)]
pub enum WriteKind {
    /// Each that fits.
    Any,
    /// Those that are as nearly all are (`WriterStack::write_if_short`).
    Short,
}

impl Frames {
    ghost use Rattle.std.specs.Prelude.{◌≡◌, ◌≤◌, ◌↔◌, ℕ, [], length, false};
    ghost use Rattle.nested_writer.specs.AtOnce.{FitsAtOnce, FitsAbove, IsShortAlone};
    ghost use Rattle.nested_writer.specs.Calls.{HasRecordRoom};
    ghost use Rattle.ring_frames.specs.declared.frames.write.WriteKind.TheVariants.{Any, Short};
    ghost use Rattle.ring_frames.specs.declared.phase.Phase.TheVariants.{Wishing};
    ghost use Rattle.ring_frames.specs.declared.answer.Answer.TheVariants.{Gone};
    ghost use Rattle.ring_frames.specs.Answers.{KeepsPayloads};
    ghost use Rattle.ring_frames.specs.Phases.{closing_phase, as_answer};
    ghost use Rattle.ring_frames.specs.Steps.{IsFrames};
    ghost use Rattle.ring_frames.specs.Fills.{LooksForWish};
    ghost use Rattle.ring_frames.specs.Above.{with_record_above, WritesAboveAtOnce};
    ghost use Rattle.ring_frames.specs.AtOnce.{with_left_frame, WritesAtOnce, IsWrittenAlone};

    /// Writes a record of this moment and payload in one call, if no frame is on the stack, the record fits in the
    /// tail, and it is one of these. No frame is left then, as if the record's frame had left and not looked for the
    /// reader's wish yet. The caller looks for it by `may_be_wished` and, if that answers true, by `stay`. In all other
    /// cases, and if `push` would refuse the record as too long for a page or at too late a moment, nothing changes.
    #[inline(always)]
    pub fn write(&mut self, kind: WriteKind, moment: u64, payload: &[u8]) -> Wrote
        requires frames { IsFrames self.old }
        ensures fits { result ≡ Wrote.Record → FitsAtOnce self.old.stack moment (length payload.now) }
        ensures any { kind ≡ Any
            → FitsAtOnce self.old.stack moment (length payload.now)
            → result ≡ Wrote.Record }
        ensures short { kind ≡ Short
            → (result ≡ Wrote.Record
            ↔ (IsShortAlone self.old.stack moment (length payload.now)
            × HasRecordRoom self.old.stack moment (length payload.now))) }
        ensures wrote { result ≡ Wrote.Record
            → WritesAtOnce self.old moment payload.now (with_left_frame self.new moment (length payload.now)) }
        ensures alone { result ≡ Wrote.Record → IsWrittenAlone self.old moment payload.now self.new }
        ensures nothing { result ≡ Wrote.Nothing → self.new ≡ self.old }
        ensures payloads { KeepsPayloads self.old.stack self.new.stack }
    {
        match kind {
            WriteKind::Any => self.stack.write_any(moment, payload),
            WriteKind::Short => self.stack.write_if_short(moment, payload),
        }
    }

    /// Writes a record of this moment and payload in one call, if a frame is on the stack, `push` would not refuse one
    /// more, and the record fits in the tail: what `push`, `reserve`, the payload's copy into what `top_mut` lends, and
    /// `end` do. The frames are those of before, each in its phase. In all other cases nothing changes.
    #[inline(always)]
    pub fn write_above(&mut self, moment: u64, payload: &[u8]) -> Wrote
        requires frames { IsFrames self.old }
        ensures fits { result ≡ Wrote.Record ↔ FitsAbove self.old.stack moment (length payload.now) }
        ensures wrote { result ≡ Wrote.Record → WritesAboveAtOnce self.old moment payload.now self.new }
        ensures above { result ≡ Wrote.Record → self.new ≡ with_record_above self.old moment payload.now }
        ensures nothing { result ≡ Wrote.Nothing → self.new ≡ self.old }
        ensures payloads { KeepsPayloads self.old.stack self.new.stack }
    {
        self.stack.write_above(moment, payload)
    }

    /// Whether the reader's wish may be for the tail, if no other fill is open. If it isn't, a frame that has left and
    /// looks for it is gone.
    #[inline(always)]
    pub fn may_be_wished(&self, wish: u64) -> bool
        ensures unasked { result ≡ false → (moment len : ℕ)
            → self.now.stack.frames ≡ []
            → self.now.below ≡ []
            → closing_phase self.now.stack ≡ Wishing
            → LooksForWish (with_left_frame self.now moment len) wish Gone self.now }
        ensures past { result ≡ false → wish ≤ self.now.stack.done }
    {
        wish > self.stack.done()
    }

    /// The frame of a record of this moment and of `len` bytes, which was written at once and has left, looks for this
    /// wish: if it is granted, the frame is put at the bottom of the stack.
    #[inline(never)]
    pub fn stay(&mut self, moment: u64, len: usize, wish: u64) -> StepAnswer
        requires none { self.old.stack.frames ≡ [] }
        requires below { self.old.below ≡ [] }
        requires frames { IsFrames (with_left_frame self.old moment len) }
        requires closed { closing_phase self.old.stack ≡ Wishing }
        ensures looks { LooksForWish (with_left_frame self.old moment len) wish (as_answer result) self.new }
        ensures payloads { KeepsPayloads self.old.stack self.new.stack }
    {
        if !self.may_grant(wish) {
            return StepAnswer::Gone;
        }
        if self.stack.ask_close_for(moment, len) {
            return self.go_on(Phase::Looking { noted: wish });
        }
        StepAnswer::Gone
    }
}
