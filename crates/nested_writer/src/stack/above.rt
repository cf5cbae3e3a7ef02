//! A record above other frames that is written at once, if it fits in the tail.
use crate::stack::WriterStack;
use crate::stack::write::Wrote;
use record_words::{EXTEND_FROM, SHORT_LIMIT, size_of};
use trace_model::MAX_FRAMES;

impl WriterStack {
    ghost use Rattle.std.specs.Prelude.{◌≡◌, ◌↔◌, length, IsTrue};
    ghost use Rattle.nested_writer.specs.AtOnce.{MayCover, IsShortNext, with_written};
    ghost use Rattle.nested_writer.specs.Promises.{WritesWhatFitsAbove};
    ghost use Rattle.nested_writer.specs.IsStack.{IsReachedStack};

    /// Whether a frame is on the stack, and one more may be pushed.
    #[inline(always)]
    fn may_cover(&self) -> bool
        ensures { IsTrue result ↔ MayCover self.now }
    {
        !self.top.is_none() && self.below.len() + 1 < MAX_FRAMES
    }

    /// Whether a record of this moment and of a payload of `len` bytes is short (`docs/GLOSSARY.md`).
    #[inline(always)]
    fn is_short(&self, moment: u64, len: usize) -> bool
        requires stack { IsReachedStack self.now }
        ensures { IsTrue result → IsShortNext self.now moment len }
    {
        // The first test is false for fewer than 1 byte, and for more than `SHORT_LIMIT`.
        len.wrapping_sub(1) < SHORT_LIMIT
            && self.tail.may_follow(moment)
            && moment.wrapping_sub(self.last_moment) < EXTEND_FROM
    }

    /// `write_above`, for a short record.
    #[inline(always)]
    fn write_short_above(&mut self, moment: u64, payload: &[u8]) -> Wrote
        requires stack { IsReachedStack self.old }
        requires covers { MayCover self.old }
        requires short { IsShortNext self.old moment (length payload.now) }
        ensures at_once { WritesWhatFitsAbove moment payload.now self.old result self.new }
        ensures written { result ≡ Wrote.Record → self.new ≡ with_written self.old moment payload.now }
        ensures frames { self.new.frames ≡ self.old.frames }
    {
        let size = size_of(payload.len(), moment - self.last_moment, false);
        if self.size < self.tail.end() + size {
            return Wrote::Nothing;
        }
        self.put_raised(true, moment, moment, payload);
        Wrote::Record
    }

    /// `write_above`, for any record.
    #[cold]
    #[inline(never)]
    fn write_any_above(&mut self, moment: u64, payload: &[u8]) -> Wrote
        requires stack { IsReachedStack self.old }
        requires covers { MayCover self.old }
        ensures at_once { WritesWhatFitsAbove moment payload.now self.old result self.new }
        ensures written { result ≡ Wrote.Record → self.new ≡ with_written self.old moment payload.now }
        ensures frames { self.new.frames ≡ self.old.frames }
    {
        let Some(raised) = self.raised_in_tail(moment, payload.len()) else {
            return Wrote::Nothing;
        };
        self.put_raised(false, moment, raised, payload);
        Wrote::Record
    }

    /// Writes a record of this moment and payload in one call, if a frame is on the stack, `begin` would not refuse one
    /// more, and the record fits in the tail: what `begin`, `allot`, the payload's copy into what `top_mut` lends, and
    /// `end` do. The frames are those of before. The record isn't committed, as no record is before those of the frames
    /// below it. In all other cases nothing changes.
    #[inline(always)]
    pub fn write_above(&mut self, moment: u64, payload: &[u8]) -> Wrote
        requires stack { IsReachedStack self.old }
        ensures at_once { WritesWhatFitsAbove moment payload.now self.old result self.new }
        ensures written { result ≡ Wrote.Record → self.new ≡ with_written self.old moment payload.now }
        ensures frames { self.new.frames ≡ self.old.frames }
    {
        if !self.may_cover() {
            return Wrote::Nothing;
        }
        if !self.is_short(moment, payload.len()) {
            return self.write_any_above(moment, payload);
        }
        self.write_short_above(moment, payload)
    }
}
