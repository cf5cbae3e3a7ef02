//! A record that is written at once, if the stack is empty and it fits in the tail.
use crate::stack::WriterStack;
use record_words::{EXTEND_FROM, SHORT_LIMIT, size_of};
use trace_model::MOMENT_LIMIT;

/// What was written at once.
#[derive(Clone, Copy, Debug, PartialEq, Eq)]
pub enum Wrote {
    /// The record, which was pushed, reserved, filled and ended.
    Record,
    /// Nothing, and nothing has changed: `begin` and the calls that follow it write the record, or refuse it. Where
    /// `write_if_short` answers this, the record may still fit in the tail: if it does, `write_any` writes it.
    Nothing,
}

impl WriterStack {
    ghost use Rattle.std.specs.Prelude.{◌≡◌, ◌≢◌, ◌↔◌, ℕ, max, [], ◌∷◌, ◌++◌, List, Some, length, IsTrue, true, false};
    ghost use Rattle.std.specs.Prelude.{IsSome, IfSome};
    ghost use Rattle.page_image.specs.Contents.{is_blank, records_of_page};
    ghost use Rattle.trace_model.specs.History.{HistoryEvent, push, reserve, leave, wished};
    ghost use Rattle.trace_model.specs.Packing.{tail_of};
    ghost use Rattle.trace_model.specs.Words.{padded};
    ghost use Rattle.nested_writer.specs.Allotted.{HasEvents};
    ghost use Rattle.nested_writer.specs.AtOnce.{MayStand, FitsAtOnce, with_written, with_left, with_record};
    ghost use Rattle.nested_writer.specs.AtOnce.{FitsInTail, IsShortAlone};
    ghost use Rattle.nested_writer.specs.Promises.{WritesWhatFits, StandsAgain};
    ghost use Rattle.nested_writer.specs.Stack.{opened};
    ghost use Rattle.nested_writer.specs.Calls.{HasRecordRoom, with_bottom, IsAtBottom, MayAddPage};
    ghost use Rattle.nested_writer.specs.Kept.{SamePages};
    ghost use Rattle.nested_writer.specs.IsStack.{IsStack, IsReachedStack};

    /// Writes a record that fits in the tail, above whatever frames there are, and doesn't commit it. `raised` is the
    /// later of its moment and of the last one. If `holds_record` is true, the tail holds a record; if it is false, the
    /// tail holds one or none.
    #[inline(always)]
    pub(crate) fn put_raised(
        &mut self,
        holds_record: bool,
        moment: u64,
        raised: u64,
        payload: &[u8],
    )
        requires stack { IsReachedStack self.old }
        requires behind { holds_record ≡ true → is_blank self.old.tail.bytes ≡ false }
        requires fits { FitsInTail self.old moment (length payload.now) }
        requires raised { raised ≡ max moment self.old.last_moment }
        ensures written { self.new ≡ with_written self.old moment payload.now }
        ensures records { records_of_page self.new.tail
            ≡ records_of_page self.old.tail ++ record { moment = raised; bytes = padded payload.now } ∷ [] }
        ensures stack { HasEvents self.old (push moment (length payload.now) ∷ reserve ∷ leave (Some payload.now) ∷ [])
            self.new }
        ensures stays { IsReachedStack self.new }
    {
        let prev = self.last_moment;
        self.last_moment = raised;
        self.tail.put_payload(holds_record, prev, raised, payload);
    }

    /// `put_raised`, on the empty stack: the record is committed.
    #[inline(always)]
    fn write_raised(&mut self, holds_record: bool, moment: u64, raised: u64, payload: &[u8])
        requires stack { IsReachedStack self.old }
        requires behind { holds_record ≡ true → is_blank self.old.tail.bytes ≡ false }
        requires fits { FitsAtOnce self.old moment (length payload.now) }
        requires raised { raised ≡ max moment self.old.last_moment }
        ensures written { self.new ≡ with_written self.old moment payload.now }
        ensures records { records_of_page self.new.tail
            ≡ records_of_page self.old.tail ++ record { moment = raised; bytes = padded payload.now } ∷ [] }
        ensures stack { HasEvents self.old (push moment (length payload.now) ∷ reserve ∷ leave (Some payload.now) ∷ [])
            self.new }
        ensures stays { IsReachedStack self.new }
    {
        self.put_raised(holds_record, moment, raised, payload);
        self.tail.store_commit();
    }

    /// If a record of this moment and of a payload of `len` bytes may be written and has room in the tail: its moment,
    /// raised to the last record's.
    #[inline(always)]
    pub(crate) fn raised_in_tail(&self, moment: u64, len: usize) -> Option<u64>
        requires stack { IsReachedStack self.now }
        ensures fits { IsSome result ↔ FitsInTail self.now moment len }
        ensures raised { IfSome result (λ raised. raised ≡ max moment self.now.last_moment) }
    {
        if len > self.size || size_of(len, 0, true) > self.size || moment >= MOMENT_LIMIT {
            return None;
        }
        let raised = moment.max(self.last_moment);
        let end = self.tail.end();
        if self.size < end + size_of(len, raised - self.last_moment, end == 0) {
            return None;
        }
        Some(raised)
    }

    /// `write_alone`, for a record that may have room in the tail.
    #[inline(never)]
    fn write_with_room(&mut self, moment: u64, payload: &[u8]) -> Wrote
        requires stack { IsReachedStack self.old }
        ensures at_once { WritesWhatFits moment payload.now self.old result self.new }
        ensures written { result ≡ Wrote.Record → self.new ≡ with_written self.old moment payload.now }
        ensures frames { self.new.frames ≡ self.old.frames }
    {
        if !self.is_empty() {
            return Wrote::Nothing;
        }
        let Some(raised) = self.raised_in_tail(moment, payload.len()) else {
            return Wrote::Nothing;
        };
        self.write_raised(false, moment, raised, payload);
        Wrote::Record
    }

    /// `write_alone`, for a record that `write_if_short` didn't write. Most of these have no room in the tail, so that
    /// is looked at first.
    #[inline(always)]
    pub fn write_any(&mut self, moment: u64, payload: &[u8]) -> Wrote
        requires stack { IsReachedStack self.old }
        ensures at_once { WritesWhatFits moment payload.now self.old result self.new }
        ensures written { result ≡ Wrote.Record → self.new ≡ with_written self.old moment payload.now }
        ensures frames { self.new.frames ≡ self.old.frames }
    {
        // A record has at least a word before its payload.
        if self.size < self.tail.end() + 4 + payload.len() {
            return Wrote::Nothing;
        }
        self.write_with_room(moment, payload)
    }

    /// `write_alone`, for a record as nearly all are.
    #[inline(always)]
    fn write_short(&mut self, moment: u64, payload: &[u8]) -> Wrote
        requires stack { IsReachedStack self.old }
        requires short { IsShortAlone self.old moment (length payload.now) }
        ensures at_once { WritesWhatFits moment payload.now self.old result self.new }
        ensures written { result ≡ Wrote.Record → self.new ≡ with_written self.old moment payload.now }
        ensures frames { self.new.frames ≡ self.old.frames }
    {
        let size = size_of(payload.len(), moment - self.last_moment, false);
        if self.size < self.tail.end() + size {
            return Wrote::Nothing;
        }
        self.write_raised(true, moment, moment, payload);
        Wrote::Record
    }

    /// Writes a record as `write_alone` does, if it is as nearly all are: of 1 to `SHORT_LIMIT` bytes, less than
    /// `EXTEND_FROM` after the one before it in the tail, and no earlier. Otherwise nothing changes, even if the record
    /// fits. All that it calls is in line.
    #[inline(always)]
    pub fn write_if_short(&mut self, moment: u64, payload: &[u8]) -> Wrote
        requires stack { IsReachedStack self.old }
        ensures short { result ≡ Wrote.Record
            ↔ (IsShortAlone self.old moment (length payload.now) × HasRecordRoom self.old moment (length payload.now)) }
        ensures at_once { result ≡ Wrote.Record → WritesWhatFits moment payload.now self.old result self.new }
        ensures written { result ≡ Wrote.Record → self.new ≡ with_written self.old moment payload.now }
        ensures nothing { result ≡ Wrote.Nothing → self.new ≡ self.old }
    {
        if !self.is_empty() {
            return Wrote::Nothing;
        }
        // Fewer than 1 byte, or more than `SHORT_LIMIT`.
        if payload.len().wrapping_sub(1) >= SHORT_LIMIT {
            return Wrote::Nothing;
        }
        if !self.tail.may_follow(moment) {
            return Wrote::Nothing;
        }
        if moment.wrapping_sub(self.last_moment) >= EXTEND_FROM {
            return Wrote::Nothing;
        }
        self.write_short(moment, payload)
    }

    /// Writes a record of this moment and payload in one call, if the stack is empty and it fits in the tail: what
    /// `begin`, `allot`, the payload's copy into what `top_mut` lends, `end` and `pop_bottom` do. The stack is empty
    /// after it. Otherwise, and if `begin` would refuse it, nothing changes.
    #[inline(always)]
    pub fn write_alone(&mut self, moment: u64, payload: &[u8]) -> Wrote
        requires stack { IsReachedStack self.old }
        ensures at_once { WritesWhatFits moment payload.now self.old result self.new }
        ensures written { result ≡ Wrote.Record → self.new ≡ with_written self.old moment payload.now }
        ensures frames { self.new.frames ≡ self.old.frames }
    {
        match self.write_if_short(moment, payload) {
            Wrote::Record => Wrote::Record,
            Wrote::Nothing => self.write_any(moment, payload),
        }
    }

    /// Puts a frame that has left on the empty stack: that of a record of this moment and of a payload of `len` bytes.
    #[inline(always)]
    fn put_left(&mut self, moment: u64, len: usize)
        requires none { self.old.frames ≡ [] }
        requires may { MayStand self.old moment len }
        ensures { StandsAgain moment len self.old self.new }
    {
        self.top.leave(moment, len);
    }

    /// Whether the tail holds a record, so that it can be closed for the reader. Then a frame that has left is put on
    /// the stack, that of the record of this moment and of `len` bytes which was written alone, and a page may be added
    /// once for that frame, as after `ask_close`. Otherwise nothing changes.
    #[inline(never)]
    pub fn ask_close_for(&mut self, moment: u64, len: usize) -> bool
        requires none { self.old.frames ≡ [] }
        requires may { MayStand self.old moment len }
        ensures holds_record { (start : ℕ) (history : List HistoryEvent)
            → IsStack start history self.old
            → (IsTrue result ↔ tail_of history ≢ []) }
        ensures yes { IsTrue result
            → self.new ≡ with_bottom (with_left self.old moment len) (Some (opened self.old)) }
        ensures wished { IsTrue result → HasEvents self.old (wished ∷ []) self.new }
        ensures stays { IsReachedStack self.old → IsReachedStack self.new }
        ensures no { result ≡ false → self.new ≡ self.old }
        ensures kept { SamePages self.old self.new }
        ensures next { IsTrue result → IsAtBottom self.new.frames × MayAddPage self.new self.new.frames }
    {
        if self.tail.end() == 0 {
            return false;
        }
        self.put_left(moment, len);
        self.ask_close()
    }

    /// Writes a record of this moment and payload in one call, if the stack is empty and it fits in the tail: what
    /// `begin`, `allot`, the payload's copy into what `top_mut` lends, and `end` do. Its frame stays at the bottom
    /// for `pop_bottom`. Otherwise, and if `begin` would refuse it, nothing changes.
    #[inline(always)]
    pub fn write(&mut self, moment: u64, payload: &[u8]) -> Wrote
        requires stack { IsReachedStack self.old }
        ensures at_once { WritesWhatFits moment payload.now self.old result self.new }
        ensures with_record { result ≡ Wrote.Record → self.new ≡ with_record self.old moment payload.now }
        ensures bottom { result ≡ Wrote.Record → IsAtBottom self.new.frames }
    {
        match self.write_alone(moment, payload) {
            Wrote::Record => {
                self.put_left(moment, payload.len());
                Wrote::Record
            }
            Wrote::Nothing => Wrote::Nothing,
        }
    }
}
