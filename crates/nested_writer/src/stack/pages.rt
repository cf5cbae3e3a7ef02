//! Pages that are added to the stack, and released from it.
//!
//! A ring uses them so: as it begins a fill, it passes in the body of the page at that position; as it closes one, it
//! puts the released page back there, with its number, its first record's number and all records written, for the
//! reader to take; and when it is at rest, the tail is the only page left, of which all records are committed too.
use crate::payload::Payload;
use crate::stack::WriterStack;
use page_image::{Body, Page};
use std::mem;
use trace_model::{FillNo, RecordNo};

impl WriterStack {
    ghost use Rattle.std.specs.Prelude.{◌≡◌, ℕ, ◌+◌, ◌<◌, [], ◌∷◌, List, length, IsTrue};
    ghost use Rattle.trace_model.specs.declared.limits.TheConstants.{LINK_FILLS};
    ghost use Rattle.trace_model.specs.History.{HistoryEvent, open_fill, reserved_records, is_settled};
    ghost use Rattle.trace_model.specs.Ring.{fill_of};
    ghost use Rattle.page_image.specs.Contents.{IsPage};
    ghost use Rattle.nested_writer.specs.Stack.{opened, next_number, blank_page};
    ghost use Rattle.nested_writer.specs.Calls.{with_tail, MayAddPage, IsAtBottom};
    ghost use Rattle.nested_writer.specs.Allotted.{HasEvents};
    ghost use Rattle.nested_writer.specs.Released.{IsWrittenPage, AreCommitted, IsRestingTail};
    ghost use Rattle.nested_writer.specs.Kept.{SameShape};
    ghost use Rattle.nested_writer.specs.IsStack.{IsStack, IsReachedStack};

    /// Begins the next fill in this body, for the frame on top, which got the answer that it needs a page, or which was
    /// asked to close the tail; no page was added since.
    pub fn add_page(&mut self, body: Body)
        requires stack { IsReachedStack self.old }
        requires size { length body ≡ self.old.size }
        requires room { length self.old.older + 1 < self.old.pages }
        requires fills { opened self.old + self.old.pages < LINK_FILLS }
        requires needs { MayAddPage self.old self.old.frames }
        ensures page { self.new
            ≡ with_tail self.old (blank_page self.old.size (next_number self.old) (opened self.old)) }
        ensures numbered { (start : ℕ) (history : List HistoryEvent)
            → IsStack start history self.old
            → next_number self.old ≡ length (reserved_records history) }
        ensures stack { HasEvents self.old (open_fill ∷ []) self.new }
        ensures stays { IsReachedStack self.new }
        ensures kept { SameShape self.old self.new }
        ensures frames { self.new.frames ≡ self.old.frames }
        ensures done { self.new.done ≡ self.old.done }
        ensures more { length self.new.older ≡ length self.old.older + 1 }
    {
        let first = self.tail.first_number().0 + self.tail.count();
        let fill = self.tail.fill_number().0 + 1;
        let page = Page::fresh(body, RecordNo(first), FillNo(fill));
        let tail = mem::replace(&mut self.tail, Payload::of(page));
        self.older.push(tail);
    }

    /// Releases the oldest page, which isn't the tail, while only the bottom frame is on the stack, which has left: the
    /// first fill that isn't closed, of which all records are committed.
    pub fn drop_front(&mut self) -> Page
        requires more { 0 < length self.old.older }
        requires bottom { IsAtBottom self.old.frames }
        ensures oldest { self.old.older ≡ result ∷ self.new.older }
        ensures released { self.new ≡ record self.old { done = self.old.done + 1; older = self.new.older } }
        ensures stack { HasEvents self.old [] self.new }
        ensures stays { IsReachedStack self.old → IsReachedStack self.new }
        ensures written { (start : ℕ) (history : List HistoryEvent)
            → IsStack start history self.old
            → IsWrittenPage self.old.size self.old.done (fill_of history start self.old.done) result }
        ensures committed { (start : ℕ) (history : List HistoryEvent)
            → IsStack start history self.old
            → AreCommitted history result }
        ensures page { IsReachedStack self.old → IsPage result }
        ensures size { IsReachedStack self.old → result.size ≡ self.old.size }
        ensures holds_some { (start : ℕ) (history : List HistoryEvent)
            → IsStack start history self.old
            → 0 < result.count }
        ensures settled { (start : ℕ) (history : List HistoryEvent)
            → IsStack start history self.old
            → IsTrue (is_settled history) }
        ensures kept { SameShape self.old self.new }
        ensures tail { self.new.tail ≡ self.old.tail }
        ensures bottom { IsAtBottom self.new.frames }
        ensures done { self.new.done ≡ self.old.done + 1 }
        ensures fewer { length self.old.older ≡ length self.new.older + 1 }
        ensures last { length self.old.older ≡ 1 → self.new.older ≡ [] }
    {
        match self.older.pop() {
            Some(page) => {
                self.done += 1;
                page
            }
            None => unreachable!(),
        }
    }

    /// The tail page of an empty stack, to be read: the only open one, of which all records are committed.
    #[inline(always)]
    pub fn resting_tail(&self) -> &Page
        requires none { self.now.frames ≡ [] }
        ensures tail { result.now ≡ self.now.tail }
        ensures rests { (start : ℕ) (history : List HistoryEvent)
            → IsStack start history self.now
            → IsRestingTail self.now.size self.now.done (fill_of history start self.now.done) history result.now }
    {
        self.tail.page()
    }

    /// The tail page of an empty stack, the only open one, of which all records are committed.
    pub fn into_tail(self) -> Page
        requires none { self.frames ≡ [] }
        ensures tail { result ≡ self.tail }
        ensures alone { self.older ≡ [] }
        ensures page { IsReachedStack self → IsPage result }
        ensures size { IsReachedStack self → result.size ≡ self.size }
        ensures written { (start : ℕ) (history : List HistoryEvent)
            → IsStack start history self
            → IsWrittenPage self.size self.done (fill_of history start self.done) result }
        ensures committed { (start : ℕ) (history : List HistoryEvent)
            → IsStack start history self
            → AreCommitted history result }
        ensures settled { (start : ℕ) (history : List HistoryEvent)
            → IsStack start history self
            → IsTrue (is_settled history) }
    {
        let WriterStack { tail, .. } = self;
        tail.into_page()
    }
}
