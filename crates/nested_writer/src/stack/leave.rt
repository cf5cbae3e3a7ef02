//! Frames that leave.
use crate::fault::WriteFault;
use crate::frame::{Frame, Progress};
use crate::stack::WriterStack;

/// How a frame was ended.
#[derive(Clone, Copy, Debug, PartialEq, Eq)]
pub enum Ended {
    /// There is a frame below it: its record is committed once that one, and all below, have left too.
    Pending,
    /// It is the bottom frame, which stays to close all fills but the tail, and then to look for the reader's wish.
    Full,
}

impl WriterStack {
    ghost use Rattle.std.specs.Prelude.{◌≡◌, ◌≢◌, ℕ, ◌↔◌, [], ◌∷◌, List, Some, IsTrue};
    ghost use Rattle.trace_model.specs.History.{HistoryEvent, wished};
    ghost use Rattle.trace_model.specs.Packing.{tail_of};
    ghost use Rattle.nested_writer.specs.Stack.{opened};
    ghost use Rattle.nested_writer.specs.Calls.{with_bottom, IsAtBottom, MayAddPage};
    ghost use Rattle.nested_writer.specs.Allotted.{HasEvents};
    ghost use Rattle.nested_writer.specs.Promises.{EndsTop};
    ghost use Rattle.nested_writer.specs.Kept.{SamePages};
    ghost use Rattle.nested_writer.specs.IsStack.{IsStack, IsReachedStack};

    /// `end`, however far the frame on top has come.
    #[cold]
    #[inline(never)]
    fn end_any(&mut self) -> Result<Ended, WriteFault>
        requires stack { IsReachedStack self.old }
        ensures { EndsTop self.old result self.new }
    {
        let Some(top) = self.top.get(self.tail_fill()) else {
            return Err(WriteFault::NoFrame);
        };
        match top.progress {
            Progress::Waiting(_) | Progress::Left(_) => return Err(WriteFault::NotReserved),
            Progress::Through(_) | Progress::Reserved(_) => {}
        }
        let ended = if self.below.is_empty() {
            Ended::Full
        } else {
            Ended::Pending
        };
        self.leave();
        Ok(ended)
    }

    /// Ends the frame on top, whose record is reserved, or which is a close frame that needs no page.
    #[inline(always)]
    pub fn end(&mut self) -> Result<Ended, WriteFault>
        requires stack { IsReachedStack self.old }
        ensures { EndsTop self.old result self.new }
    {
        if !self.top.holds_record() {
            return self.end_any();
        }
        if self.below.is_empty() {
            self.leave();
            return Ok(Ended::Full);
        }
        self.leave();
        Ok(Ended::Pending)
    }

    /// Whether the tail holds a record, so that it can be closed for the reader: then a page may be added once for the
    /// bottom frame, the only one on the stack, which has left.
    pub fn ask_close(&mut self) -> bool
        requires bottom { IsAtBottom self.old.frames }
        ensures asked { IsTrue result ↔ self.old.tail.bytes ≢ [] }
        ensures holds_record { (start : ℕ) (history : List HistoryEvent)
            → IsStack start history self.old
            → (IsTrue result ↔ tail_of history ≢ []) }
        ensures yes { IsTrue result → self.new ≡ with_bottom self.old (Some (opened self.old)) }
        ensures wished { IsTrue result → HasEvents self.old (wished ∷ []) self.new }
        ensures stays { IsReachedStack self.old → IsReachedStack self.new }
        ensures no { self.old.tail.bytes ≡ [] → self.new ≡ self.old }
        ensures kept { SamePages self.old self.new }
        ensures bottom { IsAtBottom self.new.frames }
        ensures may_add { IsTrue result → MayAddPage self.new self.new.frames }
    {
        if self.tail.end() == 0 {
            return false;
        }
        let opened = self.opened();
        if let Some(bottom) = self.top.get(self.tail_fill()) {
            self.top.put(Frame {
                progress: Progress::Left(Some(opened)),
                ..bottom
            });
        }
        true
    }

    /// Takes the bottom frame off, which has left; all fills but the tail must be released.
    #[inline(always)]
    pub fn pop_bottom(&mut self)
        requires bottom { IsAtBottom self.old.frames }
        requires released { self.old.older ≡ [] }
        ensures popped { self.new ≡ record self.old { frames = [] } }
        ensures stack { HasEvents self.old [] self.new }
        ensures stays { IsReachedStack self.old → IsReachedStack self.new }
        ensures kept { SamePages self.old self.new }
        ensures none { self.new.frames ≡ [] }
    {
        self.tail.store_commit();
        self.top.clear();
    }
}
