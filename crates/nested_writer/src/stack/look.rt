//! What a ring reads of its writers' stack.
use crate::frame::{Frame, Progress};
use crate::stack::WriterStack;

impl WriterStack {
    ghost use Rattle.std.specs.Prelude.{◌≡◌, ℕ, ◌+◌, ◌≤◌, ◌↔◌, List, [], length, IsTrue};
    ghost use Rattle.trace_model.specs.History.{HistoryEvent};
    ghost use Rattle.trace_model.specs.declared.limits.TheConstants.{MIN_PAGES, MAX_PAGES, MIN_SIZE, MAX_SIZE};
    ghost use Rattle.trace_model.specs.declared.limits.TheConstants.{MAX_FRAMES, LINK_FILLS};
    ghost use Rattle.nested_writer.specs.Stack.{tail_fill, opened};
    ghost use Rattle.nested_writer.specs.Calls.{top_of, tops_close, IsAtBottom, MayAddPage};
    ghost use Rattle.nested_writer.specs.Unclosed.{AreUnclosed};
    ghost use Rattle.nested_writer.specs.IsStack.{IsStack, IsReachedStack};

    /// How many pages the ring has.
    #[inline(always)]
    pub fn pages(&self) -> usize
        ensures pages { result ≡ self.now.pages }
        ensures least { MIN_PAGES ≤ result }
        ensures most { result ≤ MAX_PAGES }
    {
        self.pages
    }

    /// How many bytes of data a page has.
    #[inline(always)]
    pub fn size(&self) -> usize
        ensures size { result ≡ self.now.size }
        ensures least { MIN_SIZE ≤ result }
        ensures most { result ≤ MAX_SIZE }
    {
        self.size
    }

    /// The number of the oldest fill that isn't closed.
    #[inline(always)]
    pub fn done(&self) -> u64
        ensures { result ≡ self.now.done }
    {
        self.done
    }

    /// The number of the next fill to be begun.
    #[inline(always)]
    pub fn opened(&self) -> u64
        ensures begun { result ≡ opened self.now }
        ensures open_pages { result ≤ self.now.done + self.now.pages }
        ensures numbered { result + self.now.pages ≤ LINK_FILLS }
    {
        self.done + self.older.len() as u64 + 1
    }

    /// The number of the tail's fill.
    #[inline(always)]
    pub(crate) fn tail_fill(&self) -> u64
        ensures { result ≡ tail_fill self.now }
    {
        self.done + self.older.len() as u64
    }

    /// How many records are reserved and in no closed fill.
    pub fn unclosed(&self) -> u64
        requires stack { IsReachedStack self.now }
        ensures { (start : ℕ) (history : List HistoryEvent)
            → IsStack start history self.now
            → AreUnclosed start self.now.done history result }
    {
        let first = self.tail.first_number().0;
        let next = first + self.tail.count();
        next - self.older.first_number().unwrap_or(first)
    }

    /// Whether the stack is empty.
    #[inline(always)]
    pub fn is_empty(&self) -> bool
        ensures { IsTrue result ↔ self.now.frames ≡ [] }
    {
        self.top.is_none()
    }

    /// How many frames are on the stack.
    #[inline(always)]
    pub fn depth(&self) -> usize
        ensures frames { result ≡ length self.now.frames }
        ensures most { result ≤ MAX_FRAMES }
    {
        if self.top.is_none() {
            0
        } else {
            1 + self.below.len()
        }
    }

    /// The frame on top, and how far it has come.
    #[inline(always)]
    pub fn top(&self) -> Option<Frame>
        ensures { result ≡ top_of self.now.frames }
    {
        self.top.get(self.tail_fill())
    }

    /// Whether the frame on top is a close.
    #[inline(always)]
    pub fn tops_close(&self) -> bool
        ensures { result ≡ tops_close self.now.frames }
    {
        self.top.is_close()
    }

    /// Whether only the bottom frame is on the stack, ended or refused.
    #[inline(always)]
    pub fn is_at_bottom(&self) -> bool
        ensures { IsTrue result ↔ IsAtBottom self.now.frames }
    {
        match self.top.get(self.tail_fill()) {
            Some(top) => self.below.is_empty() && matches!(top.progress, Progress::Left(_)),
            None => false,
        }
    }

    /// Whether a page may be added: the frame on top got the answer that it needs one, or the bottom frame was asked to
    /// close the tail, and none was added since.
    #[inline(always)]
    pub fn awaits_page(&self) -> bool
        ensures { IsTrue result ↔ MayAddPage self.now self.now.frames }
    {
        let Some(top) = self.top.get(self.tail_fill()) else {
            return false;
        };
        match top.progress {
            Progress::Waiting(noted) | Progress::Left(noted) => noted == Some(self.opened()),
            Progress::Through(_) | Progress::Reserved(_) => false,
        }
    }
}
