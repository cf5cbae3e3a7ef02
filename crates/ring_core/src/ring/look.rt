//! What is seen of a ring between two events: its words, its counts, the frame on top and the reader.
use crate::ring::Core;
use link_marks::Link;
use nested_writer::frame::Frame;
use ring_frames::{Phase, TakeState};

impl Core {
    ghost use Rattle.std.specs.Prelude.{◌≡◌, ◌≤◌, map, length};
    ghost use Rattle.trace_model.specs.declared.limits.TheConstants.{MIN_PAGES, MAX_PAGES};
    ghost use Rattle.link_marks.specs.ModelLinks.{link_of};
    ghost use Rattle.nested_writer.specs.Stack.{opened};
    ghost use Rattle.nested_writer.specs.Calls.{top_of};

    /// The link into each position.
    pub fn links(&self) -> &[Link]
        ensures links { map link_of result.now ≡ self.now.links }
        ensures some { MIN_PAGES ≤ length result.now }
        ensures most { length result.now ≤ MAX_PAGES }
    {
        self.links.as_slice()
    }

    /// The page at each position.
    pub fn order(&self) -> &[u16]
        ensures order { result.now ≡ self.now.order }
        ensures positions { length result.now ≡ length self.now.links }
        ensures some { MIN_PAGES ≤ length result.now }
        ensures most { length result.now ≤ MAX_PAGES }
    {
        self.order.as_slice()
    }

    /// The link of the reader's page.
    pub fn spare_link(&self) -> Link
        ensures { link_of result ≡ self.now.spare_link }
    {
        self.spare_link
    }

    /// The reader's page, which is outside the ring.
    pub fn spare(&self) -> u16
        ensures { result ≡ self.now.spare }
    {
        self.spare
    }

    /// The number of the oldest fill that isn't closed.
    pub fn done(&self) -> u64
        ensures { result ≡ self.now.stack.done }
    {
        self.frames.done()
    }

    /// The number of the next fill to be begun.
    pub fn opened(&self) -> u64
        ensures { result ≡ opened self.now.stack }
    {
        self.frames.opened()
    }

    /// The reader's wish: one more than the number of closed fills that it knew when it wished last, or 0.
    pub fn wish(&self) -> u64
        ensures { result ≡ self.now.wish }
    {
        self.wish
    }

    /// The frame on top, if there is one.
    pub fn top(&self) -> Option<Frame>
        ensures { result ≡ top_of self.now.stack.frames }
    {
        self.frames.top()
    }

    /// How far the frame on top has come. If there is none it says nothing.
    pub fn top_phase(&self) -> Phase
        ensures { result ≡ self.now.phase }
    {
        self.frames.phase()
    }

    /// What the reader keeps of its takes.
    pub fn reader(&self) -> TakeState
        ensures { result ≡ self.now.reader }
    {
        self.reader
    }
}
