//! The writer's end.
mod finish;
mod frames;
mod head;
mod new;
mod pages;
mod step;
mod top;
mod turning;
mod write;

use page_image::Page;
use ring_frames::Frames;
use ring_steps::WriterSeat;
use std::collections::VecDeque;
use std::fmt;
use std::marker::Model;

/// The end of a running ring at which records are put in, by writers of which each may interrupt the one before.
#[derive(Drop)]
pub struct Writer {
    pub(crate) seat: WriterSeat,
    /// The frames of the writers on the stack, and the pages that they write.
    pub(crate) frames: Frames,
    /// The numbers of these pages, the oldest first. It has room for the ring's pages, and never takes more.
    pub(crate) pages: VecDeque<u16>,
}

impl Model for Writer {
    ghost use Rattle.std.specs.Prelude.{◌≡◌};
    ghost use Rattle.std.specs.VecDeque.{deque_capacity};
    ghost use Rattle.ring_steps.specs.Ends.{writing_in, passed_in, writer_table};
    ghost use Rattle.ring_shared.specs.Value.{WriterValue};

    ghost Value = { WriterValue };

    ghost view = { λ w. record {
      shape = w.seat.shape;
      table = writer_table w.seat;
      part = writing_in w.seat;
      passed = passed_in w.seat;
      frames = w.frames;
      pages = w.pages.items;
    } };

    ghost invariant = { λ w. w.seat.shape.pages ≡ deque_capacity w.pages };
}

impl Writer {
    ghost use Rattle.std.specs.Prelude.{◌≡◌, ◌↔◌, ◌+◌, ◌^◌, ◌<◌, [], length, IsSome, IfSome};
    ghost use Rattle.trace_model.specs.Ring.{fill_of};
    ghost use Rattle.nested_writer.specs.Released.{IsRestingTail};
    ghost use Rattle.nested_writer.specs.Unclosed.{AreUnclosed};
    ghost use Rattle.ring_shared.specs.Calls.{closes_first, IsWriter};

    /// The tail page, to be read, if no frame is on the stack: all records that are committed from its first number on.
    #[inline(always)]
    pub fn resting_tail(&self) -> Option<&Page>
        requires writer { IsWriter self.now }
        ensures at_rest { IsSome result ↔ (self.now.part.frames ≡ []) }
        ensures tail { IfSome result (λ page. page.now ≡ self.now.frames.stack.tail) }
        ensures rests { IfSome result (λ page. IsRestingTail self.now.shape.size self.now.part.done
            (fill_of self.now.part.history self.now.shape.start self.now.part.done)
            self.now.part.history page.now) }
        ensures numbers_fit { IfSome result (λ page. page.now.first + page.now.count < 2 ^ 64) }
    {
        if !self.frames.is_empty() {
            return None;
        }
        Some(self.frames.resting_tail())
    }

    /// The number of frames on the stack.
    #[inline(always)]
    pub fn depth(&self) -> usize
        ensures stack { result ≡ length self.now.frames.stack.frames }
        ensures part { IsWriter self.now → result ≡ length self.now.part.frames }
        ensures none { IsWriter self.now → result ≡ 0 → self.now.part.frames ≡ [] }
    {
        self.frames.depth()
    }

    /// The number of the oldest fill that isn't closed. If the ring's first fill has the number 0, it is the number of
    /// closed fills.
    #[inline(always)]
    pub fn done(&self) -> u64
        ensures stack { result ≡ self.now.frames.stack.done }
        ensures part { IsWriter self.now → result ≡ self.now.part.done }
    {
        self.frames.done()
    }

    /// The number of the next fill to be begun.
    #[inline(always)]
    pub fn opened(&self) -> u64
        ensures { IsWriter self.now → result ≡ self.now.part.opened }
    {
        self.frames.opened()
    }

    /// How many records are reserved and in no closed fill.
    pub fn unclosed(&self) -> u64
        requires writer { IsWriter self.now }
        ensures { AreUnclosed self.now.shape.start self.now.part.done self.now.part.history result }
    {
        self.frames.unclosed()
    }

    /// Whether the frame on top is a close.
    #[inline(always)]
    pub fn tops_close(&self) -> bool
        ensures { IsWriter self.now → result ≡ closes_first self.now.part.frames }
    {
        self.frames.tops_close()
    }
}

/// The number of frames on the stack, and of the oldest fill that is not closed: the rest of a writer has no short
/// text.
impl fmt::Debug for Writer {
    fn fmt<W: fmt::Write>(&self, f: &mut fmt::Formatter<W>) -> fmt::Result {
        f.debug_struct("Writer")
            .field("depth", &self.depth())
            .field("done", &self.done())
            .finish_non_exhaustive()
    }
}
