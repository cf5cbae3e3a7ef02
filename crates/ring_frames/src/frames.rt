//! The writers' stack, with the phase of each of its frames.
mod fills;
mod leave;
mod push;
mod tail;
mod top;
pub mod write;

use crate::packed_phase::PackedPhase;
use crate::phase::{Phase, Role};
use nested_writer::WriterStack;
use nested_writer::frame::Frame;
use std::alloc::Global;
use std::collections::VecDeque;
use std::marker::Model;
use trace_model::{MAX_FRAMES, NoMemory};

/// The frames of a ring's writers.
#[derive(Drop)]
pub struct Frames {
    /// The frames, the pages that they write, and how many fills are begun and closed.
    stack: WriterStack,
    /// How far the frame on top has got. If there is none it says nothing.
    phase: PackedPhase,
    /// How far those below it have got, the upper ones first.
    below: VecDeque<Phase>,
}

impl Model for Frames {
    ghost use Rattle.ring_frames.specs.Value.{FramesValue};
    ghost use Rattle.ring_frames.specs.Inside.{frames_in, IsInside};

    ghost Value = { FramesValue };

    ghost view = { frames_in };

    ghost invariant = { IsInside };
}

impl Frames {
    ghost use Rattle.std.specs.Prelude.{◌≡◌, ◌≢◌, ℕ, true, false, ◌+◌, ◌≤◌, ◌<◌, ◌↔◌, List, [], length, IfOk, IsTrue};
    ghost use Rattle.trace_model.specs.declared.limits.TheConstants.{MIN_PAGES, MAX_PAGES, MIN_SIZE, MAX_SIZE};
    ghost use Rattle.trace_model.specs.declared.limits.TheConstants.{MAX_FRAMES, LINK_FILLS};
    ghost use Rattle.trace_model.specs.History.{HistoryEvent};
    ghost use Rattle.trace_model.specs.Ring.{HasRingLimits};
    ghost use Rattle.trace_model.specs.Steps.{MayContinue};
    ghost use Rattle.nested_writer.specs.Stack.{opened};
    ghost use Rattle.nested_writer.specs.Calls.{top_of, tops_close};
    ghost use Rattle.nested_writer.specs.IsStack.{IsStack};
    ghost use Rattle.nested_writer.specs.Unclosed.{AreUnclosed};
    ghost use Rattle.ring_frames.specs.declared.phase.Role.TheVariants.{Helper};
    ghost use Rattle.ring_frames.specs.declared.phase.Phase.TheVariants.{Idle, Wishing};
    ghost use Rattle.ring_frames.specs.Value.{role_of};
    ghost use Rattle.ring_frames.specs.Steps.{AreNew, AreSomeFrames};

    /// No frame, over the empty tail page of a new ring of `pages` pages of `size` bytes of data each, whose first fill
    /// has the number `start`. All room is made here: no other call takes memory.
    pub fn new_at(alloc: Global, pages: usize, size: usize, start: u64) -> Result<Frames, NoMemory>
        requires limits { HasRingLimits pages size }
        requires start { start + pages < LINK_FILLS }
        ensures { IfOk result (λ frames. AreNew pages size start frames) }
    {
        let stack = WriterStack::new_at(alloc, pages, size, start)?;
        let below = VecDeque::with_capacity(alloc, MAX_FRAMES)?;
        Ok(Frames {
            stack,
            phase: PackedPhase::idle(),
            below,
        })
    }

    /// Whether no frame is on the stack.
    #[inline(always)]
    pub fn is_empty(&self) -> bool
        ensures { IsTrue result ↔ self.now.stack.frames ≡ [] }
    {
        self.stack.is_empty()
    }

    /// The number of frames on the stack.
    #[inline(always)]
    pub fn depth(&self) -> usize
        ensures frames { result ≡ length self.now.stack.frames }
        ensures most { result ≤ MAX_FRAMES }
    {
        self.stack.depth()
    }

    /// How many bytes of data a page has.
    #[inline(always)]
    pub fn size(&self) -> usize
        ensures size { result ≡ self.now.stack.size }
        ensures least { MIN_SIZE ≤ result }
        ensures most { result ≤ MAX_SIZE }
    {
        self.stack.size()
    }

    /// How many pages the ring has.
    #[inline(always)]
    pub fn pages(&self) -> usize
        ensures pages { result ≡ self.now.stack.pages }
        ensures least { MIN_PAGES ≤ result }
        ensures most { result ≤ MAX_PAGES }
    {
        self.stack.pages()
    }

    /// The number of the oldest fill that isn't closed.
    #[inline(always)]
    pub fn done(&self) -> u64
        ensures { result ≡ self.now.stack.done }
    {
        self.stack.done()
    }

    /// The number of the next fill to be begun.
    #[inline(always)]
    pub fn opened(&self) -> u64
        ensures begun { result ≡ opened self.now.stack }
        ensures open_pages { result ≤ self.now.stack.done + self.now.stack.pages }
        ensures numbered { result + self.now.stack.pages ≤ LINK_FILLS }
    {
        self.stack.opened()
    }

    /// How many records are reserved and in no closed fill.
    pub fn unclosed(&self) -> u64
        requires shown { AreSomeFrames self.now }
        ensures { (start : ℕ) (history : List HistoryEvent)
            → IsStack start history self.now.stack
            → AreUnclosed start self.now.stack.done history result }
    {
        self.stack.unclosed()
    }

    /// Whether a frame of this role, which noted this fill, stops: a helper does if another frame has begun a fill.
    #[inline(always)]
    pub fn stops(&self, role: Role, noted: u64) -> bool
        ensures stops { result ≡ true → (role ≡ Helper) × (noted ≢ opened self.now.stack) }
        ensures goes_on { result ≡ false → MayContinue (role_of role) noted (opened self.now.stack) }
    {
        match role {
            Role::Owner => false,
            Role::Helper => noted != self.stack.opened(),
        }
    }

    /// The frame on top.
    #[inline(always)]
    pub fn top(&self) -> Option<Frame>
        ensures { result ≡ top_of self.now.stack.frames }
    {
        self.stack.top()
    }

    /// Whether the frame on top is a close.
    #[inline(always)]
    pub fn tops_close(&self) -> bool
        ensures { result ≡ tops_close self.now.stack.frames }
    {
        self.stack.tops_close()
    }

    /// How far the frame on top has got. If there is none it says nothing.
    #[inline(always)]
    pub fn phase(&self) -> Phase
        ensures { result ≡ self.now.phase }
    {
        self.phase.get()
    }

    /// Whether the frame on top has noted nothing and is to reserve its record; or has reserved it. If there is none it
    /// says nothing.
    #[inline(always)]
    pub fn is_idle(&self) -> bool
        ensures { IsTrue result ↔ self.now.phase ≡ Idle }
    {
        self.phase.is_idle()
    }

    /// Whether the frame on top is to look for the reader's wish. If there is none it says nothing.
    #[inline(always)]
    pub fn is_wishing(&self) -> bool
        ensures { IsTrue result ↔ self.now.phase ≡ Wishing }
    {
        self.phase.is_wishing()
    }
}
