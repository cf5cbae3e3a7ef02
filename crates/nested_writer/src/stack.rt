//! The writer's stack: its open pages and its frames.
mod above;
pub mod allot;
pub mod leave;
pub mod lend;
pub mod look;
pub mod pages;
pub mod push;
mod top;
pub mod write;

use crate::frame::Frame;
use crate::older::Older;
use crate::payload::Payload;
use crate::stack::top::Top;
use page_image::{Body, Page};
use record_words::SHORT_LIMIT;
use std::alloc::Global;
use std::collections::VecDeque;
use std::fmt;
use std::marker::Model;
use trace_model::{FillNo, MAX_FRAMES, NoMemory, RecordNo, START_FILL};

/// How many bytes a record may take beside its payload, without a time extend: two words, and zeros up to a whole word.
const MOST_AROUND: usize = 12;

/// The frames of one ring's writers, over the pages of the fills that are begun and not closed.
#[derive(Drop)]
pub struct WriterStack {
    pages: usize,
    size: usize,
    done: u64,
    /// The open pages but the tail page.
    older: Older,
    /// The tail page.
    tail: Payload,
    top: Top,
    below: VecDeque<Frame>,
    last_moment: u64,
    /// A payload of up to this many bytes, at most `SHORT_LIMIT`, has a record with room on an empty page; a longer one
    /// may have one, too.
    plain_len: usize,
    /// How far the tail may be filled for any short record (`docs/GLOSSARY.md`) to have room after it; 0 if none has.
    plain_end: usize,
}

impl Model for WriterStack {
    ghost use Rattle.nested_writer.specs.Stack.{Stack};

    ghost Value = { Stack };

    ghost use Rattle.nested_writer.specs.Inside.{stack_of, IsWriterStack};

    ghost view = { stack_of };

    ghost invariant = { IsWriterStack };
}

impl WriterStack {
    ghost use Rattle.std.specs.Prelude.{◌≡◌, ◌+◌, ◌<◌, [], IfOk};
    ghost use Rattle.trace_model.specs.declared.limits.TheConstants.{LINK_FILLS, START_FILL};
    ghost use Rattle.trace_model.specs.Ring.{HasRingLimits};
    ghost use Rattle.nested_writer.specs.Stack.{new_stack};
    ghost use Rattle.nested_writer.specs.IsStack.{IsStack, IsReachedStack};

    /// A stack without a frame, over one empty page of `size` bytes of data, in a ring of `pages` pages whose first
    /// fill has the number `start`. All room is made here: no other call takes memory.
    pub fn new_at(
        alloc: Global,
        pages: usize,
        size: usize,
        start: u64,
    ) -> Result<WriterStack, NoMemory>
        requires limits { HasRingLimits pages size }
        requires start { start + pages < LINK_FILLS }
        ensures blank { IfOk result (λ stack. stack ≡ new_stack pages size start) }
        ensures stack { IfOk result (λ stack. IsStack start [] stack) }
        ensures stands { IfOk result (λ stack. IsReachedStack stack) }
    {
        let older = Older::new(alloc, pages)?;
        let below = VecDeque::with_capacity(alloc, MAX_FRAMES)?;
        let body = Body::new(alloc, size)?;
        Ok(WriterStack {
            pages,
            size,
            done: start,
            older,
            tail: Payload::of(Page::fresh(body, RecordNo(0), FillNo(start))),
            top: Top::none(),
            below,
            last_moment: 0,
            plain_len: SHORT_LIMIT.min(size - MOST_AROUND),
            plain_end: size.saturating_sub(4 + SHORT_LIMIT),
        })
    }

    /// A stack in a ring whose first fill has the number `START_FILL`.
    pub fn new(alloc: Global, pages: usize, size: usize) -> Result<WriterStack, NoMemory>
        requires limits { HasRingLimits pages size }
        ensures blank { IfOk result (λ stack. stack ≡ new_stack pages size START_FILL) }
        ensures stack { IfOk result (λ stack. IsStack START_FILL [] stack) }
        ensures stands { IfOk result (λ stack. IsReachedStack stack) }
    {
        WriterStack::new_at(alloc, pages, size, START_FILL)
    }
}

impl fmt::Debug for WriterStack {
    fn fmt<F: fmt::Write>(&self, f: &mut fmt::Formatter<F>) -> fmt::Result {
        f.debug_struct("WriterStack")
            .field("pages", &self.pages)
            .field("size", &self.size)
            .field("done", &self.done)
            .field("tail", &self.tail)
            .finish_non_exhaustive()
    }
}
