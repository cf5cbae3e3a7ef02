//! Frames that are pushed.
ghost use Rattle.std.specs.Prelude.{◌≡◌, ◌<◌, length};
ghost use Rattle.std.specs.VecDeque.{deque_capacity};
ghost use Rattle.nested_writer.specs.TopFrame.{frame_in};
ghost use Rattle.nested_writer.specs.Inside.{frames_from};

use crate::fault::WriteFault;
use crate::frame::{Frame, Progress, Purpose};
use crate::stack::WriterStack;
use crate::stack::top::Top;
use record_words::size_of;
use std::collections::VecDeque;
use trace_model::{MAX_FRAMES, MOMENT_LIMIT};

/// Puts the frame on top, if there is one, before those below it; the tail is this fill.
#[inline(never)]
fn cover(top: &Top, fill: u64, below: &mut VecDeque<Frame>)
    requires { length below.old.items < deque_capacity below.old }
    ensures items { below.new.items ≡ frames_from (frame_in top.now fill) below.old.items }
    ensures room { deque_capacity below.new ≡ deque_capacity below.old }
{
    if let Some(frame) = top.get(fill) {
        below.push_front_reserved(frame);
    }
}

impl WriterStack {
    ghost use Rattle.std.specs.Prelude.{◌≡◌, ℕ, ◌+◌, ◌≤◌, ◌<◌, ◌↔◌, [], ◌∷◌, ◌++◌, List, None, length, IsOk, OnOk};
    ghost use Rattle.std.specs.Prelude.{OnErr};
    ghost use Rattle.trace_model.specs.declared.limits.TheConstants.{MAX_FRAMES, MOMENT_LIMIT};
    ghost use Rattle.trace_model.specs.History.{HistoryEvent, push_close};
    ghost use Rattle.trace_model.specs.Steps.{IsTooLong};
    ghost use Rattle.nested_writer.specs.Calls.{with_frame};
    ghost use Rattle.nested_writer.specs.Kept.{SamePages};
    ghost use Rattle.nested_writer.specs.Next.{IsPushedOn};
    ghost use Rattle.nested_writer.specs.Promises.{Begins};
    ghost use Rattle.nested_writer.specs.IsStack.{IsStack, IsReachedStack};
    ghost use Rattle.nested_writer.specs.declared.frame.Purpose.TheVariants.{Close};
    ghost use Rattle.nested_writer.specs.declared.frame.Progress.TheVariants.{Waiting};

    /// One frame more on top; fewer than `MAX_FRAMES` must be on the stack.
    #[inline(always)]
    fn push(&mut self, purpose: Purpose)
        requires { length self.old.frames < MAX_FRAMES }
        ensures { self.new ≡ with_frame self.old (record { purpose = purpose; progress = Waiting None }) }
    {
        let fill = self.tail_fill();
        if !self.top.is_none() {
            cover(&self.top, fill, &mut self.below);
        }
        self.top.put(Frame {
            purpose,
            progress: Progress::Waiting(None),
        });
    }

    /// Whether a frame for a record of this moment and of a payload of `len` bytes may be pushed.
    #[inline(always)]
    fn admit(&self, moment: u64, len: usize) -> Result<(), WriteFault>
        ensures too_deep { result ≡ Err WriteFault.TooDeep ↔ MAX_FRAMES ≤ length self.now.frames }
        ensures too_long { result ≡ Err WriteFault.TooLong
            ↔ ((length self.now.frames < MAX_FRAMES) × IsTooLong self.now.size len) }
        ensures late { result ≡ Err WriteFault.LateMoment
            ↔ ((length self.now.frames < MAX_FRAMES) × (IsTooLong self.now.size len → ⊥) × (MOMENT_LIMIT ≤ moment)) }
        ensures begun { IsOk result
            ↔ ((length self.now.frames < MAX_FRAMES) × (IsTooLong self.now.size len → ⊥) × (moment < MOMENT_LIMIT)) }
        ensures ok { OnOk result
            ((length self.now.frames < MAX_FRAMES) × (IsTooLong self.now.size len → ⊥) × (moment < MOMENT_LIMIT)) }
    {
        if self.depth() >= MAX_FRAMES {
            return Err(WriteFault::TooDeep);
        }
        if len > self.size || size_of(len, 0, true) > self.size {
            return Err(WriteFault::TooLong);
        }
        if moment >= MOMENT_LIMIT {
            return Err(WriteFault::LateMoment);
        }
        Ok(())
    }

    /// `begin`, whatever is on the stack and whatever it is for.
    #[cold]
    #[inline(never)]
    fn begin_any(&mut self, moment: u64, len: usize) -> Result<(), WriteFault>
        ensures { Begins moment len self.old result self.new }
    {
        self.admit(moment, len)?;
        self.push(Purpose::Record { moment, len });
        Ok(())
    }

    /// `begin`, if a frame is on the stack, which the new one covers.
    #[cold]
    #[inline(never)]
    fn begin_above(&mut self, moment: u64, len: usize) -> Result<(), WriteFault>
        ensures { Begins moment len self.old result self.new }
    {
        if self.below.len() + 1 >= MAX_FRAMES {
            return self.begin_any(moment, len);
        }
        // Fewer than 1 byte, or more than `plain_len`.
        if len.wrapping_sub(1) >= self.plain_len {
            return self.begin_any(moment, len);
        }
        if moment >= MOMENT_LIMIT {
            return self.begin_any(moment, len);
        }
        let fill = self.tail_fill();
        cover(&self.top, fill, &mut self.below);
        self.top.wait(moment, len);
        Ok(())
    }

    /// Pushes a frame for a record of this moment and of a payload of `len` bytes.
    #[inline(always)]
    pub fn begin(&mut self, moment: u64, len: usize) -> Result<(), WriteFault>
        ensures { Begins moment len self.old result self.new }
    {
        if !self.top.is_none() {
            return self.begin_above(moment, len);
        }
        // Fewer than 1 byte, or more than `plain_len`.
        if len.wrapping_sub(1) >= self.plain_len {
            return self.begin_any(moment, len);
        }
        if moment >= MOMENT_LIMIT {
            return self.begin_any(moment, len);
        }
        self.top.wait(moment, len);
        Ok(())
    }

    /// Pushes a close frame: it begins the next fill, if the tail page holds a record.
    pub fn begin_close(&mut self) -> Result<(), WriteFault>
        ensures too_deep { result ≡ Err WriteFault.TooDeep ↔ MAX_FRAMES ≤ length self.old.frames }
        ensures begun { IsOk result ↔ length self.old.frames < MAX_FRAMES }
        ensures ok { OnOk result
            (self.new ≡ with_frame self.old (record { purpose = Close; progress = Waiting None })) }
        ensures err { OnErr result (self.new ≡ self.old) }
        ensures stays { IsReachedStack self.old → IsReachedStack self.new }
        ensures pushed { OnOk result ((start : ℕ) (history : List HistoryEvent)
            → IsStack start history self.old
            → IsStack start (history ++ push_close ∷ []) self.new) }
        ensures kept { SamePages self.old self.new }
        ensures top { OnOk result (IsPushedOn self.old self.new None) }
    {
        if self.depth() >= MAX_FRAMES {
            return Err(WriteFault::TooDeep);
        }
        self.push(Purpose::Close);
        Ok(())
    }
}
