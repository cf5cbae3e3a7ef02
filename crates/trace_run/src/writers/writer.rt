//! A writer with the payloads of its frames, and its single calls.
ghost use Rattle.std.specs.Prelude.{◌≡◌, ◌↔◌, true};
ghost use Rattle.ring_frames.specs.declared.answer.Answer.TheVariants.{Pushed};

use nested_writer::WriteFault;
use ring_frames::{Answer, write_padded};
use ring_shared::Writer;
use trace_model::MAX_FRAMES;

/// Whether the frame was pushed.
fn is_pushed(answer: Answer) -> bool
    ensures { result ≡ true ↔ answer ≡ Pushed }
{
    matches!(answer, Answer::Pushed)
}

/// The writer of a ring, and the payload of each of its frames: of the bottom frame first.
#[derive(Drop)]
pub(crate) struct LineWriter<'a> {
    pub(crate) writer: Writer,
    /// Those of frames that are popped aren't removed.
    payloads: [&'a [u8]; MAX_FRAMES],
}

impl<'a> LineWriter<'a> {
    ghost use Rattle.std.specs.Prelude.{◌≡◌, ◌≢◌, [], length, OnOk, OnErr};
    ghost use Rattle.trace_model.specs.Steps.{pushes, pushes_close};
    ghost use Rattle.nested_writer.specs.declared.frame.Slot.{Slot};
    ghost use Rattle.nested_writer.specs.Calls.{IsTopSlot};
    ghost use Rattle.ring_shared.specs.Calls.{IsWriter};
    ghost use Rattle.trace_run.specs.writers.LineWriters.{payloads_of, IsLineWriter, Pushes, CallsTop, WritesWhole};

    /// A writer without frames.
    pub(crate) fn new(writer: Writer) -> LineWriter<'a>
        requires writer { IsWriter writer }
        requires none { writer.part.frames ≡ [] }
        ensures writer { result.writer ≡ writer }
        ensures payloads { payloads_of result ≡ [] }
        ensures is { IsLineWriter result }
    {
        LineWriter {
            writer,
            payloads: [&[], &[], &[], &[]],
        }
    }

    /// How many frames there are.
    pub(crate) fn depth(&self) -> usize
        requires { IsWriter self.now.writer }
        ensures { result ≡ length self.now.writer.part.frames }
    {
        self.writer.depth()
    }

    /// Pushes a frame for a record of this moment and payload: whether it was pushed.
    pub(crate) fn push(&mut self, moment: u64, payload: &'a [u8]) -> bool
        requires { IsLineWriter self.old }
        ensures { Pushes (pushes moment (length payload.now)) payload.now self.old result self.new }
    {
        let depth = self.depth();
        if !is_pushed(self.writer.begin(moment, payload.len())) {
            return false;
        }
        self.payloads[depth] = payload;
        true
    }

    /// Pushes a close frame: whether it was pushed.
    pub(crate) fn push_close(&mut self) -> bool
        requires { IsLineWriter self.old }
        ensures { Pushes pushes_close [] self.old result self.new }
    {
        let depth = self.depth();
        if !is_pushed(self.writer.begin_close()) {
            return false;
        }
        let none = &[];
        self.payloads[depth] = none;
        true
    }

    /// A record of this moment and payload is written whole, above the frames on the stack; or it is refused, and no
    /// frame of it is left.
    #[inline(always)]
    pub(crate) fn write_whole(&mut self, moment: u64, payload: &[u8])
        requires { IsLineWriter self.old }
        ensures { WritesWhole moment payload.now self.old self.new }
    {
        let _written = self.writer.write(moment, payload);
    }

    /// One call for the frame on top: it ends with its payload if its record is reserved, or else makes a step.
    pub(crate) fn call_top(&mut self)
        requires is { IsLineWriter self.old }
        requires top { self.old.writer.part.frames ≢ [] }
        ensures { CallsTop self.old self.new }
    {
        if self.end_top().is_err() {
            let _answer = self.writer.step();
        }
    }

    /// The record of the frame on top, if it is reserved, is written and ended; else nothing changes.
    fn end_top(&mut self) -> Result<(), WriteFault>
        requires is { IsLineWriter self.old }
        requires top { self.old.writer.part.frames ≢ [] }
        ensures ended { OnOk result (CallsTop self.old self.new) }
        ensures kept { OnErr result (self.new ≡ self.old) }
        ensures none { OnErr result ((slot : Slot) → IsTopSlot self.old.writer.frames.stack.frames slot → ⊥) }
    {
        let payload = self.payloads[self.depth() - 1];
        write_padded(self.writer.top_mut()?, payload);
        let _answer = self.writer.end();
        Ok(())
    }
}
