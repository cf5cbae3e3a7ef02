//! A record that is written whole.
use crate::writer::Writer;
use crate::writer::finish::met_first;
use nested_writer::frame::Slot;
use nested_writer::{Ended, WriteFault, Wrote};
use ring_frames::{Answer, StepAnswer, WriteKind, write_padded};
use std::marker::Brand;

impl Writer {
    ghost use Rattle.std.specs.Prelude.{◌≡◌, length};
    ghost use Rattle.nested_writer.specs.Calls.{IsTopSlot};
    ghost use Rattle.ring_shared.specs.Value.{SameWriter};
    ghost use Rattle.ring_shared.specs.Calls.{IsWriter};
    ghost use Rattle.ring_frames.specs.Answers.{KeepsPayloads};
    ghost use Rattle.ring_shared.specs.Covering.{CoversPayloads, KeepsCovered};
    ghost use Rattle.ring_shared.specs.Rooms.{rooms};
    ghost use Rattle.ring_shared.specs.FewSteps.{MakesAtMost, most_to_write};
    ghost use Rattle.ring_shared.specs.Promises.{KeepsWriter};
    ghost use Rattle.ring_shared.specs.WholeWrites.{IsWritten, IsRefusedWrite, IsReserved, EndsRecord};

    /// Writes a record of this moment and payload in one call: what `begin`, `finish_top`, the payload's copy into what
    /// `top_mut` lends, `end`, and `finish_top` if no frame is below, do together, nested in the frames on the stack.
    /// Refused as `begin` is, or as `Crowded` or `Worn`, and then no record is left. In a ring of N pages it makes at
    /// most 3N + 54 steps, whatever the reader does. It doesn't answer the record's number, as the kernel's
    /// `ring_buffer_write` doesn't; the single calls do.
    #[inline(always)]
    pub fn write(&mut self, moment: u64, payload: &[u8]) -> Result<(), WriteFault>
        requires writer { IsWriter self.old }
        ensures written { result ≡ Ok tt → IsWritten self.old.shape self.old.part moment payload.now self.new.part }
        ensures refused { (fault : WriteFault) → result ≡ Err fault
            → IsRefusedWrite self.old.shape self.old.part moment (length payload.now) fault self.new.part }
        ensures few { MakesAtMost (most_to_write self.old.shape) self.old.part self.new.part }
        ensures rooms { rooms self.new ≡ rooms self.old }
        ensures keeps { KeepsWriter self.old self.new }
    {
        match self.write_at_once(WriteKind::Short, moment, payload) {
            Wrote::Record => Ok(()),
            Wrote::Nothing => self.write_rarely(moment, payload),
        }
    }

    /// `write`, if no short record was written at once: another frame is on the stack, the tail has no room, or the
    /// record isn't as nearly all are. It isn't inlined, since that is rare.
    #[cold]
    #[inline(never)]
    fn write_rarely(&mut self, moment: u64, payload: &[u8]) -> Result<(), WriteFault>
        requires writer { IsWriter self.old }
        ensures written { result ≡ Ok tt → IsWritten self.old.shape self.old.part moment payload.now self.new.part }
        ensures refused { (fault : WriteFault) → result ≡ Err fault
            → IsRefusedWrite self.old.shape self.old.part moment (length payload.now) fault self.new.part }
        ensures keeps { KeepsWriter self.old self.new }
    {
        match self.write_at_once(WriteKind::Any, moment, payload) {
            Wrote::Record => Ok(()),
            Wrote::Nothing => self.write_by_steps(moment, payload),
        }
    }

    /// Writes a record in one call, if it is one of these, no frame is on the stack, and it fits in the tail. Else
    /// nothing changes.
    #[inline(always)]
    fn write_at_once(&mut self, records: WriteKind, moment: u64, payload: &[u8]) -> Wrote
        requires writer { IsWriter self.old }
        ensures written { result ≡ Wrote.Record
            → IsWritten self.old.shape self.old.part moment payload.now self.new.part }
        ensures nothing { result ≡ Wrote.Nothing → self.new ≡ self.old }
        ensures keeps { KeepsWriter self.old self.new }
    {
        let Wrote::Record = self.frames.write(records, moment, payload) else {
            return Wrote::Nothing;
        };
        self.seat.note::<Brand, _>(&(moment, payload));
        let wish = self.seat.load_wish();
        if !self.frames.may_be_wished(wish) {
            return Wrote::Record;
        }
        match self.frames.stay(moment, payload.len(), wish) {
            StepAnswer::Gone => Wrote::Record,
            StepAnswer::Going => {
                let _refusal = self.leave_on();
                Wrote::Record
            }
        }
    }

    /// `write`, by single steps.
    #[inline(never)]
    fn write_by_steps(&mut self, moment: u64, payload: &[u8]) -> Result<(), WriteFault>
        requires writer { IsWriter self.old }
        ensures written { result ≡ Ok tt → IsWritten self.old.shape self.old.part moment payload.now self.new.part }
        ensures refused { (fault : WriteFault) → result ≡ Err fault
            → IsRefusedWrite self.old.shape self.old.part moment (length payload.now) fault self.new.part }
        ensures keeps { KeepsWriter self.old self.new }
    {
        let slot = self.reserve_record(moment, payload.len())?;
        write_padded(self.top_mut()?, payload);
        self.end_record(slot);
        Ok(())
    }

    /// Pushes a frame for a record, and reserves the record: the answer is its slot.
    fn reserve_record(&mut self, moment: u64, len: usize) -> Result<Slot, WriteFault>
        requires writer { IsWriter self.old }
        ensures reserved { (slot : Slot) → result ≡ Ok slot
            → IsReserved self.old.shape self.old.part moment len self.new.part }
        ensures slot { (slot : Slot) → result ≡ Ok slot → IsTopSlot self.new.frames.stack.frames slot }
        ensures covers { (slot : Slot) → result ≡ Ok slot
            → CoversPayloads self.old.frames.stack self.new.frames.stack }
        ensures refused { (fault : WriteFault) → result ≡ Err fault
            → IsRefusedWrite self.old.shape self.old.part moment len fault self.new.part }
        ensures payloads { KeepsPayloads self.old.frames.stack self.new.frames.stack }
        ensures ring { SameWriter self.old self.new }
        ensures writer { IsWriter self.new }
    {
        let depth = self.depth();
        if let Some(fault) = met_first(None, self.begin(moment, len)) {
            return Err(fault);
        }
        if let Some(fault) = self.reserve_on() {
            if self.depth() > depth {
                let _refusal = self.leave_on();
            }
            return Err(fault);
        }
        match self.top_slot() {
            Ok(slot) => Ok(slot),
            Err(_) => unreachable!(),
        }
    }

    /// The frame on top, whose record is in this slot, ends; if there is none below it, it makes steps until it is
    /// gone.
    fn end_record(&mut self, slot: Slot)
        requires writer { IsWriter self.old }
        requires slot { IsTopSlot self.old.frames.stack.frames slot }
        ensures ends { EndsRecord self.old self.new }
        ensures covered { KeepsCovered self.old.frames.stack self.new.frames.stack }
        ensures ring { SameWriter self.old self.new }
        ensures writer { IsWriter self.new }
    {
        let _slot = slot;
        if stands_alone(self.end()) {
            let _refusal = self.leave_on();
        }
    }
}

/// Whether the frame that was ended stays on the stack, as the only one.
fn stands_alone(answer: Answer) -> bool
    ensures { result ≡ true ↔ answer ≡ HasEnded Full }
{
    matches!(answer, Answer::Ended(Ended::Full))
}

ghost use Rattle.std.specs.Prelude.{◌≡◌, ◌↔◌, true};
ghost use Rattle.nested_writer.specs.declared.stack.leave.Ended.TheVariants.{Full};
ghost use Rattle.ring_frames.specs.declared.answer.Answer.TheVariants.{Ended as HasEnded};
