//! The payload of the frame on top, lent to be written.
use crate::frames::Frames;
use nested_writer::frame::Slot;
use nested_writer::{Payload, WriteFault};

impl Frames {
    ghost use Rattle.std.specs.Prelude.{◌≡◌, ◌↔◌, [], length, IfOk};
    ghost use Rattle.std.specs.Borrow.{sem};
    ghost use Rattle.nested_writer.specs.declared.frame.Slot.{Slot};
    ghost use Rattle.nested_writer.specs.Calls.{LacksSlot, IsTopSlot};
    ghost use Rattle.nested_writer.specs.Lent.{lent_bytes};
    ghost use Rattle.ring_frames.specs.Lens.{lens, FitsTop};
    ghost use Rattle.ring_frames.specs.Lending.{FitsFrame, LendsSlot, LendsTop, StaysFrames, with_lent};
    ghost use Rattle.ring_frames.specs.Steps.{AreSomeFrames};

    /// Where the record of the frame on top is. Refused with `NoFrame` if there is no frame, and with `NotReserved` if
    /// the one on top has no record.
    #[inline(always)]
    pub fn top_slot(&self) -> Result<Slot, WriteFault>
        ensures no_frame { result ≡ Err WriteFault.NoFrame ↔ self.now.stack.frames ≡ [] }
        ensures not_reserved { result ≡ Err WriteFault.NotReserved ↔ LacksSlot self.now.stack.frames }
        ensures slot { IfOk result (λ slot. IsTopSlot self.now.stack.frames slot) }
        ensures found { (slot : Slot) → IsTopSlot self.now.stack.frames slot → result ≡ Ok slot }
    {
        self.stack.top_slot()
    }

    /// The payload in the slot of the frame on top, to be written: it acts as the slice of its slot's bytes: the length
    /// that the frame was pushed for, rounded up to whole words, one at least. All else stays as it is, so the payloads
    /// of the other frames; and the frames are those of the same states whatever is written. Refused as `top_slot` is.
    #[inline(always)]
    pub fn top_mut(&mut self) -> Result<&mut Payload, WriteFault>
        requires shown { AreSomeFrames self.old }
        ensures* lends { sem 𝓛 (LendsTop self.entry result) }
        ensures slot { LendsSlot self.old.stack result }
        ensures long { IfOk result (λ payload. FitsTop (lens self.old.stack) (length (lent_bytes payload.now))) }
        ensures unwritten { IfOk result (λ payload. with_lent self.old payload.now ≡ self.old) }
        ensures fits { (slot : Slot) → IsTopSlot self.old.stack.frames slot → FitsFrame self.old slot }
        ensures stays { (slot : Slot) → IsTopSlot self.old.stack.frames slot → StaysFrames self.old slot }
    {
        self.stack.top_mut()
    }
}
