//! The payload of the frame on top, lent to be written.
use crate::ring::Core;
use nested_writer::{Payload, WriteFault};

impl Core {
    ghost use Rattle.std.specs.Prelude.{◌≡◌, ℕ, List, length, IfOk};
    ghost use Rattle.std.specs.Borrow.{sem};
    ghost use Rattle.nested_writer.specs.declared.frame.Slot.{Slot};
    ghost use Rattle.nested_writer.specs.Calls.{IsTopSlot};
    ghost use Rattle.nested_writer.specs.Lent.{lent_bytes, with_bytes};
    ghost use Rattle.ring_frames.specs.Lens.{lens, FitsTop};
    ghost use Rattle.ring_frames.specs.Lending.{LendsSlot};
    ghost use Rattle.ring_core.specs.Lending.{FitsFrame, LendsTop, StaysRing, with_lent};
    ghost use Rattle.ring_core.specs.Steps.{IsReachedCore};

    /// The payload in the slot of the frame on top, to be written: it acts as the slice of its slot's bytes: the length
    /// that the frame was pushed for, rounded up to whole words, one at least. All else stays as it is, so the payloads
    /// of the other frames; and the ring is in the same state whatever is written. Refused with `NoFrame` if there is
    /// no frame, and with `NotReserved` if the one on top has no record.
    #[inline(always)]
    pub fn top_mut(&mut self) -> Result<&mut Payload, WriteFault>
        requires ring { IsReachedCore self.old }
        ensures* lends { sem 𝓛 (LendsTop self.entry result) }
        ensures slot { LendsSlot self.old.stack result }
        ensures long { IfOk result (λ payload. FitsTop (lens self.old.stack) (length (lent_bytes payload.now))) }
        ensures unwritten { IfOk result (λ payload. with_lent self.old payload.now ≡ self.old) }
        ensures ring { IfOk result (λ payload. (part : List ℕ)
            → length part ≡ length (lent_bytes payload.now)
            → IsReachedCore (with_lent self.old (with_bytes payload.now part))) }
        ensures fits { (slot : Slot) → IsTopSlot self.old.stack.frames slot → FitsFrame self.old slot }
        ensures stays { (slot : Slot) → IsTopSlot self.old.stack.frames slot → StaysRing self.old }
    {
        self.frames.top_mut()
    }
}
