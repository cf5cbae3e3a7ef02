//! The payload of the frame on top, lent to be written.
use crate::writer::Writer;
use nested_writer::frame::Slot;
use nested_writer::{Payload, WriteFault};

impl Writer {
    ghost use Rattle.std.specs.Prelude.{◌≡◌, ◌↔◌, ℕ, List, [], ◌∷◌, Option, Some, length, IsOk, IfOk};
    ghost use Rattle.std.specs.Borrow.{sem};
    ghost use Rattle.nested_writer.specs.Calls.{LacksSlot, IsTopSlot};
    ghost use Rattle.nested_writer.specs.Lent.{lent_bytes, with_bytes};
    ghost use Rattle.ring_frames.specs.Lending.{LendsSlot};
    ghost use Rattle.ring_shared.specs.Calls.{IsWriter};
    ghost use Rattle.ring_shared.specs.Rooms.{rooms, IsTopRoom};
    ghost use Rattle.ring_shared.specs.Lending.{FitsFrame, LendsTop, with_lent};

    /// Where the record of the frame on top is. Refused with `NoFrame` if there is no frame, and with `NotReserved` if
    /// the one on top has no record.
    #[inline(always)]
    pub(crate) fn top_slot(&self) -> Result<Slot, WriteFault>
        ensures no_frame { result ≡ Err WriteFault.NoFrame ↔ self.now.frames.stack.frames ≡ [] }
        ensures not_reserved { result ≡ Err WriteFault.NotReserved ↔ LacksSlot self.now.frames.stack.frames }
        ensures slot { IfOk result (λ slot. IsTopSlot self.now.frames.stack.frames slot) }
        ensures found { (slot : Slot) → IsTopSlot self.now.frames.stack.frames slot → result ≡ Ok slot }
    {
        self.frames.top_slot()
    }

    /// The payload of the frame on top, to be written: it acts as the slice of its bytes. All else stays as it is, so
    /// the payloads of the other frames; and it touches no word of the ring. Refused with `NoFrame` if there is no
    /// frame, and with `NotReserved` if the one on top has no record.
    #[inline(always)]
    pub fn top_mut(&mut self) -> Result<&mut Payload, WriteFault>
        requires writer { IsWriter self.old }
        ensures* lends { sem 𝓛 (LendsTop self.entry result) }
        ensures slot { LendsSlot self.old.frames.stack result }
        ensures held { (slot : Slot) → IsTopSlot self.old.frames.stack.frames slot → IsOk result }
        ensures unwritten { IfOk result (λ payload. with_lent self.old payload.now ≡ self.old) }
        ensures room { IfOk result (λ payload. IsTopRoom self.old (length (lent_bytes payload.now))) }
        ensures long { (bytes : ℕ) (below : List (Option ℕ))
            → rooms self.old ≡ Some bytes ∷ below
            → IfOk result (λ payload. length (lent_bytes payload.now) ≡ bytes) }
        ensures fits { (slot : Slot) → IsTopSlot self.old.frames.stack.frames slot → FitsFrame self.old slot }
        ensures writer { IfOk result (λ payload. (part : List ℕ)
            → length part ≡ length (lent_bytes payload.now)
            → IsWriter (with_lent self.old (with_bytes payload.now part))) }
    {
        self.frames.top_mut()
    }
}
