//! The payload of the frame on top, lent to be written.
use crate::fault::WriteFault;
use crate::frame::Slot;
use crate::payload::Payload;
use crate::stack::WriterStack;

impl WriterStack {
    ghost use Rattle.std.specs.Prelude.{◌≡◌, ℕ, ◌≤◌, ◌↔◌, ◌⊎◌, [], List, length, Some, IsOk, IfOk, OnOk};
    ghost use Rattle.std.specs.Borrow.{sem};
    ghost use Rattle.trace_model.specs.History.{HistoryEvent};
    ghost use Rattle.trace_model.specs.Words.{slot_len};
    ghost use Rattle.record_words.specs.declared.put.Place.{Place};
    ghost use Rattle.nested_writer.specs.declared.frame.Slot.{Slot};
    ghost use Rattle.nested_writer.specs.Calls.{IsTopSlot, LacksSlot};
    ghost use Rattle.nested_writer.specs.Next.{pushed_len, top_place};
    ghost use Rattle.nested_writer.specs.IsStack.{IsStack, IsReachedStack};
    ghost use Rattle.nested_writer.specs.Lent.{Lent, lent_bytes, with_bytes};
    ghost use Rattle.nested_writer.specs.Lending.{LendsTop, IsLent, with_top};

    /// Why nothing is lent, if the frame on top has reserved nothing, or the stack is empty.
    #[cold]
    #[inline(never)]
    fn lends_none(&self) -> WriteFault
        requires { self.now.frames ≡ [] ⊎ LacksSlot self.now.frames }
        ensures no_frame { result ≡ WriteFault.NoFrame ↔ self.now.frames ≡ [] }
        ensures not_reserved { result ≡ WriteFault.NotReserved ↔ LacksSlot self.now.frames }
    {
        if self.top.is_none() {
            return WriteFault::NoFrame;
        }
        WriteFault::NotReserved
    }

    /// The slot of the record of the frame on top.
    #[inline(always)]
    pub fn top_slot(&self) -> Result<Slot, WriteFault>
        ensures no_frame { result ≡ Err WriteFault.NoFrame ↔ self.now.frames ≡ [] }
        ensures not_reserved { result ≡ Err WriteFault.NotReserved ↔ LacksSlot self.now.frames }
        ensures slot { IfOk result (λ slot. IsTopSlot self.now.frames slot) }
        ensures found { (slot : Slot) → IsTopSlot self.now.frames slot → result ≡ Ok slot }
        ensures held { (place : Place) → top_place self.now.frames ≡ Some place → IsOk result }
    {
        match self.top.slot(self.tail_fill()) {
            Some(slot) => Ok(slot),
            None => Err(self.lends_none()),
        }
    }

    /// The payload in the slot of the frame on top, to be written: it acts as the slice of its bytes. All else stays as
    /// it is, and what is written there leaves the stack that of its history. (It is no slice: for one that is lent
    /// inside an enum the toolchain proves no lends clause. A `Payload` promises only that its place is within its
    /// page's data: a caller that exchanges two payloads as wholes can no longer prove that either stack is one.)
    #[inline(always)]
    pub fn top_mut(&mut self) -> Result<&mut Payload, WriteFault>
        requires stack { IsReachedStack self.old }
        ensures* lends { sem 𝓛 (LendsTop self.entry result) }
        ensures no_frame { result ≡ Err WriteFault.NoFrame ↔ self.old.frames ≡ [] }
        ensures not_reserved { result ≡ Err WriteFault.NotReserved ↔ LacksSlot self.old.frames }
        ensures place { (place : Place)
            → top_place self.old.frames ≡ Some place
            → IfOk result (λ payload. payload.now.place ≡ place) }
        ensures here { IfOk result (λ payload. top_place self.old.frames ≡ Some payload.now.place) }
        ensures lent { IfOk result (λ payload. IsLent self.old payload.now) }
        ensures unwritten { IfOk result (λ payload. with_top self.old payload.now ≡ self.old) }
        ensures held { (place : Place) → top_place self.old.frames ≡ Some place → IsOk result }
        ensures fits { (len : ℕ)
            → pushed_len self.old.frames ≡ Some len
            → IfOk result (λ payload. length (lent_bytes payload.now) ≡ slot_len len) }
        ensures long { IfOk result (λ payload. length (lent_bytes payload.now) ≡ payload.now.place.len) }
        ensures word { IfOk result (λ payload. 4 ≤ length (lent_bytes payload.now)) }
        ensures holds { IfOk result (λ payload. (part : List ℕ)
            → length part ≡ length (lent_bytes payload.now)
            → lent_bytes (with_bytes payload.now part) ≡ part) }
        ensures older { OnOk result ((last : Lent)
            → length (with_top self.old last).older ≡ length self.old.older) }
        ensures alone { OnOk result ((last : Lent) → self.old.older ≡ [] → (with_top self.old last).older ≡ []) }
        ensures written { (start : ℕ) (history : List HistoryEvent)
            → IsStack start history self.old
            → IfOk result (λ payload. (part : List ℕ)
            → length part ≡ length (lent_bytes payload.now)
            → IsStack start history (with_top self.old (with_bytes payload.now part))) }
        ensures stays { IfOk result (λ payload. (part : List ℕ)
            → length part ≡ length (lent_bytes payload.now)
            → IsReachedStack (with_top self.old (with_bytes payload.now part))) }
    {
        if let Some(place) = self.top.place_in_tail() {
            self.tail.lend(place);
            return Ok(&mut self.tail);
        }
        let slot = self.top_slot()?;
        if slot.fill == self.tail.fill_number().0 {
            self.tail.lend(slot.place);
            return Ok(&mut self.tail);
        }
        let payload = self
            .older
            .lend((slot.fill - self.done) as usize, slot.place);
        Ok(payload)
    }
}
