//! What frames do in private. Each such call notes for proofs what it does to the frames, and touches no shared word.
use crate::writer::Writer;
use nested_writer::frame::Pushed;
use ring_frames::{Answer, StepAnswer};
use std::marker::Brand;
use trace_model::RecordNo;

impl Writer {
    ghost use Rattle.std.specs.Prelude.{◌≡◌, ◌≢◌, ℕ, ◌∷◌, Some, None};
    ghost use Rattle.trace_model.specs.Steps as model;
    ghost use Rattle.trace_model.specs.Words.{slot_len};
    ghost use Rattle.trace_model.specs.Frames.{noted_fill};
    ghost use Rattle.ring_model.specs.Seats.{PhaseIsPrivate};
    ghost use Rattle.nested_writer.specs.Stack.{opened};
    ghost use Rattle.nested_writer.specs.PlainTop.{IsPlainTop};
    ghost use Rattle.nested_writer.specs.declared.fault.WriteFault.{WriteFault};
    ghost use Rattle.nested_writer.specs.declared.stack.leave.Ended.TheVariants.{Pending};
    ghost use Rattle.ring_frames.specs.declared.phase.Phase.TheVariants.{Idle};
    ghost use Rattle.ring_frames.specs.Value.{phase_of};
    ghost use Rattle.ring_frames.specs.Answers.{top_bytes, EndsPayload, KeepsPayloads, ZerosSlot};
    ghost use Rattle.ring_frames.specs.Lens.{IsOneMore};
    ghost use Rattle.ring_frames.specs.Phases.{as_answer};
    ghost use Rattle.ring_shared.specs.Value.{SameWriter};
    ghost use Rattle.ring_shared.specs.Calls.{IsWriter, MakesSome};
    ghost use Rattle.ring_shared.specs.Nearer.{IsNearer};
    ghost use Rattle.ring_shared.specs.Rooms.{rooms};
    ghost use Rattle.ring_shared.specs.FewSteps.{MakesAtMost};
    ghost use Rattle.ring_shared.specs.Promises.{HasFrame};

    /// A writer begins: a frame is pushed for a record of this moment, and of a payload of `len` bytes. `Pushed`; or
    /// refused, and nothing changed: `TooDeep` if there are four frames, `TooLong` if the record has no room on an
    /// empty page, `LateMoment`, the first of these that holds.
    #[inline(always)]
    pub fn begin(&mut self, moment: u64, len: usize) -> Answer
        requires writer { IsWriter self.old }
        ensures makes { MakesSome self.old (model.pushes moment len) result self.new }
        ensures few { MakesAtMost 1 self.old.part self.new.part }
        ensures payloads { KeepsPayloads self.old.frames.stack self.new.frames.stack }
        ensures room { result ≡ Answer.Pushed → rooms self.new ≡ Some (slot_len len) ∷ rooms self.old }
        ensures refused { (fault : WriteFault) → result ≡ Answer.Refused fault → rooms self.new ≡ rooms self.old }
        ensures ring { SameWriter self.old self.new }
        ensures writer { IsWriter self.new }
    {
        self.seat.note::<Brand, _>(&(moment, len));
        self.frames.push(moment, len)
    }

    /// A close frame is pushed: it begins the next fill, if the tail page holds a record. `Pushed`, or
    /// refused as `TooDeep`.
    pub fn begin_close(&mut self) -> Answer
        requires writer { IsWriter self.old }
        ensures makes { MakesSome self.old model.pushes_close result self.new }
        ensures few { MakesAtMost 1 self.old.part self.new.part }
        ensures payloads { KeepsPayloads self.old.frames.stack self.new.frames.stack }
        ensures room { result ≡ Answer.Pushed → rooms self.new ≡ None ∷ rooms self.old }
        ensures refused { (fault : WriteFault) → result ≡ Answer.Refused fault → rooms self.new ≡ rooms self.old }
        ensures ring { SameWriter self.old self.new }
        ensures writer { IsWriter self.new }
    {
        self.seat.note::<Brand, _>(&());
        self.frames.push_close()
    }

    /// The frame on top, whose record is reserved, ends with the payload that is in its slot. `Ended`; or refused, and
    /// nothing changed, as `NoFrame` or as `NotReserved`.
    #[inline(always)]
    pub fn end(&mut self) -> Answer
        requires writer { IsWriter self.old }
        ensures makes { MakesSome self.old (model.ends (top_bytes self.old.frames.stack self.old.frames.stack.frames))
            result self.new }
        ensures few { MakesAtMost 1 self.old.part self.new.part }
        ensures payloads { EndsPayload self.old.frames.stack self.new.frames.stack }
        ensures rooms { result ≡ Answer.Ended Pending → IsOneMore (rooms self.old) (rooms self.new) }
        ensures refused { (fault : WriteFault) → result ≡ Answer.Refused fault → rooms self.new ≡ rooms self.old }
        ensures ring { SameWriter self.old self.new }
        ensures writer { IsWriter self.new }
    {
        self.seat.note::<Brand, _>(&self.frames);
        self.frames.end()
    }

    /// The record of the frame on top is reserved, or it is a close frame that has nothing to close and leaves; or a
    /// page is needed, and noted or refused. A frame that has reserved gets its number again.
    #[inline(always)]
    pub(crate) fn reserve(&mut self) -> Answer
        requires framed { HasFrame self.old }
        requires phase { self.old.frames.phase ≡ Idle }
        ensures makes { MakesSome self.old model.steps result self.new }
        ensures nearer { IsNearer self.old self.new }
        ensures payloads { KeepsPayloads self.old.frames.stack self.new.frames.stack }
        ensures zeros { ZerosSlot self.old.frames.stack result self.new.frames.stack }
    {
        self.seat.note::<Brand, _>(&());
        self.frames.reserve()
    }

    /// Reserves the record of the frame on top, which is one as nearly all are, and answers its number.
    #[inline(always)]
    pub(crate) fn reserve_plain(&mut self, pushed: Pushed) -> RecordNo
        requires writer { IsWriter self.old }
        requires plain { IsPlainTop self.old.frames.stack pushed }
        ensures makes { MakesSome self.old model.steps (Answer.Reserved result) self.new }
        ensures payloads { KeepsPayloads self.old.frames.stack self.new.frames.stack }
        ensures zeros { ZerosSlot self.old.frames.stack (Answer.Reserved result) self.new.frames.stack }
    {
        self.seat.note::<Brand, _>(&pushed);
        self.frames.reserve_plain(pushed)
    }

    /// A fill was begun since the frame on top noted what to open, so that it begins again.
    #[inline(never)]
    pub(crate) fn begin_again(&mut self) -> StepAnswer
        requires framed { HasFrame self.old }
        requires passed { (noted : ℕ) × (noted_fill (phase_of self.old.frames.phase) ≡ Some noted)
            × (noted ≢ opened self.old.frames.stack) }
        requires private { PhaseIsPrivate (phase_of self.old.frames.phase) (opened self.old.frames.stack) }
        ensures makes { MakesSome self.old model.steps (as_answer result) self.new }
        ensures nearer { IsNearer self.old self.new }
        ensures payloads { KeepsPayloads self.old.frames.stack self.new.frames.stack }
    {
        self.seat.note::<Brand, _>(&());
        self.frames.begin_again()
    }
}
