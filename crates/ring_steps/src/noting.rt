//! What the writer does in private between its steps on words, as notes for proofs: no word is loaded or stored.
ghost use Rattle.std.specs.Prelude.{◌≡◌};
ghost use Rattle.trace_model.specs.Steps.{pushes, pushes_close, steps, ends};
ghost use Rattle.ring_model.specs.Seats.{TopIsPrivate};
ghost use Rattle.ring_steps.specs.Seats.{Leads};
ghost use Rattle.ring_steps.specs.Ends.{writing_in, SameSeat};
ghost use Rattle.ring_steps.specs.Notes.{part_after, FillsTopSlot};

use crate::ends::WriterSeat;
use crate::ghost_part::ghost_part_of;
use std::marker::Brand;

impl WriterSeat {
    /// Notes what the writer did in private since its last step on a word: by it the writer's part becomes what it
    /// is by now. No word is loaded or stored, and the next step on one is from there. `given` is what a caller states
    /// to the proof; no code reads it.
    #[inline(always)]
    pub fn note<J: ChosenPart, G>(&mut self, given: &G)
        requires due { Leads self.old.shape (writing_in self.old) J.now }
        ensures same { SameSeat self.old self.new }
        ensures noted { writing_in self.new ≡ J.now }
    {
        self.ghost_part = ghost_part_of::<J, G>(given);
    }

    /// Notes that a frame is pushed for a record of this moment, whose payload has `len` bytes; or that it is refused,
    /// and nothing changes.
    #[inline(always)]
    pub fn note_push(&mut self, moment: u64, len: usize)
        ensures same { SameSeat self.old self.new }
        ensures noted { writing_in self.new ≡ part_after self.old.shape (writing_in self.old) (pushes moment len) }
    {
        self.note::<Brand, _>(&(moment, len));
    }

    /// Notes that a close frame is pushed; or that it is refused.
    #[inline(always)]
    pub fn note_close(&mut self)
        ensures same { SameSeat self.old self.new }
        ensures noted { writing_in self.new ≡ part_after self.old.shape (writing_in self.old) pushes_close }
    {
        self.note::<Brand, _>(&());
    }

    /// Notes a step of the frame on top that needs no word: it reserves its record, notes what to begin, or leaves,
    /// refused or with nothing to close; if another frame has begun that fill, it begins again, or leaves if it is a
    /// close frame; if it has reserved, it stays as it is.
    #[inline(always)]
    pub fn note_step(&mut self)
        requires private { TopIsPrivate (writing_in self.old).frames (writing_in self.old).opened }
        ensures same { SameSeat self.old self.new }
        ensures noted { writing_in self.new ≡ part_after self.old.shape (writing_in self.old) steps }
    {
        self.note::<Brand, _>(&());
    }

    /// Notes that the frame on top ends with this payload, which takes exactly the slot that its record has; if it has
    /// reserved none, nothing changes.
    #[inline(always)]
    pub fn note_end(&mut self, payload: &[u8])
        requires fills { FillsTopSlot (writing_in self.old).frames payload.now }
        ensures same { SameSeat self.old self.new }
        ensures noted { writing_in self.new ≡ part_after self.old.shape (writing_in self.old) (ends payload.now) }
    {
        self.note::<Brand, _>(&payload);
    }
}

/// What the writer's part of the ring is by now, after what it did in private since its last step on a word. No code
/// reads it: a caller picks it for the proof.
pub trait ChosenPart {
    ghost use Rattle.ring_steps.specs.Views.{Writing};

    ghost now: { Writing };
}

impl ChosenPart for Brand {
    ghost use Rattle.ring_steps.specs.Views.{no_writing};

    ghost now = { no_writing };
}
