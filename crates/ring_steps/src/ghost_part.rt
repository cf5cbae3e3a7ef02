//! The writer's part of a ring, which contracts and proofs alone read.
ghost use Rattle.std.specs.Prelude.{◌≡◌};
ghost use Rattle.std.specs.Borrow.{ftrue};
ghost use Rattle.ring_steps.specs.Views.{Writing, writing};

use crate::noting::ChosenPart;
use crate::plays::TableSeat;
use std::marker::{Brand, Model};

/// The writer's part of a ring by now, after what it did in private since its last step on a word. It has no bytes.
#[derive(Drop)]
pub(crate) struct GhostPart {
    pub(crate) ghost now: { Writing },
}

impl Model for GhostPart {
    ghost also_owns = { λ _. ftrue };
}

// It has no bytes, and owns nothing.
unsafe impl Send for GhostPart {}

/// The part that the caller picks. `given` is what the caller states to the proof; no code reads it.
#[inline(always)]
pub(crate) fn ghost_part_of<J: ChosenPart, G>(given: &G) -> GhostPart
    ensures { result.now ≡ J.now }
{
    let _ = given;
    GhostPart {}
}

/// The part that a seat knows: nothing was done in private since its last step on a word.
#[inline(always)]
pub(crate) fn ghost_part_known(seat: &TableSeat) -> GhostPart
    ensures { result.now ≡ writing seat.now.me.0 }
{
    ghost_part_of::<Brand, TableSeat>(seat)
}
