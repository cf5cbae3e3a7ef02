//! How far a frame has come with the ring's links.
use crate::answer::Answer;

/// Who moves the head: the frame that set the UPDATE, or one above it that found it.
#[derive(Clone, Copy, Debug, PartialEq, Eq)]
pub enum Role {
    /// It set the UPDATE, and clears it.
    Owner,
    /// It found the UPDATE, and leaves it.
    Helper,
}

impl Role {
    ghost use Rattle.std.specs.Prelude.{◌≡◌};
    ghost use Rattle.trace_model.specs.Steps as model;
    ghost use Rattle.ring_frames.specs.Value.{phase_of, role_of};

    /// The phase after the look at the next link: only the owner clears its UPDATE.
    #[inline(always)]
    pub fn after_next(self, noted: u64, page: u16) -> Phase
        ensures { phase_of result ≡ model.after_next (role_of self) noted page }
    {
        match self {
            Role::Owner => Phase::Clearing { noted, page },
            Role::Helper => Phase::Opening { noted, page },
        }
    }
}

/// How far a frame has got. `noted` is the number of fills that were begun when it found that it needs a page, so the
/// number of the fill to open; `page` is the page at that fill's position, and `next` the one after it.
#[derive(Clone, Copy, Debug, PartialEq, Eq)]
pub enum Phase {
    /// It has noted nothing.
    Idle,
    /// It looks at the link into the position of the fill to open.
    Looking {
        noted: u64,
    },
    /// It sets the UPDATE there, in place of the HEADER.
    Claiming {
        noted: u64,
        page: u16,
    },
    /// It looks at the next link.
    LookingNext {
        role: Role,
        noted: u64,
        page: u16,
    },
    /// It sets the HEADER there.
    Marking {
        role: Role,
        noted: u64,
        page: u16,
        next: u16,
    },
    /// It clears its UPDATE.
    Clearing {
        noted: u64,
        page: u16,
    },
    /// It begins the fill on this page.
    Opening {
        noted: u64,
        page: u16,
    },
    /// It has left, and closes fills.
    Releasing,
    /// It has left, no fill was left to close, and it looks for the reader's wish.
    Wishing,
}

/// What a step on a word answers, and one by which a frame begins again: whether the frame is still on the stack.
#[derive(Clone, Copy, Debug)]
pub enum StepAnswer {
    /// It is on the stack.
    Going,
    /// It has left the stack.
    Gone,
}

impl StepAnswer {
    ghost use Rattle.std.specs.Prelude.{◌≡◌};
    ghost use Rattle.ring_frames.specs.Phases.{as_answer};

    /// The answer as one of the ring.
    #[inline(always)]
    pub fn answer(self) -> Answer
        ensures { result ≡ as_answer self }
    {
        match self {
            StepAnswer::Going => Answer::Going,
            StepAnswer::Gone => Answer::Gone,
        }
    }
}
