//! Why what a script asks for isn't done.
ghost use Rattle.std.specs.Prelude.{◌≡◌};
ghost use Rattle.trace_script.specs.declared.replay_fault.ReplayFault.TheVariants.{NoMemory as no_memory};

use std::alloc::AllocError;
use thiserror::Error;
use trace_model::NoMemory;

/// Why a replay or a run of a script has nothing to answer.
#[derive(Clone, Copy, Debug, PartialEq, Eq, Error)]
pub enum ReplayFault {
    /// Memory was refused.
    #[error("out of memory")]
    NoMemory,
    /// The gate of a threaded run (`Gate` of `trace_run`) didn't let an end go on; a replay has none.
    #[error("the gate is shut")]
    GateShut,
    /// A thread of a run didn't start.
    #[error("no thread")]
    NoThread,
}

impl From<NoMemory> for ReplayFault {
    ghost from_gives = { λ _ fault. fault ≡ no_memory };

    fn from(_refused: NoMemory) -> ReplayFault {
        ReplayFault::NoMemory
    }
}

impl From<AllocError> for ReplayFault {
    ghost from_gives = { λ _ fault. fault ≡ no_memory };

    fn from(_refused: AllocError) -> ReplayFault {
        ReplayFault::NoMemory
    }
}
