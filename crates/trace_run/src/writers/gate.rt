//! The gate of a run. `tracering run` has the one that is always open; a test holds one end by a gate of its own, so
//! that the other end works meanwhile.
ghost use Rattle.std.specs.Prelude.{◌≡◌, ℕ, Bool, true};
ghost use Rattle.trace_run.specs.declared.writers.gate.Who.{Who as WhoSeen};

use trace_model::{CpuId, FillNo};

/// Which end of a ring asks.
#[derive(Clone, Copy, Debug, PartialEq, Eq)]
pub enum Who {
    /// The writer, after a fill that it has closed.
    Writer,
    /// The reader, after a page that it has taken.
    Reader,
}

/// What the two ends of a ring pass in a run: a writer after each fill that it has closed, a reader after each page
/// that it has taken.
pub trait Gate: Sync {
    // Which answers the gate may give.
    ghost answers: { Self → WhoSeen → (cpu fill : ℕ) → Bool → Type 0 };

    /// Whether this end of the CPU's ring may go on. On false it stops; the other threads of the run go on to their
    /// ends, and then the run answers `GateShut`, or another fault that it met. A writer's `fill` is one more than the
    /// number of the fill that it has closed; a reader's is that of the page.
    fn pass(&self, who: Who, cpu: CpuId, fill: FillNo) -> bool
        ensures { answers self.now who cpu.0 fill.0 result };
}

/// The gate that is always open.
#[derive(Clone, Copy, Debug)]
pub struct OpenGate;

impl Gate for OpenGate {
    ghost answers = { λ gate who cpu fill answer. answer ≡ true };

    fn pass(&self, _who: Who, _cpu: CpuId, _fill: FillNo) -> bool {
        true
    }
}
