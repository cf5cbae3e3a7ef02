//! The stack of a ring's nested writers, over the pages that they still write.
//!
//! A writer can be interrupted by another one at any step: each is a frame, and the one on top goes first. A record is
//! reserved, its payload written in place, and ended; what was reserved is stated by the history of the frames, and the
//! open pages hold its last fills (`docs/MODEL.md`).
//!
//! Within a function, code without loops names no fact of the stack: `new` ensures what the calls require, and each
//! call ensures it again. A function that is given a stack requires `IsReachedStack`. A loop names what it keeps, which
//! is the same, and what its calls require beside it. So of records that are reserved, each in the middle of the one
//! before:
//!
//! ```text
//! ghost use Rattle.nested_writer.specs.IsStack.{IsReachedStack};
//!
//! fn reserve_all(stack: &mut WriterStack, moments: &[u64]) -> Result<(), WriteFault>
//!     requires stack { IsReachedStack stack.old }
//!     ensures stack { IsReachedStack stack.new }
//! {
//!     for moment in moments {
//!         stack.begin(*moment, 4)?;
//!         stack.allot()?;
//!     }
//!     Ok(())
//! }
//! ```
//!
//! and in `proofs/reserve_all/Invariants.antt`, after its `use` lines:
//!
//! ```text
//! abbrev pub invariant-loop-moment : goal.invariant-loop-moment
//! invariant-loop-moment l = IsReachedStack l.stack
//! ```
#![tactic(auto)]

mod fault;
pub mod frame;
pub mod laws;
mod older;
pub mod payload;
#[tactic(auto, unfolding(crate::specs::IsStack::IsReachedStack))]
pub mod stack;

pub use fault::WriteFault;
pub use payload::Payload;
pub use stack::WriterStack;
pub use stack::allot::Allot;
pub use stack::leave::Ended;
pub use stack::write::Wrote;
