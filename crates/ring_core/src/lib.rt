//! A ring as a value: writers and a reader over real pages, one event at a time.
//!
//! Each event is one step of the ring's model: it reads or writes at most one word of the ring, with what belongs to it
//! in the frame on top or in the reader (`docs/formats/ring.md`, "The ring"). So any interleaving of nested writers and
//! of the reader is a list of events.
//!
//! Within a function, code without loops names no fact of the ring: `new` ensures what `step` requires, and `step`
//! ensures it again. A function that is given a ring requires `IsReachedCore`. A loop names what it keeps, which is the
//! same, and the size of a page's data if it passes the bodies of pages. So of at most 30 steps of the frame on top,
//! until one of them answers:
//!
//! ```text
//! ghost use Rattle.std.specs.Prelude.{◌≡◌};
//! ghost use Rattle.ring_core.specs.Steps.{IsReachedCore};
//!
//! fn finish(core: &mut Core) -> Answer
//!     requires ring { IsReachedCore core.old }
//!     ensures ring { IsReachedCore core.new }
//!     ensures size { core.new.stack.size ≡ core.old.stack.size }
//! {
//!     for made in 0..30 {
//!         let _made = made;
//!         match core.step(Event::Step) {
//!             Answer::Going => {}
//!             answer => return answer,
//!         }
//!     }
//!     Answer::Going
//! }
//! ```
//!
//! and in `proofs/finish/Invariants.antt`, after its `use` lines:
//!
//! ```text
//! abbrev pub invariant-loop-made : goal.invariant-loop-made
//! invariant-loop-made l = IsReachedCore l.core × (l.core.stack.size ≡ l.initial.core.stack.size)
//! ```
#![tactic(auto)]

pub mod event;
pub mod laws;
#[tactic(auto, unfolding(crate::specs::Steps::IsReachedCore))]
pub mod ring;

pub use event::{Answer, Event};
pub use ring::Core;
