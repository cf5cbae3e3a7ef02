//! The two ends of a running ring, one for a writer's thread and one for a reader's.
//!
//! Both share the words of one table (`ring_steps`), and no call waits for the other end. The writer puts records into
//! the ring, nested ones too, and moves the head on if the ring is full; the reader takes the oldest page that is
//! closed and unread, and knows how many records were lost before it.
//!
//! Within a function, code without loops states nothing of the ends: `ring` ensures what their calls require, and each
//! call ensures it again. A function or closure that is given an end requires `IsWriter` of a writer, `IsReader` of a
//! reader. A loop states what it keeps: the same, and that it is the same end as before (`SameWriter`, `SameRing`).
//! These are at most 64 steps of the frame on top, until one of them answers (`finish_top` makes all):
//!
//! ```text
//! ghost use Rattle.ring_shared.specs.Value.{SameWriter};
//! ghost use Rattle.ring_shared.specs.Calls.{IsWriter};
//!
//! fn finish(writer: &mut Writer) -> Answer
//!     requires writer { IsWriter writer.old }
//!     ensures writer { IsWriter writer.new }
//!     ensures ring { SameWriter writer.old writer.new }
//! {
//!     for made in 0..64 {
//!         let _made = made;
//!         match writer.step() {
//!             Answer::Going => {}
//!             answer => return answer,
//!         }
//!     }
//!     Answer::Going
//! }
//! ```
//!
//! and in `proofs/finish/Invariants.antt`, after its `use` lines:
//!
//! ```text
//! abbrev pub invariant-loop-made : goal.invariant-loop-made
//! invariant-loop-made l = IsWriter l.writer × SameWriter l.initial.writer l.writer
//! ```
#![tactic(auto)]

#[tactic(auto, unfolding(crate::specs::Calls::IsWriter))]
pub mod laws;
#[tactic(auto, unfolding(crate::specs::Calls::IsWriter))]
mod making;
pub mod reader;
#[tactic(auto, unfolding(crate::specs::Calls::IsWriter))]
pub mod receipts;
#[tactic(auto, unfolding(crate::specs::Calls::IsWriter))]
pub mod settling;
pub mod take;
#[tactic(auto, unfolding(crate::specs::Calls::IsWriter))]
pub mod writer;

pub use making::{ring, ring_at};
pub use reader::Reader;
pub use receipts::Receipt;
pub use ring_frames::Answer;
pub use settling::{SettleFault, Settled, settle, stop};
pub use take::Take;
pub use writer::Writer;
