//! The frames of a ring's writers: their stack, and how far each frame has come with the ring's words.
//!
//! What a frame does in private (to be pushed, to reserve, to end, or to begin again after another one has begun a
//! fill) touches no word of the ring. So it is the same over a ring as a value and over words that threads share. The
//! types that say how far the reader has got, what it finds where it looks for the head, and the order of a new ring's
//! pages are here for the same reason.
#![tactic(auto)]

pub mod answer;
mod first_pages;
#[tactic(auto, unfolding(nested_writer::specs::IsStack::IsReachedStack))]
pub mod frames;
pub mod laws;
mod looking;
mod packed_phase;
mod payload;
pub mod phase;
pub mod reader;

pub use answer::Answer;
pub use first_pages::first_order;
pub use frames::Frames;
pub use frames::write::WriteKind;
pub use looking::{HeadSeen, head_seen};
pub use payload::write_padded;
pub use phase::{Phase, Role, StepAnswer};
pub use reader::{ReaderPhase, TakeState};
