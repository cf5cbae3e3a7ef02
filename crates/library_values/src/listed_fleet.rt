//! A fleet for a caller that has numbers and buffers alone, as a program in C.
//!
//! Pieces come in as bytes, and go out as bytes. The listing is copied once, and its lines go out one at a time, so
//! that nothing is lent between two calls.
mod adding;
mod cpus;
mod listed;
mod merging;
mod packing;
mod runs;
mod state;

pub use adding::{AddAnswer, RefusedPiece};
pub use listed::{Given, LineHead, LineNumbers, ListedFleet};
pub use packing::{pack_bytes, pack_end};
pub use state::CpuState;
