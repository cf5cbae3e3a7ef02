//! The replay of a script: what its lines do to the rings of its CPUs, and to its collectors; and the log of
//! what they met.
//!
//! A lane is the ring of one CPU with the payloads of its frames and the pages that were taken from it; a line is steps
//! of its lane, or a delivery to a collector.
#![tactic(auto)]

mod asked;
mod delivery;
#[tactic(auto, unfolding(ring_core::specs::Steps::IsReachedCore))]
mod lane;
mod lanes;
pub mod log;
mod nobody;
mod replaying;
mod reports;
mod teller;
mod world;

pub use asked::Asked;
pub use log::LogLine;
pub use replaying::{replay, told_replay, world_of};
pub use teller::Teller;
pub use world::World;
