//! What is known of the streams of a fleet: a collector for each of them, by its id.
#![tactic(auto)]

mod add;
mod change;
mod fleet;
mod frontier;
pub mod laws;
mod listing;
mod marks;
mod merge;
mod merge_fault;
mod next;
mod pack;
mod piece;
mod refusal;
mod streams;

pub use fleet::Fleet;
pub use listing::FleetLine;
pub use merge_fault::FleetMergeFault;
pub use refusal::PieceRefusal;
pub use streams::Streams;
