//! The commands that list: `collect` of captures and of streams, and `recover` of regions. Each reads its inputs, and
//! prints one listing by time with what was lost.
#![tactic(auto)]

mod by_page;
mod collect;
mod ending;
mod events;
mod fault_line;
mod follow;
mod gather;
pub mod laws;
mod listing;
mod memory;
mod paged;
mod pattern;
pub mod recovery;
pub mod streams;

pub use by_page::collect_pages;
pub use collect::{Collecting, Detail, collect_to};
pub use ending::{Collected, Ending, Listed, Outcome};
pub use follow::{LiveCollected, follow_to};
