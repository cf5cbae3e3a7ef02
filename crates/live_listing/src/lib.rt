//! A listing of pages that are read while they are written: of each record a line as soon as it is final, and before it
//! what was lost of its CPU since the last one.
#![tactic(auto)]

mod following;
mod gap;
pub mod laws;
mod listing;
mod pages;
mod printing;

pub use following::{Followed, Happening, Happenings, Stop, follow_pages};
pub use gap::Gap;
pub use listing::LiveListing;
pub use pages::{Content, CpuPages};
pub use printing::{print_gap, print_lines};
