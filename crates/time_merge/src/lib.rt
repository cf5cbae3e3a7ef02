//! Listings: what a collector has, in the order of time.
//!
//! Lines are merged from sources, each of which gives lines of one CPU by number. One line of each source is at hand,
//! and a tree of their moments says which of them goes first.
//!
//! `lines_by_time` makes no list. Its sources are stretches of each CPU's records, which end where a moment falls.
//! `walk_lines` has each of those lines taken. `listing` makes a list, and merges whole CPUs; a single one gives its
//! lines as they are. If the moments of a CPU fall, the list is then sorted in place.
#![tactic(auto)]

mod by_time;
pub mod laws;
mod line_source;
mod lines;
mod merge;
mod merged;
mod source_walk;
mod sources;
mod stretches;
mod tournament;
mod walk;

pub use by_time::listing;
pub use line_source::{LineSource, Stopped};
pub use lines::Line;
pub use merged::{LinesByTime, lines_by_time};
pub use source_walk::{Walked, walk_sources};
pub use walk::{TakesLines, walk_lines};
