//! Raw pages of a CPU, read from a source one after the other. One page is held at a time, and of those before it some
//! words for each loss and each page that can't be read.
//!
//! A `PageLines` is a source for a merge: it gives line by line what a capture holds of all pages at once, and its
//! `Tally` says what was lost, when all pages are read.
#![tactic(auto)]

mod at_hand;
pub mod laws;
mod page;
mod source;
mod stated;
mod tally;

pub use page::{Found, Loss, find_page};
pub use source::{Halt, PageLines};
pub use stated::Stated;
pub use tally::Tally;
