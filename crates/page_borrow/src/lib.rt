//! What a page lends: its records, each as an entry whose bytes are in the page, and a payload to be written.
//!
//! Nothing is copied, and the borrow checker sees to it that no entry and no slot outlives its page.
#![tactic(auto)]

mod entries;
mod lending;

pub use entries::{Entry, Records};
pub use lending::{records, slot_mut};
