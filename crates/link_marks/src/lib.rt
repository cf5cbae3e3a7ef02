//! Link words: which page of a ring is at a position, in which fill, and whether it is the head.
#![tactic(auto)]

pub mod link;

pub use link::{Link, Mark, first_link, header, normal, update};
