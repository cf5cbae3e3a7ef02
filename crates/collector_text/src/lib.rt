//! Printing: what collectors have and miss, as text.
#![tactic(auto)]

mod collectors;
pub mod laws;
mod lines;
mod runs;

pub use collectors::{Span, put_collector, put_collectors};
