//! The command `run`: a script in, the printing of what its threads left out; and that printing's text.
#![tactic(auto)]

mod running;
pub mod text;

pub use running::run_to;
