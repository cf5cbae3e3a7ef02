//! The command `replay`: a script in, the printing of its world out.
#![tactic(auto)]

mod command;
pub mod laws;

pub use command::replay_to;
