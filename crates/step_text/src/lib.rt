//! The text of a replay's steps: what was done at each step of a ring, and the keys whose values are new after it, with
//! what each delivery brings; and the command `steps`, which prints it.
#![tactic(auto)]

mod changes;
mod command;
mod fates;
pub mod laws;
mod new_rings;
mod put;
mod seen;
mod step_line;
mod steps;
mod teller;

pub use command::steps_to;
pub use steps::steps_of;
pub use teller::StepText;
