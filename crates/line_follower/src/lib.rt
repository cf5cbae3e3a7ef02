//! One reading of several CPUs at once: which lines are final, so that they can be given out while more are read.
//!
//! A line is final if nothing that can still come belongs before it. Each CPU has a bound: the greatest moment of what
//! was read of it. A CPU that is found quiet twice gets as its bound the greatest moment that was known of all CPUs at
//! the first of these times, since what it had from before would have come by the second. So a line is final if no CPU
//! that is still open has its bound before the line's moment; at the moment itself the CPU decides. A line that comes
//! later than its place in the order is given as late.
#![tactic(auto)]

mod bounds;
mod follower;
pub mod laws;
mod lines;
#[cfg(test)]
mod tests;
mod whole;

pub use follower::Follower;
pub use lines::{Line, Place, Said};
pub use whole::{Event, follow};
