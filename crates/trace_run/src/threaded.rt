//! The threaded run of a script: a writer's and a reader's thread for each CPU, and one for each collector, all at
//! once.
//!
//! Each CPU's writer obeys its lines, and its reader takes pages meanwhile and shares each one to every collector.
//! After both threads the two ends of the ring are joined: the run leaves a ledger for each CPU, against which a
//! collector can be audited, since no channel promises what it delivers.

mod collecting;
mod joining;
pub mod laws;
mod reading;
mod rings;
mod running;
mod settling;
mod sharing;
mod threads;
mod writing;

pub use running::{Ran, run};
