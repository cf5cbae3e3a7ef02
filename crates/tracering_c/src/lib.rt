//! A running ring for C: its two ends as handles, and the calls on them; collectors; and fleets.
//!
//! `c/include/tracering.h` says what each call does, in C's words. A handle is all zeros, or as the last call on it
//! left it: nothing else of it can be checked. A call on a handle that has nothing says so, and changes nothing; but
//! those that make a ring, a collector or a fleet fill such handles, and `depth` answers 0.
#![tactic(auto)]

mod adding_pages;
mod codes;
pub mod collected;
mod collecting;
pub mod ends;
mod fleet;
pub mod fleet_codes;
mod fleet_growing;
mod fleet_joining;
mod fleet_reading;
pub mod handle;
pub mod held;
pub mod laws;
mod making;
mod packing;
mod peeking;
mod reading;
mod settling;
pub mod taken;
mod writing;
