//! What the lines of a CPU's writer make of its history, by events of the ring alone; accounts: what is printed of a
//! script, by histories alone; and the laws over both: what the calls of a writer make is such a history, which records
//! it commits, and the world of a script has an account.
//!
//! Each subject has its definitions in a module of `specs/`, and the laws over them are the contracts of the
//! functions of `laws`.
#![tactic(auto)]

pub mod laws;
