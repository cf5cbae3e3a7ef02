//! The definitions of the worlds of scripts: what the lines of a script make of its rings and collectors, the log of
//! it, and what is printed.
//!
//! Each subject has its definitions in a module of `specs/`, and the laws over them are the contracts of the
//! functions of `laws`.
#![tactic(auto)]

pub mod laws;
