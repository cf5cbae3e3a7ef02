//! The definitions of step texts: what is printed of each step of a script's rings, and the laws that a reader of such
//! a text needs no rule of the ring.
//!
//! Each subject has its definitions in a module of `specs/`, and the laws over them are the contracts of the
//! functions of `laws`.
#![tactic(auto)]

pub mod laws;
