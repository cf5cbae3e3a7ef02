//! What holds of a ring: its invariant, and the laws that follow from it, over the ring's state and steps as
//! `trace_model` defines them. Each subject has its definitions in a module of `specs/`, and the laws over them are the
//! contracts of the functions of `laws`.
#![tactic(auto)]

pub mod laws;
