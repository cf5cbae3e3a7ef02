//! The laws of a ring, as contracts of functions with empty bodies, by subject.

pub mod answers;
pub mod ends;
pub mod examples;
pub mod histories;
pub mod links;
pub mod payloads;
pub mod rings;
pub mod seats;
pub mod windows;
pub mod wishes;
