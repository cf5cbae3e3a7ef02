//! A collector for a caller that has numbers and buffers alone, as a program in C.
//!
//! Parcels come in as bytes. The listing is copied once, and its lines go out one at a time, so that nothing is lent
//! between two calls.
mod adding;
mod listed;
mod missing;

pub use adding::AddRefusal;
pub use listed::{Given, LineHead, LineNumbers, ListedCollector};
