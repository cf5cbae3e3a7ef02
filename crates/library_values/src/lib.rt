//! What the handles of the library for C stand for: a box as its pointer, pages as bytes in a caller's buffer, and
//! collectors and fleets for callers that have numbers and buffers alone.
#![tactic(auto)]

pub mod buffer;
pub mod listed_collector;
pub mod listed_fleet;
pub mod loose_box;
pub mod own_lines;
pub mod parcel_buffer;
pub mod runs;
