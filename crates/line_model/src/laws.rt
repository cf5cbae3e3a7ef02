//! Laws over the definitions, as contracts of functions with empty bodies, by subject.

pub mod accounts;
pub mod calls;
pub mod lines;
pub mod records;
pub mod replays;
pub mod single_frames;
