//! The command `recover`: regions in, one listing by time out of all that rings left in them, with what it lacks, and
//! the slots that are damaged.

mod gather;
mod lines;
mod print;
mod read;
mod recover;

pub use recover::recover_to;
