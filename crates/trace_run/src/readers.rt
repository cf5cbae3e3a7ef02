//! A reader's end of a running ring with the parcels that it took, and what is left of it after the run.
//!
//! A reader's thread takes page after page, and returns its end when it is done; the end knows all parcels that it
//! took, in order. Joined with the writer's end it becomes the ledger of its CPU.

mod end;
mod settling;

pub use crate::ledgers::Ledger;
pub use end::{Found, ReaderEnd};
pub use settling::settle;
