//! The command `dump`: a page image in, its printing out.
#![tactic(auto)]

mod dump;
pub mod laws;
mod printer;

pub use dump::dump_to;
pub use printer::put_image_fault;
