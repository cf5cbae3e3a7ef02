//! The text of a threaded run: what its collectors have and miss, each with what its audit answers.

mod audits;
pub mod laws;
mod runs;

pub use audits::put_audit;
pub use runs::put_run;
