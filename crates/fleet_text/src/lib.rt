//! The text of a fleet: the lines of its records, and of the runs of its numbers that are missing, unknown,
//! undelivered, forgotten or hidden, as text or as JSON. It is put through a buffer of fixed size.
#![tactic(auto)]

mod cpus;
mod fault;
mod given;
mod hidden;
pub mod laws;
mod lines;
mod listed;
mod piece;
mod run;
mod runs;

pub use fault::{PieceTrouble, put_fault};
pub use given::Given;
pub use hidden::Hidden;
pub use lines::{put_cpu, put_json_cpu};
pub use listed::Listed;
pub use piece::{PiecePlace, put_piece};
pub use run::{FleetRun, RunKind};
