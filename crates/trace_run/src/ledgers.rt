//! The audit of a threaded run: whether a collector has exactly what was taken in the run.
//!
//! A run leaves a ledger for each CPU, with the parcels that were taken from its ring. No channel promises that these
//! reached a collector, or that nothing else did; an audit compares both.

mod auditing;
mod equal;
mod fault;
pub mod laws;
mod least;
mod ledger;
mod order;
mod search;

pub use auditing::audit;
pub use fault::{AuditFault, Audited};
pub use ledger::Ledger;
