//! What a script asks for, done: by the exact replay, step by step, or by the run, whose rings work in threads; and the
//! audit of what a run took.
#![tactic(auto)]

pub mod ledgers;
pub mod readers;
pub mod threaded;
pub mod writers;

pub use ledgers::{AuditFault, Audited, Ledger, audit};
pub use script_replay::{LogLine, World, replay};
pub use threaded::{Ran, run};
pub use trace_script::ReplayFault;
pub use writers::{Gate, OpenGate, Who};
