//! Scripts: their text read, what they ask for done step by step or by threads, and the audit of what a run took.
pub use step_text::steps_of;
pub use trace_run::{
    AuditFault, Audited, Gate, Ledger, LogLine, OpenGate, Ran, ReplayFault, Who, World, audit,
    replay, run,
};
pub use trace_script::{
    Command, Commands, Script, ScriptFault, ScriptLine, put_fault, read_script,
};
