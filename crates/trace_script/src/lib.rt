//! The reader of the script text: what script a text spells, and the line that states its first fault.
//!
//! A script is lines of fields, which `docs/formats/program.md`, "Script", describes.
#![tactic(auto)]

mod command;
mod commands;
mod digits;
mod fault;
mod fault_lines;
mod fields;
mod header;
mod kept;
mod kept_lines;
mod lent;
mod lines;
mod orders;
mod payload;
mod read;
mod replay_fault;
mod script;
mod usual;
mod values;

pub use command::{Command, ScriptLine};
pub use commands::Commands;
pub use fault::ScriptFault;
pub use fault_lines::{fault_line, put_fault};
pub use read::{read_script, read_text};
pub use replay_fault::ReplayFault;
pub use script::Script;
