//! The program's command line.
#![tactic(auto)]

mod call;
mod cause;
mod collect;
mod given;
pub mod laws;
mod lists;
mod misuse;
mod parse;
mod part;
mod recover;
mod usage;
mod values;
mod words;

pub use call::{Call, CallFault, CollectCall, CpuFile, NamesFrom, RecoverCall};
pub use cause::{Cause, Misuse};
pub use given::{given_call, given_cause};
pub use misuse::cause_of;
pub use parse::call_of;
pub use usage::{HELP, USAGE_LINE};
pub use values::{MAX_MOMENT, MAX_PATTERN};
pub use words::{DEFAULT_PAGE, DEFAULT_ROUND, MAX_FILES, MAX_PAGE, MAX_ROUND, MIN_PAGE, MIN_ROUND};
