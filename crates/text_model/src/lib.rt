//! The definitions of texts: a script and its lines, fields and settings; what is logged; what is printed of the log,
//! of a page image and of faults. (What is printed of collectors: `world_model`; of a run: `run_command`.)
//!
//! Pages and rings have no use for them; each subject has its definitions in a module of `specs/`, and
//! the laws over them are the contracts of the functions of `laws`.
#![tactic(auto)]

pub mod laws;
pub mod script_limits;

pub use script_limits::{
    MAX_LINE_STEPS, MAX_NUMBER_DIGITS, MAX_SCRIPT_COLLECTORS, MAX_SCRIPT_CPUS, MIN_LINE_STEPS,
    MIN_SCRIPT_COLLECTORS, MIN_SCRIPT_CPUS, SIZE_STEP,
};
