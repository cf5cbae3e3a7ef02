//! The plain types that nearly every crate speaks of, and the definitions that their contracts cite.
//!
//! Each subject has its definitions in a module of `specs/`; the laws over them are the contracts of
//! the functions of `laws`.
#![tactic(auto)]

pub mod laws;
pub mod limits;
pub mod numbers;

pub use limits::{
    LINK_FILLS, LINK_PAGES, MAX_CPUS, MAX_FRAMES, MAX_IMAGE, MAX_INPUT, MAX_PAGES, MAX_SIZE,
    MIN_PAGES, MIN_SIZE, MOMENT_LIMIT, START_FILL,
};
pub use numbers::{CpuId, FillNo, Moment, NoMemory, RecordNo};
