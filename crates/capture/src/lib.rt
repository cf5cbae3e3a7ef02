//! Captures: all that was read of a CPU's pages, as `per_cpu/cpuN/trace_pipe_raw` gives them, read as parcels;
//! and files of captures, raw ones and those of trace-cmd.
//!
//! A page states how many records were lost before it, if the kernel knew and had room for their number; it has no
//! number itself. So the numbers of a capture's records are counted: over its records, and over what its pages say was
//! lost. They are exact up to the first loss of unknown number and the first page that can't be read. After these they
//! are no higher than the true ones, and still rise.
#![tactic(auto)]

pub mod files;
mod head;
pub mod laws;
mod pages;
mod part;
mod read;
mod smaller;
pub mod stamps;

pub use pages::{Capture, CaptureFault, Damaged};
pub use part::Part;
pub use read::{Extent, ReadFault, read_capture, read_on};
pub use smaller::smaller_in;
