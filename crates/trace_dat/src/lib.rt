//! The files of trace-cmd, `trace.dat`, in versions 6 and 7, and the texts that the kernel prints of its trace.
#![tactic(auto)]

mod buffers;
mod contents;
mod entries;
mod fault;
mod formats;
pub mod kernel_texts;
pub mod laws;
mod part;
mod read;
mod sections;
mod traced_kernel;

pub use contents::{Buffer, CpuPages, Format, TraceDat};
pub use fault::{Cause, Fault, ReadError};
pub use read::{read_trace_dat, resembles_trace_dat};
