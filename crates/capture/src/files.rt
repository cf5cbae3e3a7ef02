//! Files of a kernel's trace, read: raw pages of a CPU's ring, and files of trace-cmd.
//!
//! What a file has of a CPU is a part: pages of one size. The pages of a CPU are those of its parts, in the order of
//! the files. If there is one file alone, and it has the kernel's counters, they settle a CPU's only loss of unknown
//! number. Of a file that was cut short the pages that it has are read, and not its counters: they also count what was
//! lost behind the pages that are missing.

mod captured;
mod cpu_part;
mod cpus;
mod cut;
mod dat;
mod fault;
mod first;
mod inputs;
pub mod laws;
mod lists;
mod machine;
mod others;
mod parts;
mod raw;
mod settle;

pub use captured::{Captured, CpuCapture, CutFile, Input, Wanted};
pub use fault::{FileFault, InputFault, Unread};
pub use inputs::read_inputs;
