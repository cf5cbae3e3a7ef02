//! The writer lines of a script, carried out by the writer of a running ring, while its reader may be in another
//! thread.
//!
//! Each CPU's writer makes the calls of its own lines, whatever the reader does between them, and asks a gate after
//! each fill that it has closed.

mod end;
mod gate;
mod line_indexes;
mod lines;
mod obeying;
mod passing;
mod writer;

pub use end::WriterEnd;
pub use gate::{Gate, OpenGate, Who};
pub use line_indexes::LineIndexes;
pub use lines::lines_by_cpu;
pub use obeying::obey_lines;
