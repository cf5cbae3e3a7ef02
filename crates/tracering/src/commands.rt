//! The commands of the program `tracering`, over any sources and sinks.
pub use capture::files::{
    Captured, CpuCapture, CutFile, FileFault, Input, InputFault, Unread, Wanted, read_inputs,
};
pub use capture_text::{Form, Selection};
pub use collect_command::recovery::recover_to;
pub use collect_command::streams::{collect_streams, print_pieces};
pub use collect_command::{Collected, Collecting, Detail, Ending, Listed, Outcome, collect_to};
pub use command_io::{
    DONE, END_FAILED, NO_MEMORY, REFUSED, Sink, Source, Std, THREAD_LINE, USAGE, message_for,
};
pub use dump_command::dump_to;
pub use parcel_streams::source::{Peeked, PieceReader, ReadPieceFault};
pub use replay_command::replay_to;
pub use run_command::run_to;
pub use step_text::steps_to;
pub use trace_dat::Format;
