//! What a command of a program does with its two ends: it reads all of its source, makes its output of that text as a
//! whole, and writes it to its sink, with an exit status; and the line of standard error for that status. It also has
//! the words of a program's command line, and fills a piece from a source.
#![tactic(auto)]

mod command;
mod ends;
mod input;
pub mod laws;
mod messages;
mod output;
mod piece;
mod status;
mod words;
mod written;

pub use command::{MEMORY_LINE, Subcommand, carry_out, print_memory_line};
pub use ends::{Sink, Source, Std};
pub use input::{InputFault, READ_CHUNK, read_all};
pub use messages::{EndFault, INPUT_TOO_LONG, READ_FAILED, WRITE_FAILED, message_for};
pub use output::{Output, OutputFault, THREAD_LINE, write_all};
pub use piece::fill_piece;
pub use status::{DONE, END_FAILED, NO_MEMORY, REFUSED, USAGE};
pub use words::{WordsFault, given_words};
pub use written::write_text;
