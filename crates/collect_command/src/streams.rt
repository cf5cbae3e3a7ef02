//! The command `collect` for streams: pieces in, one listing of the fleet by time out, with what it lacks; or a line
//! for each piece.

mod collect;
mod gather;
mod print;
mod read;

pub use collect::{collect_streams, print_pieces};
