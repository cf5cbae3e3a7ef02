//! Streams of parcels, read from their source piece by piece: at most a fixed number of bytes is held of it.
//!
//! What a reader of pieces gives are the pieces of the stream that its source has, or its first fault. And a source
//! whose first bytes were looked at, to see whether it is a stream, is still a source of all its bytes.

mod fault;
mod fill;
pub mod laws;
mod limits;
mod peeked;
mod reader;
mod window;

pub use fault::ReadPieceFault;
pub use limits::ROOM;
pub use peeked::Peeked;
pub use reader::PieceReader;
