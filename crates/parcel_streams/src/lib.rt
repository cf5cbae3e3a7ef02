//! Streams of parcels: parcels packed one after the other as bytes, as collectors on many machines store and send
//! them; read whole or piece by piece from a source.
//!
//! A piece of a stream is a parcel, or a mark: how many records a CPU has, below which number they are kept no longer,
//! or which numbers were given up. Each states its version, its length and its stream, and ends in a checksum. Streams
//! that are put one after the other are a stream. The format is in `docs/formats/pages.md`, "Streams of parcels".
#![tactic(auto)]

mod body;
pub mod crc32c;
mod fault;
mod frame;
pub mod laws;
mod limits;
mod pack;
mod piece;
mod read;
pub mod source;

pub use fault::{PieceFault, StreamFault};
pub use frame::{is_stream, wanted};
pub use limits::{MAX_PIECE, MIN_PIECE};
pub use pack::{pack_mark, pack_parcel};
pub use piece::{Mark, Piece, StreamId};
pub use read::{read_piece, read_stream};
