//! How much is held of a source.

/// How many bytes of a source are held at most, beside those that are asked for at a time. Two of the longest pieces
/// have room.
pub const ROOM: usize = 131_216;
