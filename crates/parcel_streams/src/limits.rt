//! The lengths of pieces and of their parts, in bytes.

/// How many bytes of a piece are before what its kind has of its own.
pub(crate) const HEAD: usize = 32;

/// How many bytes a piece's checksum takes.
pub(crate) const SUM: usize = 8;

/// The least bytes that a piece has: those of a mark with one number.
pub const MIN_PIECE: usize = 56;

/// The most bytes that a piece has: those of a parcel whose page has `MAX_SIZE` bytes of data.
pub const MAX_PIECE: usize = 65_608;

/// How many bytes of a parcel are before its page's data: its numbers, and the header of the page's image.
pub(crate) const PARCEL_HEAD: usize = 48;

/// How many bytes a mark with one number has of its own: its CPU, and the number.
pub(crate) const NUMBER_BODY: usize = 16;

/// How many bytes the mark of a run has of its own: its CPU, and the two numbers of the run.
pub(crate) const RUN_BODY: usize = 24;
