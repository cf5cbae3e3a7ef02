//! The numbers of the format of record words.

/// The type of padding.
pub(crate) const PADDING: u32 = 29;

/// The type of a time extend.
pub(crate) const TIME_EXTEND: u32 = 30;

/// The type of a time stamp.
pub(crate) const TIME_STAMP: u32 = 31;

/// The longest payload of the short form, in bytes.
pub const SHORT_LIMIT: usize = 112;

/// The least length that a word can state, in bytes: that of the stated number itself.
pub(crate) const LEAST_LENGTH: usize = 4;

/// The first delta that doesn't fit the 27 bits of a word.
pub const EXTEND_FROM: u64 = 1 << 27;

/// The longest payload that is written, in bytes. No page has room for so long a one.
pub const MAX_PAYLOAD: usize = 1 << 30;
