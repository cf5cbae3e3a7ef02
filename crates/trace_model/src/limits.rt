//! The limits of a ring and of what is read.

/// The fewest pages of a ring.
pub const MIN_PAGES: usize = 2;

/// The most pages of a ring.
pub const MAX_PAGES: usize = 1024;

/// The smallest data size of a ring's page, in bytes.
pub const MIN_SIZE: usize = 32;

/// The largest data size of a page, in bytes. 4 divides the data size of a ring's page; a page that is read from an
/// image may have any size up to this one.
pub const MAX_SIZE: usize = 65_520;

/// The longest page image that is read, in bytes.
pub const MAX_IMAGE: usize = 65_536;

/// The most CPUs: a CPU's number is below this.
pub const MAX_CPUS: u32 = 256;

/// The most frames that are on the writer's stack of one ring at a time.
pub const MAX_FRAMES: usize = 4;

/// The longest input of the program, in bytes: 2^28.
pub const MAX_INPUT: usize = 268_435_456;

/// A moment that is written is below this: 2^59.
pub const MOMENT_LIMIT: u64 = 576_460_752_303_423_488;

/// The number of a ring's first fill, if nothing else is said.
pub const START_FILL: u64 = 0;

/// How many pages a link can name, 2^14: a page's number is below this.
pub const LINK_PAGES: u64 = 16_384;

/// How many fills a link can name, 2^48: their numbers are below this. A fill is opened only if the
/// one `pages` after it can be named too, so no fill is opened after `LINK_FILLS - 1 - pages`.
pub const LINK_FILLS: u64 = 281_474_976_710_656;
