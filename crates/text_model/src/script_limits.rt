//! The limits of a script: of its numbers, its header and its commands.

/// The most digits of a number; 2^64 - 1 has as many.
pub const MAX_NUMBER_DIGITS: usize = 20;

/// A page's data size is a multiple of this, in bytes.
pub const SIZE_STEP: usize = 4;

/// The fewest CPUs of a script.
pub const MIN_SCRIPT_CPUS: u32 = 1;

/// The most CPUs of a script.
pub const MAX_SCRIPT_CPUS: u32 = 256;

/// The fewest collectors of a script.
pub const MIN_SCRIPT_COLLECTORS: usize = 1;

/// The most collectors of a script.
pub const MAX_SCRIPT_COLLECTORS: usize = 16;

/// The fewest steps that a line asks for.
pub const MIN_LINE_STEPS: u64 = 1;

/// The most steps that a line asks for.
pub const MAX_LINE_STEPS: u64 = 1_000_000;
