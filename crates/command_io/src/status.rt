//! The exit statuses of the program.

/// The work is done.
pub const DONE: u8 = 0;

/// The input is refused; the fault's line says where and why.
pub const REFUSED: u8 = 1;

/// The command line is refused.
pub const USAGE: u8 = 2;

/// Memory was refused.
pub const NO_MEMORY: u8 = 3;

/// A read or a write failed, the input is longer than what is read, or a thread could not be started.
pub const END_FAILED: u8 = 4;
