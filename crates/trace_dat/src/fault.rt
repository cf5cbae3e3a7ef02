//! Why a file can't be read.

ghost use Rattle.std.specs.Prelude.{◌≡◌};
ghost use Rattle.trace_dat.specs.declared.fault.ReadError.TheVariants.{NoMemory};

use std::alloc::{AllocError, AllocFailed};

/// What is wrong with a file of trace-cmd.
#[derive(Clone, Copy, Debug, PartialEq, Eq)]
pub enum Cause {
    /// The file, or the part that a length marks off, ends within what should be here.
    Cut,
    /// The file doesn't begin as trace-cmd's files do.
    NotTraceDat,
    /// The version is neither 6 nor 7.
    BadVersion,
    /// The traced machine wasn't little-endian with words of 64 bits.
    OtherMachine,
    /// The file is compressed.
    Compressed,
    /// Another name or number should be here.
    Misplaced,
    /// The bytes that are named here aren't in the file.
    OutsideFile,
    /// The next section of options is named here, and is not later in the file than this one.
    Backward,
}

/// The first thing that is wrong with a file, from its beginning on, and the offset in bytes at which it is.
#[derive(Clone, Copy, Debug, PartialEq, Eq)]
pub struct Fault {
    /// What is wrong.
    pub cause: Cause,
    /// The offset in the file, in bytes.
    pub at: usize,
}

/// Why a file wasn't read.
#[derive(Debug, Drop)]
pub enum ReadError {
    /// An allocation was refused.
    NoMemory,
    /// The file has a fault.
    Fault(Fault),
}

impl From<AllocError> for ReadError {
    ghost from_gives = { λ _ e. e ≡ NoMemory };

    fn from(_error: AllocError) -> ReadError {
        ReadError::NoMemory
    }
}

impl<T: Drop> From<AllocFailed<T>> for ReadError {
    ghost from_gives = { λ _ e. e ≡ NoMemory };

    fn from(_error: AllocFailed<T>) -> ReadError {
        ReadError::NoMemory
    }
}
