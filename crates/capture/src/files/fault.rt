//! Why files can't be read.
ghost use Rattle.std.specs.Prelude.{◌≡◌};
ghost use Rattle.capture.specs.files.Giving.{input_fault, read_fault};
ghost use Rattle.capture.specs.declared.files.fault.InputFault.TheVariants.{NoMemory as MemoryIs};

use crate::{CaptureFault, ReadFault};
use std::alloc::{AllocError, AllocFailed};
use trace_dat::Fault;
use trace_model::NoMemory;

/// What is wrong with a file.
#[derive(Clone, Copy, Debug, PartialEq, Eq)]
pub enum FileFault {
    /// It is one of trace-cmd, and hasn't the format.
    Format(Fault),
    /// The main buffer has pages of a CPU with this number, which is too high.
    BadCpu(u32),
    /// The main buffer has pages of this size, in bytes, which is below 4,096 or above 65,536.
    BadPage(u32),
    /// The pages of the main buffer have more bytes than the file.
    Overlap,
    /// It is raw, and what was read as one page has several, of this many bytes each.
    SmallerPages(u32),
    /// It is one of trace-cmd, and of another machine than an earlier one: what they say of their machines differs.
    OtherHost,
}

/// Why a file isn't read.
#[derive(Clone, Copy, Debug, PartialEq, Eq)]
pub enum InputFault {
    /// A read failed.
    Read,
    /// It has a fault.
    File(FileFault),
    /// The numbers of a CPU's records, pages or bytes would be above 2^64 - 1.
    Numbers,
    /// Memory was refused.
    NoMemory,
}

impl From<AllocError> for InputFault {
    ghost from_gives = { λ _ e. e ≡ MemoryIs };

    fn from(_refused: AllocError) -> InputFault {
        InputFault::NoMemory
    }
}

impl<T: Drop> From<AllocFailed<T>> for InputFault {
    ghost from_gives = { λ _ e. e ≡ MemoryIs };

    fn from(_refused: AllocFailed<T>) -> InputFault {
        InputFault::NoMemory
    }
}

impl From<NoMemory> for InputFault {
    ghost from_gives = { λ _ e. e ≡ MemoryIs };

    fn from(_refused: NoMemory) -> InputFault {
        InputFault::NoMemory
    }
}

impl From<CaptureFault> for InputFault {
    ghost from_gives = { λ f e. e ≡ input_fault f };

    fn from(fault: CaptureFault) -> InputFault {
        match fault {
            CaptureFault::Numbers => InputFault::Numbers,
            CaptureFault::NoMemory => InputFault::NoMemory,
        }
    }
}

impl From<ReadFault> for InputFault {
    ghost from_gives = { λ f e. e ≡ read_fault f };

    fn from(fault: ReadFault) -> InputFault {
        match fault {
            ReadFault::Read => InputFault::Read,
            ReadFault::Capture(fault) => InputFault::from(fault),
            ReadFault::SmallerPages(bytes) => InputFault::File(FileFault::SmallerPages(bytes)),
        }
    }
}

/// The file that isn't read, and why.
#[derive(Clone, Copy, Debug, PartialEq, Eq)]
pub struct Unread {
    /// How many files are before it.
    pub input: usize,
    /// Why it isn't read.
    pub fault: InputFault,
}
