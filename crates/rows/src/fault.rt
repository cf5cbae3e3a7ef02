//! Why a text isn't answered to its end.
use std::alloc::AllocError;
use std::io;
use thiserror::Error;
use trace_model::NoMemory;

/// The exit status if a line can't be answered.
const REFUSED: u8 = 1;

/// The exit status if memory was refused, or a read or a write failed.
const FAILED: u8 = 3;

/// Why a text isn't answered to its end.
#[derive(Debug, Drop, Error)]
pub enum RowFault {
    /// The line of this number can't be answered, for this reason.
    #[error("line {0}: {1}")]
    Line(u64, &'static str),
    /// A read or a write failed.
    #[error("a read or a write failed")]
    Io,
    /// Memory was refused.
    #[error("no memory")]
    NoMemory,
}

impl From<NoMemory> for RowFault {
    fn from(_: NoMemory) -> RowFault {
        RowFault::NoMemory
    }
}

impl From<AllocError> for RowFault {
    fn from(_: AllocError) -> RowFault {
        RowFault::NoMemory
    }
}

impl From<io::Error> for RowFault {
    fn from(error: io::Error) -> RowFault {
        match error.kind() {
            io::ErrorKind::OutOfMemory => RowFault::NoMemory,
            _ => RowFault::Io,
        }
    }
}

impl RowFault {
    /// The exit status.
    pub(crate) fn status(&self) -> u8 {
        match self {
            RowFault::Line(_, _) => REFUSED,
            RowFault::Io | RowFault::NoMemory => FAILED,
        }
    }
}
