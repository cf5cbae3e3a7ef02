//! Why nothing was recorded, or what was recorded isn't printed.
use std::io;
use thiserror::Error;
use tracering::NoMemory;
use tracering::collectors::AddFault;
use tracering::parcels::ParcelFault;
use tracering::rings::WriteFault;

/// Why nothing was recorded, or what was recorded isn't printed.
#[derive(Debug, Drop, Error)]
pub enum Fault {
    /// Memory was refused.
    #[error("no memory")]
    NoMemory,
    /// An event was refused by its ring.
    #[error("an event was refused: {0:?}")]
    Write(WriteFault),
    /// A page is no parcel.
    #[error("a page is no parcel: {0:?}")]
    Parcel(ParcelFault),
    /// Two pages contradict each other.
    #[error("two pages contradict each other: {0:?}")]
    Add(AddFault),
    /// Standard output takes no more.
    #[error("a write failed")]
    Output,
}

impl From<NoMemory> for Fault {
    fn from(_: NoMemory) -> Fault {
        Fault::NoMemory
    }
}

impl From<WriteFault> for Fault {
    fn from(fault: WriteFault) -> Fault {
        Fault::Write(fault)
    }
}

impl From<ParcelFault> for Fault {
    fn from(fault: ParcelFault) -> Fault {
        match fault {
            ParcelFault::NoMemory => Fault::NoMemory,
            _ => Fault::Parcel(fault),
        }
    }
}

impl From<AddFault> for Fault {
    fn from(fault: AddFault) -> Fault {
        match fault {
            AddFault::NoMemory => Fault::NoMemory,
            _ => Fault::Add(fault),
        }
    }
}

impl From<io::Error> for Fault {
    fn from(_: io::Error) -> Fault {
        Fault::Output
    }
}
