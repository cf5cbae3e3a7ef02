//! Why a stream can't be read.
ghost use Rattle.std.specs.Prelude.{◌≡◌};
ghost use Rattle.parcel_streams.specs.Answers.{fault_of_parcel};

use page_numbers::ParcelFault;

/// Why the bytes have no piece at their front. What is looked at first, in its bytes, is what is listed here first.
#[derive(Clone, Copy, Debug, PartialEq, Eq)]
pub enum PieceFault {
    /// They don't begin with the magic; or there are fewer than eight, and it doesn't begin with them.
    NotPacked,
    /// They end within the piece: there are fewer than 32, or fewer than the length that is stated.
    Cut,
    /// The version isn't 1.
    BadVersion,
    /// The length that is stated isn't one of a piece.
    BadLength,
    /// The checksum isn't that of the bytes before it.
    BadSum,
    /// It is neither a parcel nor a mark.
    BadKind,
    /// The parcel has this fault, which isn't `ParcelFault::NoMemory`.
    Parcel(ParcelFault),
    /// The bytes read as a parcel, and aren't those that are written for it: more follow its page's data, or its image
    /// stores a count of missed records, or has bits set that mean nothing.
    Loose,
    /// The mark is of another length than its kind, or there is no such CPU; or it says nothing: its bound is 0, or the
    /// second number of its run isn't above the first one.
    BadMark,
    /// Memory was refused. The bytes have a piece at their front.
    NoMemory,
}

/// Why the bytes aren't a stream: the first piece that can't be read.
#[derive(Clone, Copy, Debug, PartialEq, Eq)]
pub struct StreamFault {
    /// How many whole pieces are before it.
    pub index: usize,
    /// Where it begins, in bytes.
    pub at: usize,
    /// What is wrong with it.
    pub fault: PieceFault,
}

impl From<ParcelFault> for PieceFault {
    ghost from_gives = { λ f e. e ≡ fault_of_parcel f };

    fn from(fault: ParcelFault) -> PieceFault {
        match fault {
            ParcelFault::NoMemory => PieceFault::NoMemory,
            fault => PieceFault::Parcel(fault),
        }
    }
}
