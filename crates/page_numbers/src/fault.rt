//! Why there is no such parcel.
ghost use Rattle.std.specs.Prelude.{◌≡◌};
ghost use Rattle.page_numbers.specs.Faults.{fault_of_image};
ghost use Rattle.page_numbers.specs.declared.fault.ParcelFault.TheVariants.{NoMemory as MemoryIs};

use page_image::ImageFault;
use std::alloc::AllocFailed;
use trace_model::NoMemory;

/// Why a page can't be a parcel, or bytes can't be read as one. What is looked at first, in its bytes or in a page, is
/// the CPU, then the image, and then the others in the order in which they are listed here.
#[derive(Clone, Copy, Debug, PartialEq, Eq)]
pub enum ParcelFault {
    /// The page image has this fault, or there are fewer bytes than 48, which is reported before all else.
    Image(ImageFault),
    /// The number after the last record's is above 2^64 - 1.
    NumberOverflow,
    /// More numbers are missing before the first record's than there are.
    MissedTooMany,
    /// The image states other missed records than the number before it.
    MissedDiffers,
    /// The CPU's number isn't below `MAX_CPUS`.
    BadCpu,
    /// Memory was refused.
    NoMemory,
}

impl From<ImageFault> for ParcelFault {
    ghost from_gives = { λ f e. e ≡ fault_of_image f };

    fn from(fault: ImageFault) -> ParcelFault {
        match fault {
            ImageFault::NoMemory => ParcelFault::NoMemory,
            fault => ParcelFault::Image(fault),
        }
    }
}

impl From<NoMemory> for ParcelFault {
    ghost from_gives = { λ f e. e ≡ MemoryIs };

    fn from(_refused: NoMemory) -> ParcelFault {
        ParcelFault::NoMemory
    }
}

impl<T: Drop> From<AllocFailed<T>> for ParcelFault {
    ghost from_gives = { λ f e. e ≡ MemoryIs };

    fn from(_refused: AllocFailed<T>) -> ParcelFault {
        ParcelFault::NoMemory
    }
}
