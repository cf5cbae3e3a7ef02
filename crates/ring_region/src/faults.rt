//! What is wrong with a region, or with a slot of it.
ghost use Rattle.std.specs.Prelude.{◌≡◌};
ghost use Rattle.ring_region.specs.declared.faults.RegionFault.TheVariants.{NoMemory as MemoryIs};
ghost use Rattle.ring_region.specs.Headers.{fault_at};

use crate::limits::{CPU_AT, ENDED_AT, PAGES_AT, SIZE_AT, VERSION_AT};
use record_words::WordFault;
use trace_model::NoMemory;

/// Why there is no region. What is looked at first is what is listed here first, but for the slots, which are looked
/// for last.
#[derive(Clone, Copy, Debug, PartialEq, Eq)]
pub enum RegionFault {
    /// There are fewer than 128 bytes; or the header is one, and there are fewer bytes than its slots need.
    TooShort,
    /// The first eight bytes aren't `tracring`.
    NotARegion,
    /// The version isn't 1.
    BadVersion,
    /// It is of fewer than `MIN_PAGES` or of more than `MAX_PAGES` pages.
    BadPages,
    /// No ring's page has this size.
    BadSize,
    /// The CPU's number isn't below `MAX_CPUS`.
    BadCpu,
    /// It says neither that the ring ended nor that it didn't.
    BadEnd,
    /// Memory was refused. The bytes are a region.
    NoMemory,
}

impl RegionFault {
    /// The offset of what is wrong, in bytes; none, if something isn't there.
    pub fn at(self) -> Option<usize>
        ensures { result ≡ fault_at self }
    {
        match self {
            RegionFault::TooShort | RegionFault::NoMemory => None,
            RegionFault::NotARegion => Some(0),
            RegionFault::BadVersion => Some(VERSION_AT),
            RegionFault::BadPages => Some(PAGES_AT),
            RegionFault::BadSize => Some(SIZE_AT),
            RegionFault::BadCpu => Some(CPU_AT),
            RegionFault::BadEnd => Some(ENDED_AT),
        }
    }
}

impl From<NoMemory> for RegionFault {
    ghost from_gives = { λ _ e. e ≡ MemoryIs };

    fn from(_refused: NoMemory) -> RegionFault {
        RegionFault::NoMemory
    }
}

/// Why a slot isn't a page of its region. What is looked at first is what is listed here first; the last two are
/// reported only of several slots together.
#[derive(Clone, Copy, Debug, PartialEq, Eq)]
pub enum SlotCause {
    /// It is of another CPU than the region.
    OtherCpu,
    /// It says that numbers are missing before its records, which no slot does.
    Missed,
    /// Its commit isn't a plain size of at most the page's: it is too large, or bits are set above the size.
    BadCommit,
    /// The data up to its commit has this first fault, whose offset counts from the begin of the data.
    Word(WordFault),
    /// The number after the last record's is above 2^64 - 1.
    NumberOverflow,
    /// A slot before it is of the same fill.
    SameFill,
    /// Its first number is below the end of the page before it, by fill.
    Overlap,
}

/// What is wrong with a slot.
#[derive(Clone, Copy, Debug, PartialEq, Eq)]
pub struct SlotFault {
    /// The offset in the slot of what is wrong, in bytes.
    pub at: usize,
    /// What is wrong there.
    pub cause: SlotCause,
}

/// A slot of a region that isn't a page of it.
#[derive(Clone, Copy, Debug, PartialEq, Eq)]
pub struct Damaged {
    /// How many slots are before it.
    pub slot: usize,
    /// The offset in the region of what is wrong, in bytes.
    pub at: usize,
    /// What is wrong there.
    pub cause: SlotCause,
}
