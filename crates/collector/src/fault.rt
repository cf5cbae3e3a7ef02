//! Why parcels can't be put together.
use trace_model::{CpuId, NoMemory, RecordNo};

/// Why a parcel isn't added, or a collector not merged. Nothing has changed.
#[derive(Clone, Copy, Debug, PartialEq, Eq)]
pub enum AddFault {
    /// There are two different records of this CPU under this number, and of all numbers at odds it is the least, by
    /// CPU and then by number.
    Clash(CpuId, RecordNo),
    /// This CPU's number has a record and is missing, and of all numbers at odds it is the least.
    TakenAndMissing(CpuId, RecordNo),
    /// Memory was refused; nothing is at odds.
    NoMemory,
}

impl From<NoMemory> for AddFault {
    ghost use Rattle.std.specs.Prelude.{◌≡◌};
    ghost use Rattle.collector.specs.declared.fault.AddFault.TheVariants.{NoMemory as MemoryIs};

    ghost from_gives = { λ _ e. e ≡ MemoryIs };

    fn from(_refused: NoMemory) -> AddFault {
        AddFault::NoMemory
    }
}
