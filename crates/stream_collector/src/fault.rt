//! Why a piece isn't added.
use trace_model::{CpuId, NoMemory, RecordNo};

/// Why a parcel isn't added. Nothing has changed.
#[derive(Clone, Copy, Debug, PartialEq, Eq)]
pub enum AddFault {
    /// The parcel has or misses this number of its CPU, which has an end at or below it. It is the least such number.
    BeyondEnd(CpuId, RecordNo),
    /// The parcel isn't beyond an end, and the collector refuses it.
    Refused(collector::AddFault),
}

impl From<collector::AddFault> for AddFault {
    ghost use Rattle.std.specs.Prelude.{◌≡◌};
    ghost use Rattle.stream_collector.specs.declared.fault.AddFault.TheVariants.{Refused};

    ghost from_gives = { λ fault e. e ≡ Refused fault };

    fn from(fault: collector::AddFault) -> AddFault {
        AddFault::Refused(fault)
    }
}

/// Why a mark isn't added, or a bound not raised. Nothing has changed.
#[derive(Clone, Copy, Debug, PartialEq, Eq)]
pub enum MarkFault {
    /// `set_end`: the CPU has another end, this one.
    OtherEnd(RecordNo),
    /// Something is beyond the end of the CPU:
    ///
    /// - `set_end`: this number is known, was given up or is below the bound, and isn't below the end that was to be
    ///   set; it is the greatest such number.
    /// - `forgotten` and `give_up`: the CPU has this end, and the bound is above it.
    /// - `mark_undelivered`: the CPU has an end at or below this number, the least such one of those to be given up.
    BeyondEnd(RecordNo),
    /// `forget`: this number, below the bound, neither has a record nor is missing, nor was it given up; it is the
    /// least such number from the CPU's bound on.
    NotFinal(RecordNo),
    /// Memory was refused; nothing else is wrong.
    NoMemory,
}

impl From<NoMemory> for MarkFault {
    ghost use Rattle.std.specs.Prelude.{◌≡◌};
    ghost use Rattle.stream_collector.specs.declared.fault.MarkFault.TheVariants.{NoMemory as MemoryIs};

    ghost from_gives = { λ _ e. e ≡ MemoryIs };

    fn from(_refused: NoMemory) -> MarkFault {
        MarkFault::NoMemory
    }
}

/// Why two streams aren't merged. Nothing has changed.
#[derive(Clone, Copy, Debug, PartialEq, Eq)]
pub enum MergeFault {
    /// This CPU has the first end here, and the second one there.
    OtherEnd(CpuId, RecordNo, RecordNo),
    /// Of this CPU the number is known, was given up or is below the bound here or there, and the CPU has an end at or
    /// below it in the other stream. It is the greatest such number there or here.
    BeyondEnd(CpuId, RecordNo),
    /// The ends fit, and the kept parcels have two records of this CPU under this number. Of all numbers at odds it is
    /// the least, by CPU and then by number.
    Clash(CpuId, RecordNo),
    /// The ends fit, and in the kept parcels this number of the CPU has a record and is missing. Of all numbers at odds
    /// it is the least, by CPU and then by number.
    TakenAndMissing(CpuId, RecordNo),
    /// Memory was refused. The ends fit; whether the kept parcels agree isn't said.
    NoMemory,
}

impl From<NoMemory> for MergeFault {
    ghost use Rattle.std.specs.Prelude.{◌≡◌};
    ghost use Rattle.stream_collector.specs.declared.fault.MergeFault.TheVariants.{NoMemory as MergeMemoryIs};

    ghost from_gives = { λ _ e. e ≡ MergeMemoryIs };

    fn from(_refused: NoMemory) -> MergeFault {
        MergeFault::NoMemory
    }
}
