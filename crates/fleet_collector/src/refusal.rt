//! Why a piece isn't added.
use stream_collector::{AddFault, MarkFault};

/// Why a piece isn't added to its stream. Nothing has changed.
#[derive(Clone, Copy, Debug, PartialEq, Eq)]
pub enum PieceRefusal {
    /// It is a parcel, which has this fault.
    Parcel(AddFault),
    /// It is a mark, which has this fault.
    Mark(MarkFault),
}

impl From<AddFault> for PieceRefusal {
    ghost use Rattle.std.specs.Prelude.{◌≡◌};
    ghost use Rattle.fleet_collector.specs.declared.refusal.PieceRefusal.TheVariants.{Parcel as ParcelFault};

    ghost from_gives = { λ fault e. e ≡ ParcelFault fault };

    fn from(fault: AddFault) -> PieceRefusal {
        PieceRefusal::Parcel(fault)
    }
}

impl From<MarkFault> for PieceRefusal {
    ghost use Rattle.std.specs.Prelude.{◌≡◌};
    ghost use Rattle.fleet_collector.specs.declared.refusal.PieceRefusal.TheVariants.{Mark as MarkFaultIs};

    ghost from_gives = { λ fault e. e ≡ MarkFaultIs fault };

    fn from(fault: MarkFault) -> PieceRefusal {
        PieceRefusal::Mark(fault)
    }
}
