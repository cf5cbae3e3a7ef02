//! A parcel is added to a collector.
ghost use Rattle.std.specs.Prelude.{◌≡◌, ◌++◌, [], ◌∷◌, IfOk, OnErr};
ghost use Rattle.trace_model.specs.Collection.{Agree};
ghost use Rattle.page_numbers.specs.Parcels.{as_parcel};
ghost use Rattle.collector.specs.deliveries.Deliveries.{Adds};

use crate::{AddFault, Added, Collector};
use page_numbers::Parcel;
use trace_model::NoMemory;

/// The fault of parcels that aren't at odds.
fn refused(fault: AddFault) -> NoMemory
    requires { fault ≡ AddFault.NoMemory }
{
    match fault {
        AddFault::NoMemory => NoMemory,
        AddFault::Clash(_, _) => unreachable!(),
        AddFault::TakenAndMissing(_, _) => unreachable!(),
    }
}

/// Adds a parcel that is at odds with none. If memory is refused, the collector stays as it was.
pub fn collect(collector: &mut Collector, parcel: &Parcel) -> Result<Added, NoMemory>
    requires { Agree (collector.old ++ as_parcel parcel.now ∷ []) }
    ensures added { IfOk result (λ added. Adds added collector.old (as_parcel parcel.now) collector.new) }
    ensures refused { OnErr result (collector.new ≡ collector.old) }
{
    match collector.add(parcel.share()?) {
        Ok(added) => Ok(added),
        Err(fault) => Err(refused(fault)),
    }
}
