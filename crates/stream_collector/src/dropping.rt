//! Dropping what ends below bounds.
ghost use Rattle.std.specs.Prelude.{◌≡◌, IfOk};
ghost use Rattle.trace_model.specs.Collection.{IsSame};
ghost use Rattle.page_numbers.specs.Parcels.{as_parcel};
ghost use Rattle.collector.specs.Known.{without_ended, ends_below};
ghost use Rattle.stream_collector.specs.Marks.{bounds_of};

use crate::marks::CpuMarks;
use collector::Collector;
use page_numbers::Parcel;
use std::alloc::Global;
use trace_model::NoMemory;

/// A collector of those parcels that don't end below the bound of their CPU.
pub(crate) fn without_ended(
    alloc: Global,
    parcels: &Collector,
    marks: &CpuMarks,
) -> Result<Collector, NoMemory>
    ensures { IfOk result (λ kept. IsSame kept (without_ended (bounds_of marks.now.cpus.entries) parcels.now)) }
{
    let mut kept = Collector::new(alloc);
    for parcel in parcels.parcels() {
        if !ends_below(marks, parcel) {
            let copy = parcel.share()?;
            match kept.add(copy) {
                Ok(_) => {}
                Err(_) => return Err(NoMemory),
            }
        }
    }
    Ok(kept)
}

/// Whether a parcel ends below the bound of its CPU.
fn ends_below(marks: &CpuMarks, parcel: &Parcel) -> bool
    ensures { result ≡ ends_below (bounds_of marks.now.cpus.entries) (as_parcel parcel.now) }
{
    parcel.first().0 + parcel.count() <= marks.of(parcel.cpu()).bound
}
