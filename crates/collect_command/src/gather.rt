//! A collector of all parcels of captures.
ghost use Rattle.std.specs.Prelude.{◌++◌, List, IfOk, OnOk};
ghost use Rattle.trace_model.specs.Collection.{Agree, IsSame};
ghost use Rattle.page_numbers.specs.Parcels.{as_parcels};
ghost use Rattle.capture.specs.Pages.{Page};
ghost use Rattle.capture.specs.Rings.{parcels_of_captures};
ghost use Rattle.capture.specs.files.Files.{ModelPart};
ghost use Rattle.collect_command.specs.Gathered.{AreReadFrom};

use capture::files::CpuCapture;
use capture::laws::captures_agree;
use collector::Collector;
use collector::deliveries::collect;
use page_numbers::Parcel;
use std::alloc::Global;
use trace_model::NoMemory;

/// Adds these parcels, whose pages are shared. They contradict neither those that are kept nor each other. If memory is
/// refused, some of them are added.
fn add_parcels(collector: &mut Collector, parcels: &[Parcel]) -> Result<(), NoMemory>
    requires { Agree (collector.old ++ as_parcels parcels.now) }
    ensures { OnOk result (IsSame collector.new (collector.old ++ as_parcels parcels.now)) }
{
    for parcel in parcels {
        collect(collector, parcel)?;
    }
    Ok(())
}

/// A collector of the parcels of all captures, which don't contradict each other.
pub(crate) fn gather(alloc: Global, cpus: &[CpuCapture]) -> Result<Collector, NoMemory>
    requires { (parts : List ModelPart) × (captures : List (List Page)) × AreReadFrom parts 0 cpus.now captures }
    ensures { (parts : List ModelPart) (captures : List (List Page)) → AreReadFrom parts 0 cpus.now captures
        → IfOk result (λ collector. IsSame collector (parcels_of_captures 0 captures)) }
{
    // (A law, which does nothing: parcels of captures don't contradict each other.)
    captures_agree();
    let mut collector = Collector::new(alloc);
    for found in cpus {
        add_parcels(&mut collector, &found.capture.parcels)?;
    }
    Ok(collector)
}
