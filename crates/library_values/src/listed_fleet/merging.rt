//! Fleets that are merged.
use crate::listed_fleet::listed::ListedFleet;
use fleet_collector::FleetMergeFault;

impl ListedFleet {
    ghost use Rattle.library_values.specs.Merging.{MergesSo};

    /// Adds all that another fleet knows. The answer is why that isn't done, and then nothing has changed. The listing
    /// stays.
    pub fn merge(&mut self, other: &ListedFleet) -> Option<FleetMergeFault>
        ensures { MergesSo self.old other.now.fleet result self.new }
    {
        match self.fleet.merge(&other.fleet) {
            Ok(()) => None,
            Err(fault) => Some(fault),
        }
    }
}
