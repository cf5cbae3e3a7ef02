//! What rings left in files or shared memory whose pages others can read, as parcels.
pub use ring_region::{Damaged, Header, Region, RegionFault, SlotCause, SlotFault, read_region};
