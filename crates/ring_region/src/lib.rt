//! Regions: the bytes that a ring left in a file or in shared memory, whatever ended its process, read as parcels.
//!
//! Each page of a ring that others can read is in a slot of its region, and its records up to the last commit are
//! there at every moment. Their format and what is recovered of them are in `docs/formats/pages.md`, "Regions".
//!
//! ```
//! let region = read_region(rt.alloc(), &bytes)?;
//! for piece in region.pieces(rt.alloc())? {
//!     fleet.add_piece(rt.alloc(), piece)?;
//! }
//! ```
#![tactic(auto)]

mod faults;
mod found;
mod headers;
pub mod laws;
mod limits;
mod numbered;
mod order;
mod regions;
mod scans;
mod slots;

pub use faults::{Damaged, RegionFault, SlotCause, SlotFault};
pub use headers::Header;
pub use regions::{Region, read_region};
pub use slots::{Slot, read_slot};
