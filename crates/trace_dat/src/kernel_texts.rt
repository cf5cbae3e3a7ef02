//! Texts that the kernel prints of its trace, and the fields that every event has: which event a record is, by name,
//! which process wrote it, and what the kernel counts of a CPU's ring.

mod counters;
mod lines;
mod names;
mod record;

pub use counters::{Counters, counters_of, ring_counters};
pub use lines::number_of;
pub use names::{EventName, EventNames};
pub use record::{CommonFields, common_fields};
