//! Collectors: what several parcels have and miss together; and deliveries, by which a taken page is found by its fill
//! and added to one.
//!
//! A collector keeps the parcels that add something, and shares their pages. Which numbers of a CPU they have and miss
//! is kept beside them as disjoint ranges, so that what is known of a number is found in logarithmic time.
#![tactic(auto)]

mod add;
mod added;
mod beside;
mod bounds;
mod collector;
mod cpus;
pub mod deliveries;
mod entries;
mod fault;
mod index;
mod kinds;
pub mod laws;
mod listed;
mod merge;
mod next_runs;
mod ranges;
mod read;
mod runs;
mod same;

pub use added::Added;
pub use collector::Collector;
pub use cpus::KnownCpus;
pub use entries::first_difference;
pub use fault::AddFault;
pub use listed::CpuRecords;
pub use runs::{MissingRuns, NumberRuns, UnknownRuns};
