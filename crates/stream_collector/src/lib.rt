//! What is known of one stream: a collector of its parcels, with a bound and an end for each CPU.
//!
//! Below a CPU's bound nothing is kept any more. Its end says how many records there are. Numbers that will never come
//! are given up as undelivered.
#![tactic(auto)]

mod add;
mod added;
mod cpus;
mod cuts;
mod dropping;
mod ending;
mod fault;
mod forgetting;
mod frontier;
mod given_up;
mod kinds;
pub mod laws;
mod marks;
mod merge;
mod read;
mod runs;
mod same;
mod stream;
mod undelivered;

pub use added::{Added, Marked};
pub use cpus::MarkedCpus;
pub use fault::{AddFault, MarkFault, MergeFault};
pub use frontier::earlier;
pub use runs::StreamRuns;
pub use stream::StreamCollector;
