//! Collectors: what several parcels have and miss together, and its listing by time.
pub use collector::{
    AddFault, Added, Collector, CpuRecords, KnownCpus, MissingRuns, NumberRuns, UnknownRuns,
    first_difference,
};
pub use time_merge::{Line, LinesByTime, TakesLines, lines_by_time, listing, walk_lines};
