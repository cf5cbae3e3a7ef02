//! What an audit answers.
use trace_model::{CpuId, FillNo};

/// The collector keeps only parcels that were taken in the run, and it has all that these have and miss.
#[derive(Clone, Copy, Debug, PartialEq, Eq)]
pub struct Audited;

/// Why a collector isn't the one of a run.
#[derive(Clone, Copy, Debug, PartialEq, Eq)]
pub enum AuditFault {
    /// The collector keeps a parcel of this CPU and fill that equals none of those that were taken, and of all such
    /// parcels it is the least, by CPU and then by fill.
    Stray(CpuId, FillNo),
    /// Each kept parcel was taken, but the collector lacks a record or a missing number of the parcel of this CPU and
    /// fill that was taken, and of all such parcels it is the least.
    Lacks(CpuId, FillNo),
}
