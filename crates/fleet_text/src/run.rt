//! Runs of numbers of a fleet.
use parcel_streams::StreamId;
use trace_model::{CpuId, RecordNo};

/// What a run states of its numbers.
#[derive(Clone, Copy, Debug, PartialEq, Eq)]
pub enum RunKind {
    /// They are missing.
    Missing,
    /// They are expected, and nothing is known of them.
    Unknown,
    /// They were given up.
    Undelivered,
    /// They are below the bound of their CPU.
    Forgotten,
}

/// A run of numbers of a CPU of a stream, of one kind.
#[derive(Clone, Copy, Debug, PartialEq, Eq)]
pub struct FleetRun {
    /// The stream.
    pub stream: StreamId,
    /// The CPU.
    pub cpu: CpuId,
    /// The first number.
    pub first: RecordNo,
    /// The last number.
    pub last: RecordNo,
}
