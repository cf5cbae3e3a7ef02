//! Why fleets aren't merged.
use parcel_streams::StreamId;
use stream_collector::MergeFault;

/// Why two fleets aren't merged. Nothing has changed.
#[derive(Clone, Copy, Debug, PartialEq, Eq)]
pub struct FleetMergeFault {
    /// The stream that is at odds, or for which memory was refused.
    pub stream: StreamId,
    /// Why what both know of it isn't merged.
    pub fault: MergeFault,
}
