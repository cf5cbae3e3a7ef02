//! How far a CPU of a stream is known.
ghost use Rattle.std.specs.Prelude.{◌≡◌};
ghost use Rattle.fleet_collector.specs.Fleet.{stream_at, empty_stream};
ghost use Rattle.library_values.specs.State.{IsStateOf};

use crate::listed_fleet::listed::ListedFleet;
use fleet_collector::Fleet;
use parcel_streams::StreamId;
use std::alloc::Global;
use stream_collector::StreamCollector;
use trace_model::CpuId;

/// How far a CPU of a stream is known.
#[repr(C)]
#[derive(Clone, Copy, Debug, PartialEq, Eq)]
pub struct CpuState {
    /// What is below is kept no longer; 0 if nothing was forgotten.
    pub bound: u64,
    /// The least number from the bound on that neither has a record, nor is missing, nor was given up.
    pub watermark: u64,
    /// How many records the CPU has, if that is known; else 0.
    pub end: u64,
    /// Whether it is.
    pub has_end: bool,
}

/// What is known of a stream: nothing, if it isn't there.
pub(crate) fn known_of<'a>(
    fleet: &'a Fleet,
    stream: StreamId,
    empty: &'a StreamCollector,
) -> &'a StreamCollector
    requires { empty.now ≡ empty_stream }
    ensures { result.now ≡ stream_at fleet.now stream.0 }
{
    match fleet.stream(stream) {
        Some(known) => known,
        None => empty,
    }
}

/// How far a CPU is known.
fn state_of(known: &StreamCollector, cpu: CpuId) -> CpuState
    ensures { IsStateOf known.now cpu.0 result }
{
    let end = known.end_mark(cpu);
    CpuState {
        bound: known.bound(cpu).0,
        watermark: known.watermark(cpu).0,
        end: match end {
            Some(end) => end.0,
            None => 0,
        },
        has_end: end.is_some(),
    }
}

impl ListedFleet {
    ghost use Rattle.fleet_collector.specs.Fleet.{stream_at};
    ghost use Rattle.library_values.specs.State.{IsStateOf};

    /// How far a CPU of a stream is known. Of a stream that isn't there nothing is.
    pub fn state(&self, alloc: Global, stream: StreamId, cpu: CpuId) -> CpuState
        ensures { IsStateOf (stream_at self.now.fleet stream.0) cpu.0 result }
    {
        let empty = StreamCollector::new(alloc);
        state_of(known_of(&self.fleet, stream, &empty), cpu)
    }
}
