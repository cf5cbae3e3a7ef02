//! The missing, unknown and undelivered numbers of a CPU of a stream, into an array.
ghost use Rattle.trace_model.specs.Runs.{InRun, AreRuns};
ghost use Rattle.library_values.specs.Runs.{ArePut};

use crate::listed_fleet::listed::ListedFleet;
use crate::listed_fleet::state::known_of;
use crate::runs::{Run, put_run};
use parcel_streams::StreamId;
use std::alloc::Global;
use stream_collector::{StreamCollector, StreamRuns};
use trace_model::CpuId;

impl ListedFleet {
    ghost use Rattle.stream_collector.specs.Stream.{IsMissing, IsUndelivered, IsUnknownYet};
    ghost use Rattle.fleet_collector.specs.Fleet.{stream_at};
    ghost use Rattle.library_values.specs.Runs.{PutsRuns};

    /// Puts the runs of the numbers of a CPU that are missing to the front of `out`, as many as it has room for. The
    /// answer is how many there are.
    pub fn put_missing(&self, alloc: Global, stream: StreamId, cpu: CpuId, out: &mut [Run]) -> usize
        ensures { PutsRuns (IsMissing (stream_at self.now.fleet stream.0) cpu.0) out.old result out.new }
    {
        let empty = StreamCollector::new(alloc);
        put_runs(known_of(&self.fleet, stream, &empty).missing(cpu), out)
    }

    /// Puts the runs of the numbers of a CPU that are unknown yet, as `put_missing` puts the missing ones.
    pub fn put_unknown(&self, alloc: Global, stream: StreamId, cpu: CpuId, out: &mut [Run]) -> usize
        ensures { PutsRuns (IsUnknownYet (stream_at self.now.fleet stream.0) cpu.0) out.old result out.new }
    {
        let empty = StreamCollector::new(alloc);
        put_runs(known_of(&self.fleet, stream, &empty).unknown(cpu), out)
    }

    /// Puts the runs of the numbers of a CPU that are undelivered, as `put_missing` puts the missing ones.
    pub fn put_undelivered(
        &self,
        alloc: Global,
        stream: StreamId,
        cpu: CpuId,
        out: &mut [Run],
    ) -> usize
        ensures { PutsRuns (IsUndelivered (stream_at self.now.fleet stream.0) cpu.0) out.old result out.new }
    {
        let empty = StreamCollector::new(alloc);
        put_runs(known_of(&self.fleet, stream, &empty).undelivered(cpu), out)
    }
}

/// Puts these runs to the front of `out`, as many as it has room for. The answer is how many there are.
fn put_runs(runs: StreamRuns<'_>, out: &mut [Run]) -> usize
    requires { AreRuns (InRun runs) runs }
    ensures { ArePut runs.entry out.old result out.new }
{
    let mut count = 0;
    for (first, last) in runs {
        let run = Run {
            first: first.0,
            last: last.0,
        };
        put_run(out, count, run);
        count += 1;
    }
    count
}
