//! The missing numbers of a CPU, into an array.
ghost use Rattle.trace_model.specs.Collection.{Misses};
ghost use Rattle.library_values.specs.Runs.{PutsRuns};

use crate::listed_collector::listed::ListedCollector;
use crate::runs::{Run, put_run};
use trace_model::CpuId;

impl ListedCollector {
    /// Puts the runs of the numbers of a CPU that are missing to the front of `out`, as many as it has room for. The
    /// answer is how many there are.
    pub fn put_missing(&self, cpu: CpuId, out: &mut [Run]) -> usize
        ensures { PutsRuns (Misses self.now.collector cpu.0) out.old result out.new }
    {
        let mut count = 0;
        for (first, last) in self.collector.missing(cpu) {
            let run = Run {
                first: first.0,
                last: last.0,
            };
            put_run(out, count, run);
            count += 1;
        }
        count
    }
}
