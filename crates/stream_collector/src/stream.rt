//! What is known of one stream.
use crate::marks::{CpuMarks, Marks};
use collector::Collector;
use std::alloc::Global;
use std::fmt;
use std::marker::Model;
use trace_model::CpuId;

/// What is known of one stream: what its parcels have and miss together, for each CPU a bound below which nothing is
/// kept any more and, once it is known, the number of its records, and the numbers that were given up as undelivered.
///
/// ```
/// let mut stream = StreamCollector::new(rt.alloc());
/// assert!(rt; stream.add(parcel)? == Added::New);
/// assert!(rt; stream.watermark(CpuId(0)) == RecordNo(2));
/// stream.forget(CpuId(0), RecordNo(2))?;
/// ```
#[derive(Drop)]
pub struct StreamCollector {
    pub(crate) known: Collector,
    /// What was given up is missing in these parcels, which have no record.
    pub(crate) given_up: Collector,
    pub(crate) marks: CpuMarks,
    pub(crate) alloc: Global,
}

impl Model for StreamCollector {
    ghost use Rattle.stream_collector.specs.Stream.{Stream};
    ghost use Rattle.stream_collector.specs.Marking.{IsStanding};

    ghost Value = { Stream };

    ghost view = { λ s. record {
      parcels = s.known;
      marks = s.marks.cpus.entries;
      given_up = s.given_up;
    } };

    ghost invariant = { λ s. IsStanding record {
      parcels = s.known;
      marks = s.marks.cpus.entries;
      given_up = s.given_up;
    } };
}

impl StreamCollector {
    ghost use Rattle.std.specs.Prelude.{◌≡◌, []};
    ghost use Rattle.stream_collector.specs.Marks.{marks_at};

    /// Nothing is known of the stream.
    pub fn new(alloc: Global) -> StreamCollector
        ensures parcels { result.parcels ≡ [] }
        ensures marks { result.marks ≡ [] }
        ensures given_up { result.given_up ≡ [] }
    {
        StreamCollector {
            known: Collector::new(alloc),
            given_up: Collector::new(alloc),
            marks: CpuMarks::new(alloc),
            alloc,
        }
    }

    /// The bound and the end of a CPU.
    pub(crate) fn marks(&self, cpu: CpuId) -> Marks
        ensures { result ≡ marks_at self.now.marks cpu.0 }
    {
        self.marks.of(cpu)
    }
}

/// The kept parcels.
impl fmt::Debug for StreamCollector {
    fn fmt<W: fmt::Write>(&self, f: &mut fmt::Formatter<W>) -> fmt::Result {
        f.debug_struct("StreamCollector")
            .field("known", &self.known)
            .finish_non_exhaustive()
    }
}
