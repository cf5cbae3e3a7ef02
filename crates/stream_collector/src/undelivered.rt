//! Numbers that were given up as undelivered.
use crate::added::Marked;
use crate::fault::MarkFault;
use crate::given_up::give_up_run;
use crate::stream::StreamCollector;
use trace_model::{CpuId, RecordNo};

impl StreamCollector {
    ghost use Rattle.std.specs.Prelude.{◌≡◌, ◌<◌, Ok, IfErr, OnOk, OnErr};
    ghost use Rattle.trace_model.specs.declared.limits.TheConstants.{MAX_CPUS};
    ghost use Rattle.stream_collector.specs.Stream.{IsUpToEnd};
    ghost use Rattle.stream_collector.specs.GivenUp.{GivesUp, AllGivenUp, IsUndeliveredFault};
    ghost use Rattle.stream_collector.specs.declared.added.Marked.TheVariants.{New as NewMark, Known as KnownMark};

    /// The numbers of a CPU from `first` up to `end`, itself not among them, were given up as undelivered, as a mark
    /// says. It is refused if any of them is at or beyond the end of the CPU.
    pub fn mark_undelivered(
        &mut self,
        cpu: CpuId,
        first: RecordNo,
        end: RecordNo,
    ) -> Result<Marked, MarkFault>
        requires { cpu.0 < MAX_CPUS }
        ensures known { result ≡ Ok KnownMark → AllGivenUp self.old.given_up cpu.0 first.0 end.0 }
        ensures new_exactly { result ≡ Ok NewMark → AllGivenUp self.old.given_up cpu.0 first.0 end.0 → ⊥ }
        ensures unchanged { result ≡ Ok KnownMark → self.new ≡ self.old }
        ensures given_up { result ≡ Ok NewMark → GivesUp self.old.given_up self.new.given_up cpu.0 first.0 end.0 }
        ensures parcels { self.new.parcels ≡ self.old.parcels }
        ensures marks { self.new.marks ≡ self.old.marks }
        ensures within { OnOk result (first.0 < end.0 → IsUpToEnd self.old cpu.0 end.0) }
        ensures fault { IfErr result (λ fault. IsUndeliveredFault self.old cpu.0 first.0 end.0 fault) }
        ensures refused { OnErr result (self.new ≡ self.old) }
    {
        if first >= end {
            return Ok(Marked::Known);
        }
        match self.marks(cpu).end {
            Some(mark) if mark < end.0 => {
                return Err(MarkFault::BeyondEnd(RecordNo(mark.max(first.0))));
            }
            _ => {}
        }
        match give_up_run(&mut self.given_up, self.alloc, cpu, first.0, end.0) {
            Ok(true) => Ok(Marked::New),
            Ok(false) => Ok(Marked::Known),
            Err(_) => Err(MarkFault::NoMemory),
        }
    }
}
