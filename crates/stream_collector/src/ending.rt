//! How many records a CPU has.
use crate::added::Marked;
use crate::fault::MarkFault;
use crate::marks::Marks;
use crate::stream::StreamCollector;
use trace_model::{CpuId, RecordNo};

impl StreamCollector {
    ghost use Rattle.std.specs.Prelude.{◌≡◌, ℕ, ◌-◌, ◌<◌, ◌↔◌, Some, None, Ok, IfErr, OnErr};
    ghost use Rattle.trace_model.specs.declared.limits.TheConstants.{MAX_CPUS};
    ghost use Rattle.stream_collector.specs.Stream.{end_of};
    ghost use Rattle.stream_collector.specs.Marking.{IsNotOpen, HasEnd, IsEndFault};
    ghost use Rattle.stream_collector.specs.declared.added.Marked.TheVariants.{New as NewMark, Known as KnownMark};

    /// A CPU has `count` records, and no more. It is refused if the CPU has another end, and then if a number at or
    /// beyond this one is known, was given up or is below the bound.
    pub fn set_end(&mut self, cpu: CpuId, count: RecordNo) -> Result<Marked, MarkFault>
        requires { cpu.0 < MAX_CPUS }
        ensures known { (result ≡ Ok KnownMark) ↔ (end_of self.old cpu.0 ≡ Some count.0) }
        ensures unchanged { result ≡ Ok KnownMark → self.new ≡ self.old }
        ensures first { result ≡ Ok NewMark → end_of self.old cpu.0 ≡ None }
        ensures ended { result ≡ Ok NewMark → HasEnd self.old self.new cpu.0 count.0 }
        ensures nothing_beyond { result ≡ Ok NewMark → (n : ℕ) → IsNotOpen self.old cpu.0 n → n < count.0 }
        ensures fault { IfErr result (λ fault. IsEndFault self.old cpu.0 count.0 fault) }
        ensures refused { OnErr result (self.new ≡ self.old) }
    {
        let marks = self.marks(cpu);
        match marks.end {
            Some(end) if end == count.0 => return Ok(Marked::Known),
            Some(end) => return Err(MarkFault::OtherEnd(RecordNo(end))),
            None => {}
        }
        let reach = self.reach(cpu);
        if reach > count.0 {
            return Err(MarkFault::BeyondEnd(RecordNo(reach - 1)));
        }
        let end = Some(count.0);
        self.marks.set(cpu, Marks { end, ..marks })?;
        Ok(Marked::New)
    }

    /// The number after the last one of a CPU that is known, was given up or is below the bound, or 0.
    pub(crate) fn reach(&self, cpu: CpuId) -> u64
        ensures last { 0 < result → IsNotOpen self.now cpu.0 (result - 1) }
        ensures behind { (n : ℕ) → IsNotOpen self.now cpu.0 n → n < result }
    {
        let known = self.known.known_end(cpu);
        let given_up = self.given_up.known_end(cpu);
        self.marks(cpu).bound.max(known).max(given_up)
    }
}
