//! Raising the bound of a CPU.
use crate::added::Marked;
use crate::dropping::without_ended;
use crate::fault::MarkFault;
use crate::given_up::give_up_run;
use crate::marks::Marks;
use crate::stream::StreamCollector;
use collector::Collector;
use trace_model::{CpuId, NoMemory, RecordNo};

impl StreamCollector {
    ghost use Rattle.std.specs.Prelude.{◌≡◌, ◌<◌, ◌≤◌, Ok, IfOk, IfErr, OnOk, OnErr};
    ghost use Rattle.trace_model.specs.Collection.{IsSame};
    ghost use Rattle.trace_model.specs.declared.limits.TheConstants.{MAX_CPUS};
    ghost use Rattle.stream_collector.specs.Stream.{bound_of, IsUpToEnd, HaveNoRecord};
    ghost use Rattle.stream_collector.specs.Forgetting.{HasBound, RaisesBound, GivesUpBelow, AllAccounted};
    ghost use Rattle.stream_collector.specs.Forgetting.{IsBoundFault, IsForgetFault};
    ghost use Rattle.stream_collector.specs.declared.added.Marked.TheVariants.{New as NewMark};

    /// What is below this bound of a CPU was forgotten, as the mark of a snapshot says: the CPU's bound is raised to
    /// it, if it is higher, and the parcels that end below are dropped. Whoever wrote the mark has seen to it that
    /// nothing below it is still to come. The kept parcels are shared again, so it takes time in proportion to all of
    /// them: raise bounds by many records at a time.
    pub fn forgotten(&mut self, cpu: CpuId, bound: RecordNo) -> Result<Marked, MarkFault>
        requires { cpu.0 < MAX_CPUS }
        ensures raises { RaisesBound self.old self.new cpu.0 bound.0 result }
        ensures given_up { result ≡ Ok NewMark → self.new.given_up ≡ self.old.given_up }
        ensures fault { IfErr result (λ fault. IsBoundFault self.old cpu.0 bound.0 fault) }
    {
        let _marks = &self.marks;
        if bound.0 <= self.marks(cpu).bound {
            return Ok(Marked::Known);
        }
        self.check_end(cpu, bound.0)?;
        match self.raise_bound(cpu, bound.0) {
            Ok(()) => Ok(Marked::New),
            Err(_) => Err(MarkFault::NoMemory),
        }
    }

    /// Forgets what is below this bound of a CPU, if all numbers from the CPU's bound up to it are accounted for: each
    /// has a record, is missing or was given up. Exactly the bounds up to the watermark are taken; none of those is
    /// above the end.
    pub fn forget(&mut self, cpu: CpuId, bound: RecordNo) -> Result<Marked, MarkFault>
        requires { cpu.0 < MAX_CPUS }
        ensures raises { RaisesBound self.old self.new cpu.0 bound.0 result }
        ensures given_up { result ≡ Ok NewMark → self.new.given_up ≡ self.old.given_up }
        ensures accounted { OnOk result (AllAccounted self.old cpu.0 bound.0) }
        ensures fault { IfErr result (λ fault. IsForgetFault self.old cpu.0 bound.0 fault) }
    {
        let watermark = self.watermark(cpu);
        if watermark.0 < bound.0 {
            return Err(MarkFault::NotFinal(watermark));
        }
        self.forgotten(cpu, bound)
    }

    /// Raises the bound of a CPU of a stream that will bring nothing more: what is unknown below the bound is given up
    /// as undelivered, and then it is as with `forgotten`.
    pub fn give_up(&mut self, cpu: CpuId, bound: RecordNo) -> Result<Marked, MarkFault>
        requires { cpu.0 < MAX_CPUS }
        ensures raises { RaisesBound self.old self.new cpu.0 bound.0 result }
        ensures given_up { result ≡ Ok NewMark → GivesUpBelow self.old self.new.given_up cpu.0 bound.0 }
        ensures fault { IfErr result (λ fault. IsBoundFault self.old cpu.0 bound.0 fault) }
    {
        let _marks = &self.marks;
        if bound.0 <= self.marks(cpu).bound {
            return Ok(Marked::Known);
        }
        self.check_end(cpu, bound.0)?;
        let Ok(given_up) = self.given_up_below(cpu, bound.0) else {
            return Err(MarkFault::NoMemory);
        };
        match self.raise_bound(cpu, bound.0) {
            Ok(()) => {
                self.given_up = given_up;
                Ok(Marked::New)
            }
            Err(_) => Err(MarkFault::NoMemory),
        }
    }

    /// Looks whether a bound is at most the end of its CPU.
    fn check_end(&self, cpu: CpuId, bound: u64) -> Result<(), MarkFault>
        ensures fault { IfErr result (λ fault. IsBoundFault self.now cpu.0 bound fault) }
        ensures within { OnOk result (IsUpToEnd self.now cpu.0 bound) }
    {
        match self.marks(cpu).end {
            Some(end) if end < bound => Err(MarkFault::BeyondEnd(RecordNo(end))),
            _ => Ok(()),
        }
    }

    /// Sets the bound of a CPU, and drops the parcels that end below it.
    fn raise_bound(&mut self, cpu: CpuId, bound: u64) -> Result<(), NoMemory>
        requires within { IsUpToEnd self.old cpu.0 bound }
        requires above { bound_of self.old cpu.0 < bound }
        ensures raised { OnOk result (HasBound self.old self.new cpu.0 bound) }
        ensures given_up { OnOk result (self.new.given_up ≡ self.old.given_up) }
        ensures refused { OnErr result (self.new ≡ self.old) }
    {
        let own = self.marks(cpu);
        let mut marks = self.marks.copied()?;
        marks.set(cpu, Marks { bound, ..own })?;
        let known = without_ended(self.alloc, &self.known, &marks)?;
        self.known = known;
        self.marks = marks;
        Ok(())
    }

    /// What was given up, and the numbers of a CPU from its bound up to this one of which nothing is known.
    fn given_up_below(&self, cpu: CpuId, bound: u64) -> Result<Collector, NoMemory>
        requires cpu { cpu.0 < MAX_CPUS }
        requires above { bound_of self.now cpu.0 ≤ bound }
        ensures none { IfOk result (λ given_up. HaveNoRecord given_up) }
        ensures given_up { IfOk result (λ given_up. GivesUpBelow self.now given_up cpu.0 bound) }
    {
        let mut given_up = self.given_up_copied()?;
        let mut at = self.bound(cpu);
        while let Some((first, end)) = self.known.next_unknown_run(cpu, at, RecordNo(bound)) {
            give_up_run(&mut given_up, self.alloc, cpu, first.0, end.0)?;
            at = end;
        }
        Ok(given_up)
    }

    /// A second collector of what was given up.
    fn given_up_copied(&self) -> Result<Collector, NoMemory>
        ensures { IfOk result (λ copy. IsSame copy self.now.given_up) }
    {
        let mut copy = Collector::new(self.alloc);
        match copy.merge(&self.given_up) {
            Ok(()) => Ok(copy),
            Err(_) => Err(NoMemory),
        }
    }
}
