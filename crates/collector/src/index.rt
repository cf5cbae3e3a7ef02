//! The numbers of each CPU of which something is known.
ghost use Rattle.std.specs.Prelude.{◌≢◌, ℕ, ◌-◌, ◌<◌, ◌≤◌, ◌↔◌, IsTrue, IfSome, IfNone, IfOk, OnOk, OnErr};
ghost use Rattle.std.specs.List.{Contains};
ghost use Rattle.std.specs.List.Sorted.{IsStrictlyIncreasing};
ghost use Rattle.collector.specs.Ranges.{IsLaid};
ghost use Rattle.collector.specs.Index.{ReportsOf, HasCpu, AreAllApart, AreAllStated, ReportSameOf, IsIndexCopy};
ghost use Rattle.collector.specs.declared.ranges.Content.{Content};

use crate::ranges::{Content, Ranges, Stretch};
use std::alloc::Global;
use std::collections::BTreeMap;
use std::collections::btree_map::Keys;
use trace_model::{CpuId, NoMemory};

/// The ranges of each CPU of which something is known, by the CPU's number.
#[derive(Drop)]
pub(crate) struct Index {
    cpus: BTreeMap<u32, Ranges>,
    alloc: Global,
}

impl Index {
    /// Nothing is known of any number.
    pub(crate) fn new(alloc: Global) -> Index
        ensures apart { AreAllApart result }
        ensures stated { AreAllStated result }
        ensures unreported { (cpu number : ℕ) (content : Content) → ReportsOf result cpu number content → ⊥ }
    {
        Index {
            cpus: BTreeMap::new(alloc),
            alloc,
        }
    }

    /// A copy of the index.
    pub(crate) fn copied(&self) -> Result<Index, NoMemory>
        ensures { IfOk result (λ copy. IsIndexCopy self.now copy) }
    {
        Ok(Index {
            cpus: self.cpus.clone()?,
            alloc: self.alloc,
        })
    }

    /// What is known of a number of a CPU, and of those after it.
    pub(crate) fn stretch(&self, cpu: CpuId, number: u64) -> Stretch
        requires { AreAllApart self.now }
        ensures reported { IfSome result.content (λ content. (n : ℕ) → number ≤ n → n < result.end
            → ReportsOf self.now cpu.0 n content) }
        ensures unreported { IfNone result.content ((n : ℕ) (content : Content) → number ≤ n → n < result.end
            → ReportsOf self.now cpu.0 n content → ⊥) }
        ensures here { IfSome result.content (λ content. ReportsOf self.now cpu.0 number content) }
        ensures unreported_here { IfNone result.content ((content : Content)
            → ReportsOf self.now cpu.0 number content → ⊥) }
        ensures goes_on { number < u64.MAX → number < result.end }
    {
        match self.cpus.get(&cpu.0) {
            Some(ranges) => ranges.stretch(number),
            None => Stretch {
                end: u64::MAX,
                content: None,
            },
        }
    }

    /// The numbers of the CPUs of which something is stated, rising.
    pub(crate) fn cpus(&self) -> Keys<'_, u32, Ranges>
        ensures rising { IsStrictlyIncreasing result }
        ensures there { (cpu : ℕ) → (Contains result cpu ↔ HasCpu self.now cpu) }
    {
        self.cpus.keys()
    }

    /// Whether something is stated of a CPU.
    pub(crate) fn has(&self, cpu: CpuId) -> bool
        ensures { IsTrue result ↔ HasCpu self.now cpu.0 }
    {
        self.cpus.contains_key(&cpu.0)
    }

    /// The number after the last one of a CPU of which something is stated, or 0 if there is none.
    pub(crate) fn end(&self, cpu: CpuId) -> u64
        requires { AreAllApart self.now }
        ensures behind { (n : ℕ) (content : Content) → result ≤ n → ReportsOf self.now cpu.0 n content → ⊥ }
        ensures last { 0 < result → (content : Content) × ReportsOf self.now cpu.0 (result - 1) content }
    {
        match self.cpus.get(&cpu.0) {
            Some(ranges) => ranges.end(),
            None => 0,
        }
    }

    /// States of a CPU's numbers that those from `low` up to `first` are missing, and that those from there up to `end`
    /// are in the kept parcel at this index, whatever was stated of them before. There is such a number.
    pub(crate) fn lay(
        &mut self,
        cpu: CpuId,
        low: u64,
        first: u64,
        end: u64,
        parcel: usize,
    ) -> Result<(), NoMemory>
        requires apart { AreAllApart self.old }
        requires stated { AreAllStated self.old }
        requires low { low ≤ first }
        requires forward { first ≤ end }
        requires some { low < end }
        ensures apart { AreAllApart self.new }
        ensures stated { AreAllStated self.new }
        ensures laid { OnOk result (IsLaid (ReportsOf self.old cpu.0) (ReportsOf self.new cpu.0) low first end parcel) }
        ensures others { (other : ℕ) → other ≢ cpu.0 → ReportSameOf self.old self.new other }
        ensures refused { OnErr result ((cpu : ℕ) → ReportSameOf self.old self.new cpu) }
    {
        match self.cpus.get_mut(&cpu.0) {
            Some(ranges) => ranges.lay(low, first, end, parcel),
            None => {
                let mut ranges = Ranges::new(self.alloc);
                ranges.lay(low, first, end, parcel)?;
                self.cpus.insert(cpu.0, ranges)?;
                Ok(())
            }
        }
    }
}
