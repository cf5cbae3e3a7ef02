//! Merging two streams.
ghost use Rattle.std.specs.Prelude.{◌≡◌, ℕ, ◌<◌, ◌++◌, IsTrue, Some, IfSome, IfNone, IfOk, IfErr, OnOk};
ghost use Rattle.trace_model.specs.Collection.{Agree, IsSame};
ghost use Rattle.stream_collector.specs.Merging.{joined_marks, IsJoinFault};

use crate::dropping::without_ended;
use crate::fault::MergeFault;
use crate::marks::{CpuMarks, Marks};
use crate::stream::StreamCollector;
use collector::Collector;
use std::alloc::Global;
use trace_model::{NoMemory, RecordNo};

/// The higher bound, and the end that either has.
fn joined_marks(own: Marks, other: Marks) -> Marks
    ensures { result ≡ joined_marks own other }
{
    Marks {
        bound: own.bound.max(other.bound),
        end: own.end.or(other.end),
    }
}

/// The ends of a CPU, if they differ.
fn two_ends(own: Option<u64>, other: Option<u64>) -> Option<(u64, u64)>
    ensures own { IfSome result (λ ends. own ≡ Some ends.0) }
    ensures other { IfSome result (λ ends. other ≡ Some ends.1) }
    ensures differ { IfSome result (λ ends. ends.0 ≡ ends.1 → ⊥) }
    ensures none { IfNone result ((a b : ℕ) → own ≡ Some a → other ≡ Some b → a ≡ b) }
{
    match (own, other) {
        (Some(end), Some(others)) if end != others => Some((end, others)),
        _ => None,
    }
}

/// Whether there is an end, and numbers reach beyond it.
fn is_past(end: Option<u64>, reach: u64) -> bool
    ensures past { IsTrue result → (e : ℕ) × (end ≡ Some e) × (e < reach) }
    ensures within { (e : ℕ) → end ≡ Some e → e < reach → IsTrue result }
{
    match end {
        Some(end) => end < reach,
        None => false,
    }
}

/// A collector of what two collectors have and miss. Both keep their parcels, which it shares.
fn joined(
    alloc: Global,
    own: &Collector,
    other: &Collector,
) -> Result<Collector, collector::AddFault>
    ensures same { IfOk result (λ joined. IsSame joined (own.now ++ other.now)) }
    ensures agree { OnOk result (Agree (own.now ++ other.now)) }
    ensures fault { IfErr result (λ fault. IsJoinFault (own.now ++ other.now) fault) }
{
    let _parcels = own.parcels();
    let mut joined = Collector::new(alloc);
    joined.merge(own)?;
    joined.merge(other)?;
    Ok(joined)
}

impl StreamCollector {
    ghost use Rattle.std.specs.Prelude.{OnErr};
    ghost use Rattle.collector.specs.Known.{IsSameFrom};
    ghost use Rattle.trace_model.specs.Collection.{IsBelow};
    ghost use Rattle.stream_collector.specs.Marks.{marks_at, bounds_of, AllSaySomething};
    ghost use Rattle.stream_collector.specs.Stream.{HaveNoRecord};
    ghost use Rattle.stream_collector.specs.Merging.{IsMerge, FitTogether, HaveOneEnd, IsWithinEndsOf, IsMergeFault};
    ghost use Rattle.stream_collector.specs.Merging.{IsEndsFault, IsReachFault, IsPartFault};

    /// Adds all that another stream knows: each CPU has then the higher of both bounds and the end that either has, all
    /// is given up that either gave up, and from the new bounds on the records and missing numbers are those of both.
    /// Parcels are shared, and those that end below the new bounds are dropped. If the two are at odds, nothing has
    /// changed: ends come before kept parcels. It takes time in proportion to all that both keep.
    pub fn merge(&mut self, other: &StreamCollector) -> Result<(), MergeFault>
        ensures merged { OnOk result (IsMerge self.old other.now self.new) }
        ensures fit { OnOk result (FitTogether self.old other.now) }
        ensures fault { IfErr result (λ fault. IsMergeFault self.old other.now fault) }
        ensures refused { OnErr result (self.new ≡ self.old) }
    {
        *self = self.merged(other)?;
        Ok(())
    }

    /// What both know together: what `merge` makes of this stream.
    pub fn merged(&self, other: &StreamCollector) -> Result<StreamCollector, MergeFault>
        ensures merged { IfOk result (λ both. IsMerge self.now other.now both) }
        ensures fit { OnOk result (FitTogether self.now other.now) }
        ensures fault { IfErr result (λ fault. IsMergeFault self.now other.now fault) }
    {
        let _own = &self.marks;
        let _others = &other.marks;
        self.check_one_end(other)?;
        self.check_reach(other)?;
        other.check_reach(self)?;
        let marks = self.marks_with(other)?;
        let known = self.parcels_with(other, &marks)?;
        let given_up = self.given_up_with(other)?;
        Ok(StreamCollector {
            known,
            given_up,
            marks,
            alloc: self.alloc,
        })
    }

    /// Looks whether a CPU has two ends.
    fn check_one_end(&self, other: &StreamCollector) -> Result<(), MergeFault>
        ensures one { OnOk result (HaveOneEnd self.now other.now) }
        ensures fault { IfErr result (λ fault. IsEndsFault self.now other.now fault) }
    {
        for cpu in self.marked_cpus() {
            if let Some((end, others)) = two_ends(self.marks(cpu).end, other.marks(cpu).end) {
                return Err(MergeFault::OtherEnd(cpu, RecordNo(end), RecordNo(others)));
            }
        }
        Ok(())
    }

    /// Looks whether a number of the other stream that isn't open is at or beyond an end of this one.
    fn check_reach(&self, other: &StreamCollector) -> Result<(), MergeFault>
        ensures within { OnOk result (IsWithinEndsOf self.now other.now) }
        ensures fault { IfErr result (λ fault. IsReachFault self.now other.now fault) }
    {
        for cpu in self.marked_cpus() {
            let reach = other.reach(cpu);
            if is_past(self.marks(cpu).end, reach) {
                return Err(MergeFault::BeyondEnd(cpu, RecordNo(reach - 1)));
            }
        }
        Ok(())
    }

    /// The higher bound and the end of each CPU.
    fn marks_with(&self, other: &StreamCollector) -> Result<CpuMarks, NoMemory>
        ensures joined { IfOk result (λ marks. (cpu : ℕ) → marks_at marks.cpus.entries cpu
            ≡ joined_marks (marks_at self.now.marks cpu) (marks_at other.now.marks cpu)) }
        ensures says { IfOk result (λ marks. AllSaySomething marks.cpus.entries) }
    {
        let mut marks = self.marks.copied()?;
        for cpu in other.marked_cpus() {
            marks.set(cpu, joined_marks(self.marks(cpu), other.marks(cpu)))?;
        }
        Ok(marks)
    }

    /// The kept parcels of both that don't end below these bounds, as far as they add something.
    fn parcels_with(
        &self,
        other: &StreamCollector,
        marks: &CpuMarks,
    ) -> Result<Collector, MergeFault>
        ensures kept { IfOk result (λ kept. IsSameFrom (bounds_of marks.now.cpus.entries)
            (self.now.parcels ++ other.now.parcels) kept) }
        ensures nothing_else { IfOk result (λ kept. IsBelow kept (self.now.parcels ++ other.now.parcels)) }
        ensures agree { OnOk result (Agree (self.now.parcels ++ other.now.parcels)) }
        ensures fault { IfErr result (λ fault. IsPartFault (self.now.parcels ++ other.now.parcels) fault) }
    {
        match joined(self.alloc, &self.known, &other.known) {
            Ok(all) => Ok(without_ended(self.alloc, &all, marks)?),
            Err(collector::AddFault::Clash(cpu, number)) => Err(MergeFault::Clash(cpu, number)),
            Err(collector::AddFault::TakenAndMissing(cpu, number)) => {
                Err(MergeFault::TakenAndMissing(cpu, number))
            }
            Err(collector::AddFault::NoMemory) => Err(MergeFault::NoMemory),
        }
    }

    /// What either gave up.
    fn given_up_with(&self, other: &StreamCollector) -> Result<Collector, NoMemory>
        ensures none { IfOk result (λ given_up. HaveNoRecord given_up) }
        ensures same { IfOk result (λ given_up. IsSame given_up (self.now.given_up ++ other.now.given_up)) }
    {
        match joined(self.alloc, &self.given_up, &other.given_up) {
            Ok(given_up) => Ok(given_up),
            Err(_) => Err(NoMemory),
        }
    }
}
