//! Forgetting what is before a moment.
use crate::dropping::without_ended;
use crate::marks::{CpuMarks, Marks};
use crate::stream::StreamCollector;
use collector::KnownCpus;
use trace_model::{CpuId, Moment, NoMemory, RecordNo};

impl StreamCollector {
    ghost use Rattle.std.specs.Prelude.{◌≡◌, ◌≢◌, ℕ, ◌⊎◌, OnOk, OnErr};
    ghost use Rattle.std.specs.List.{Contains};
    ghost use Rattle.std.specs.List.Sorted.{IsStrictlyIncreasing};
    ghost use Rattle.stream_collector.specs.Marks.{marks_at, AllSaySomething};
    ghost use Rattle.stream_collector.specs.Frontier.{IsCut, IsForgottenBefore, HasCutMarks};

    /// Up to where the records of a CPU, from its bound on, are before a moment: the greatest number up to the
    /// watermark such that all records before it are. It takes a pass over those records.
    pub fn cut(&self, cpu: CpuId, moment: Moment) -> RecordNo
        ensures { IsCut self.now cpu.0 moment.0 result.0 }
    {
        let watermark = self.watermark(cpu);
        for entry in self.records(cpu) {
            if entry.number.0 >= watermark.0 {
                return watermark;
            }
            if entry.moment.0 >= moment.0 {
                return entry.number;
            }
        }
        watermark
    }

    /// Raises the bound of each CPU to its cut at a moment, and drops the parcels that end below the bounds, in one
    /// pass over all of them. If memory is refused, nothing has changed.
    pub fn forget_before(&mut self, moment: Moment) -> Result<(), NoMemory>
        ensures forgotten { OnOk result (IsForgottenBefore self.old self.new moment.0) }
        ensures refused { OnErr result (self.new ≡ self.old) }
    {
        let mut marks = self.marks.copied()?;
        self.put_cuts(&mut marks, self.known_cpus(), moment)?;
        self.put_cuts(&mut marks, self.given_up_cpus(), moment)?;
        let known = without_ended(self.alloc, &self.known, &marks)?;
        self.known = known;
        self.marks = marks;
        Ok(())
    }

    /// Gives each of these CPUs its cut as its bound.
    fn put_cuts(
        &self,
        marks: &mut CpuMarks,
        cpus: KnownCpus<'_>,
        moment: Moment,
    ) -> Result<(), NoMemory>
        requires rising { IsStrictlyIncreasing cpus }
        requires so_far { (cpu : ℕ) → HasCutMarks self.now moment.0 marks.old.cpus.entries cpu
            ⊎ (marks_at marks.old.cpus.entries cpu ≡ marks_at self.now.marks cpu) }
        requires says { AllSaySomething marks.old.cpus.entries }
        ensures says { OnOk result (AllSaySomething marks.new.cpus.entries) }
        ensures so_far { OnOk result ((cpu : ℕ) → HasCutMarks self.now moment.0 marks.new.cpus.entries cpu
            ⊎ (marks_at marks.new.cpus.entries cpu ≡ marks_at self.now.marks cpu)) }
        ensures stay { OnOk result ((cpu : ℕ) → HasCutMarks self.now moment.0 marks.old.cpus.entries cpu
            → HasCutMarks self.now moment.0 marks.new.cpus.entries cpu) }
        ensures all { OnOk result ((cpu : ℕ) → Contains cpus.entry cpu
            → HasCutMarks self.now moment.0 marks.new.cpus.entries cpu) }
    {
        for cpu in cpus {
            self.put_cut(marks, cpu, moment)?;
        }
        Ok(())
    }

    /// Gives a CPU its cut as its bound.
    fn put_cut(&self, marks: &mut CpuMarks, cpu: CpuId, moment: Moment) -> Result<(), NoMemory>
        requires so_far { HasCutMarks self.now moment.0 marks.old.cpus.entries cpu.0
            ⊎ (marks_at marks.old.cpus.entries cpu.0 ≡ marks_at self.now.marks cpu.0) }
        requires says { AllSaySomething marks.old.cpus.entries }
        ensures says { OnOk result (AllSaySomething marks.new.cpus.entries) }
        ensures here { OnOk result (HasCutMarks self.now moment.0 marks.new.cpus.entries cpu.0) }
        ensures others { OnOk result ((other : ℕ) → other ≢ cpu.0
            → marks_at marks.new.cpus.entries other ≡ marks_at marks.old.cpus.entries other) }
    {
        let own = self.marks(cpu);
        let cut = self.cut(cpu, moment);
        if cut.0 <= own.bound {
            return Ok(());
        }
        marks.set(
            cpu,
            Marks {
                bound: cut.0,
                ..own
            },
        )
    }
}
