//! The bound and the end of each CPU.
use std::alloc::Global;
use std::collections::BTreeMap;
use std::collections::btree_map::Keys;
use trace_model::{CpuId, NoMemory};

/// The bound of a CPU, and its end if that is known.
#[derive(Clone, Copy, PartialEq, Eq)]
pub(crate) struct Marks {
    /// What is below is kept no longer; 0 if nothing was forgotten.
    pub(crate) bound: u64,
    /// How many records the CPU has.
    pub(crate) end: Option<u64>,
}

/// The marks of the CPUs that have any.
#[derive(Drop)]
pub(crate) struct CpuMarks {
    cpus: BTreeMap<u32, Marks>,
}

impl CpuMarks {
    ghost use Rattle.std.specs.Prelude.{◌≡◌, ◌≢◌, ◌↔◌, ℕ, [], IsSome, IfOk, OnOk, OnErr};
    ghost use Rattle.std.specs.List.{Contains};
    ghost use Rattle.std.specs.List.Sorted.{IsStrictlyIncreasing};
    ghost use Rattle.std.specs.Ordering.{nat_cmp};
    ghost use Rattle.std.specs.BTreeMap.{is_at};
    ghost use Rattle.std.specs.Map.{lookup};
    ghost use Rattle.stream_collector.specs.Marks.{marks_at, SaySomething, AllSaySomething};

    /// No CPU has marks.
    pub(crate) fn new(alloc: Global) -> CpuMarks
        ensures { result.cpus.entries ≡ [] }
    {
        CpuMarks {
            cpus: BTreeMap::new(alloc),
        }
    }

    /// A copy of the marks.
    pub(crate) fn copied(&self) -> Result<CpuMarks, NoMemory>
        ensures { IfOk result (λ copy. copy.cpus.entries ≡ self.now.cpus.entries) }
    {
        Ok(CpuMarks {
            cpus: self.cpus.clone()?,
        })
    }

    /// The marks of a CPU.
    pub(crate) fn of(&self, cpu: CpuId) -> Marks
        ensures { result ≡ marks_at self.now.cpus.entries cpu.0 }
    {
        match self.cpus.get(&cpu.0) {
            Some(marks) => *marks,
            None => Marks {
                bound: 0,
                end: None,
            },
        }
    }

    /// The CPUs that have any, rising.
    pub(crate) fn cpus(&self) -> Keys<'_, u32, Marks>
        ensures rising { IsStrictlyIncreasing result }
        ensures there { (cpu : ℕ)
            → (Contains result cpu ↔ IsSome (lookup (is_at (nat_cmp cpu)) self.now.cpus.entries)) }
    {
        self.cpus.keys()
    }

    /// Gives a CPU these marks, which say something, in place of its own.
    pub(crate) fn set(&mut self, cpu: CpuId, marks: Marks) -> Result<(), NoMemory>
        requires { SaySomething marks }
        ensures here { OnOk result (marks_at self.new.cpus.entries cpu.0 ≡ marks) }
        ensures others { OnOk result ((other : ℕ) → other ≢ cpu.0
            → marks_at self.new.cpus.entries other ≡ marks_at self.old.cpus.entries other) }
        ensures says { OnOk result (AllSaySomething self.old.cpus.entries → AllSaySomething self.new.cpus.entries) }
        ensures refused { OnErr result (self.new.cpus.entries ≡ self.old.cpus.entries) }
    {
        self.cpus.insert(cpu.0, marks)?;
        Ok(())
    }
}
