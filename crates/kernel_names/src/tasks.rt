//! The names of processes, by the kernel's list of them: a line `PID NAME` for each.
ghost use Rattle.std.specs.Prelude.{◌≡◌};
ghost use Rattle.std.specs.Option.{option_map};
ghost use Rattle.kernel_names.specs.Tasks.{pid_in, task_in};

use event_fields::texts::{cut_at, part_cut};
use std::alloc::{AllocError, Global};
use std::collections::BTreeMap;
use trace_dat::kernel_texts::number_of;
use trace_model::NoMemory;

/// The number of a process that a text spells in decimal, if it is below 2^31.
#[tactic(auto, unfolding(crate::specs::Tasks::pid_in))]
fn pid_of(text: &[u8]) -> Option<u32>
    ensures { result ≡ pid_in text.now }
{
    let number = number_of(text)?;
    if number >= 2_147_483_648 {
        return None;
    }
    Some(number as u32)
}

/// The process and the name of a line.
#[tactic(auto, unfolding(crate::specs::Tasks::task_in))]
fn task_of(line: &[u8]) -> Option<(u32, &[u8])>
    ensures { option_map (λ task. (task.0, task.1.now)) result ≡ task_in line.now }
{
    let (digits, name) = cut_at(line, b' ')?;
    let pid = pid_of(digits)?;
    Some((pid, name))
}

/// The names of processes, as the kernel lists them (`saved_cmdlines` of its tracing folder): a line `PID NAME` for
/// each. Of several lines of one process the last counts.
#[derive(Debug, Drop)]
pub struct TaskNames {
    alloc: Global,
    names: BTreeMap<u32, Vec<u8>>,
}

impl TaskNames {
    ghost use Rattle.std.specs.Prelude.{◌≡◌, ℕ, ◌++◌, List, [], OnOk, OnErr};
    ghost use Rattle.std.specs.Option.{option_map, option_or};
    ghost use Rattle.event_fields.specs.Texts.{parts_of};
    ghost use Rattle.kernel_names.specs.Tasks.{task_in, name_under, name_known, known_name, HasTasks, HasTasksOfSome};

    /// No name.
    pub fn new(alloc: Global) -> TaskNames
        ensures { HasTasks result [] }
    {
        TaskNames {
            alloc,
            names: BTreeMap::new(alloc),
        }
    }

    /// Adds the names of a text's lines, in place of earlier ones of the same processes. A line that isn't a number
    /// below 2^31 in decimal, a space and a name, which may be empty, is passed over: the kernel's list may be cut. On
    /// an error the first lines are added, of none up to all but one.
    pub fn add(&mut self, text: &[u8]) -> Result<(), NoMemory>
        ensures added { (known : List (List ℕ)) → HasTasks self.old known
            → OnOk result (HasTasks self.new (known ++ parts_of 10 text.now)) }
        ensures refused { (known : List (List ℕ)) → HasTasks self.old known
            → OnErr result (HasTasksOfSome self.new known (parts_of 10 text.now)) }
    {
        let mut left = text;
        loop {
            let (line, rest) = part_cut(left, b'\n');
            self.add_line(line)?;
            let Some(rest) = rest else {
                return Ok(());
            };
            left = rest;
        }
    }

    /// Adds the name of a line, if it has one, in place of one of its process.
    fn add_line(&mut self, line: &[u8]) -> Result<(), AllocError>
        ensures added { OnOk result ((pid : ℕ) → known_name self.new pid
            ≡ option_or (name_under pid (task_in line.now)) (known_name self.old pid)) }
        ensures refused { OnErr result ((pid : ℕ) → known_name self.new pid ≡ known_name self.old pid) }
    {
        let Some((pid, name)) = task_of(line) else {
            return Ok(());
        };
        let name = name.to_vec(self.alloc)?;
        self.names.insert(pid, name)?;
        Ok(())
    }

    /// The name of a process; None if no line has one.
    pub fn name_of(&self, pid: i32) -> Option<&[u8]>
        ensures { option_map (λ name. name.now) result ≡ name_known self.now pid }
    {
        let pid = u32::try_from(pid).ok()?;
        self.names.get(&pid).map(Vec::as_slice)
    }
}
