//! Which lines of a script are those of a CPU's writer.
ghost use Rattle.std.specs.Prelude.{◌≡◌, ℕ, List, [], vec_len, Some, IfOk, All};
ghost use Rattle.std.specs.List.{slice_get};
ghost use Rattle.trace_script.specs.ScriptTypes.{shown_command};
ghost use Rattle.trace_run.specs.writers.Obeying.{AreLinesOf};
ghost use Rattle.trace_run.specs.writers.LineIndexes.{IsWriterOf};

use crate::writers::line_indexes::LineIndexes;
use std::alloc::Global;
use trace_model::{CpuId, NoMemory};
use trace_script::{Command, Script};

/// The CPU whose writer the line is of, if it is a writer's.
fn writer_of(command: Command) -> Option<CpuId>
    ensures { IsWriterOf (shown_command command.entry) result }
{
    match command {
        Command::Begin { cpu, .. } => Some(cpu),
        Command::Step { cpu, .. } => Some(cpu),
        Command::Finish { cpu } => Some(cpu),
        Command::Write { cpu, .. } => Some(cpu),
        Command::Close { cpu } => Some(cpu),
        Command::StepReader { .. } => None,
        Command::Take { .. } => None,
        Command::Wish { .. } => None,
        Command::Deliver { .. } => None,
    }
}

/// Makes `count` lists without indexes.
fn new_lists(alloc: Global, count: usize) -> Result<Vec<LineIndexes>, NoMemory>
    ensures count { IfOk result (λ lists. vec_len lists ≡ count) }
    ensures new { IfOk result (λ lists. All (λ indexes. indexes ≡ []) lists.items) }
{
    let mut lists = Vec::new(alloc);
    while lists.len() < count {
        lists.push(LineIndexes::new(alloc))?;
    }
    Ok(lists)
}

/// For each CPU the indexes of its writer's lines among the script's commands, in order.
pub fn lines_by_cpu(alloc: Global, script: &Script) -> Result<Vec<LineIndexes>, NoMemory>
    ensures count { IfOk result (λ lists. vec_len lists ≡ script.now.cpus) }
    ensures lines { IfOk result (λ lists. (cpu : ℕ) (indexes : List ℕ)
        → slice_get lists.items cpu ≡ Some indexes → AreLinesOf cpu script.now.commands indexes) }
{
    let mut lists = new_lists(alloc, script.cpus() as usize)?;
    let commands = script.commands();
    for line_index in 0..commands.len() {
        if let Some(cpu) = writer_of(commands.line(line_index).command) {
            lists[cpu.0 as usize].push(line_index)?;
        }
    }
    Ok(lists)
}
