//! The kernel's lists of names, which a file of trace-cmd may have.
ghost use Rattle.std.specs.Prelude.{◌≡◌, ◌++◌, List, ℕ, map, OnOk, if◌then◌else◌};
ghost use Rattle.kernel_names.specs.Tasks.{HasTasks};
ghost use Rattle.kernel_names.specs.SymbolNames.{HasSymbols};
ghost use Rattle.capture.specs.files.Files.{lines_of};

use kernel_names::{SymbolNames, TaskNames};
use trace_model::NoMemory;

/// Adds the names of processes of lists, one after the other.
fn add_lists_of_tasks(tasks: &mut TaskNames, texts: &[&[u8]]) -> Result<(), NoMemory>
    ensures { (known : List (List ℕ)) → HasTasks tasks.old known
        → OnOk result (HasTasks tasks.new (known ++ lines_of (map (λ text. text.now) texts.now))) }
{
    for text in texts {
        tasks.add(text)?;
    }
    Ok(())
}

/// Adds the names of processes of lists, if they are wanted.
pub(crate) fn add_tasks(
    tasks: &mut TaskNames,
    is_wanted: bool,
    texts: &[&[u8]],
) -> Result<(), NoMemory>
    ensures { (known : List (List ℕ)) → HasTasks tasks.old known → OnOk result (HasTasks tasks.new
        (if is_wanted then known ++ lines_of (map (λ text. text.now) texts.now) else known)) }
{
    if is_wanted {
        add_lists_of_tasks(tasks, texts)
    } else {
        Ok(())
    }
}

/// Adds the functions of lists of symbols, one after the other.
fn add_lists_of_symbols(symbols: &mut SymbolNames, texts: &[&[u8]]) -> Result<(), NoMemory>
    ensures { (known : List (List ℕ)) → HasSymbols symbols.old known
        → OnOk result (HasSymbols symbols.new (known ++ lines_of (map (λ text. text.now) texts.now))) }
{
    for text in texts {
        symbols.add(text)?;
    }
    Ok(())
}

/// Adds the functions of lists of symbols, if they are wanted.
pub(crate) fn add_symbols(
    symbols: &mut SymbolNames,
    is_wanted: bool,
    texts: &[&[u8]],
) -> Result<(), NoMemory>
    ensures { (known : List (List ℕ)) → HasSymbols symbols.old known → OnOk result (HasSymbols symbols.new
        (if is_wanted then known ++ lines_of (map (λ text. text.now) texts.now) else known)) }
{
    if is_wanted {
        add_lists_of_symbols(symbols, texts)
    } else {
        Ok(())
    }
}
