//! The commands of a script as they are kept: 16 bytes a command, while its numbers are small.

use crate::kept::{Narrow, Wide, narrowed, widened};
use std::alloc::Global;
use std::marker::Model;
use trace_model::NoMemory;

/// The commands of a script, in the order of their lines. All are narrow ones in a text of less than 2^32 bytes that
/// has fewer than 65,530 lines without a command.
#[derive(Drop)]
pub(crate) struct KeptLines {
    narrow: Vec<Narrow>,
    /// The first command whose numbers don't fit a narrow one, and all after it.
    wide: Vec<Wide>,
}

impl Model for KeptLines {
    ghost use Rattle.std.specs.Prelude.{ℕ, List, ◌++◌};
    ghost use Rattle.trace_script.specs.declared.kept.KeptLine.{KeptLine as KeptLineSeen};

    ghost Value = { List (KeptLineSeen ℕ ℕ) };

    ghost view = { λ lines. lines.narrow.items ++ lines.wide.items };
}

impl KeptLines {
    ghost use Rattle.std.specs.Prelude.{◌≡◌, ◌<◌, [], ◌∷◌, ◌++◌, Some, length, slice_get, OnOk, OnErr};
    ghost use Rattle.trace_script.specs.Kept.{start_of};

    /// No command.
    pub(crate) fn new(alloc: Global) -> KeptLines
        ensures { result ≡ [] }
    {
        KeptLines {
            narrow: Vec::new(alloc),
            wide: Vec::new(alloc),
        }
    }

    /// Appends a command.
    #[inline(always)]
    pub(crate) fn push(&mut self, line: Wide) -> Result<(), NoMemory>
        ensures pushed { OnOk result (self.new ≡ self.old ++ line ∷ []) }
        ensures refused { OnErr result (self.new ≡ self.old) }
    {
        if self.wide.is_empty() {
            if let Some(narrow) = narrowed(line) {
                self.narrow.push(narrow)?;
                return Ok(());
            }
        }
        self.wide.push(line)?;
        Ok(())
    }

    /// How many there are.
    pub(crate) fn len(&self) -> usize
        ensures { result ≡ length self.now }
    {
        self.narrow.len() + self.wide.len()
    }

    /// The command at this index.
    pub(crate) fn line(&self, index: usize) -> Wide
        requires { index < length self.now }
        ensures { slice_get self.now index ≡ Some result }
    {
        if index < self.narrow.len() {
            return widened(self.narrow[index]);
        }
        self.wide[index - self.narrow.len()]
    }

    /// The offset of the first byte of the command at this index, at which the bytes of the one before end.
    pub(crate) fn start(&self, index: usize) -> usize
        requires { index < length self.now }
        ensures { result ≡ start_of 0 self.now index }
    {
        if index == 0 {
            return 0;
        }
        self.line(index - 1).end
    }
}
