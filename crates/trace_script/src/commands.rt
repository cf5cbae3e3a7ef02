//! The commands of a script, as they are kept, and the payloads one after the other.

use crate::command::ScriptLine;
use crate::kept_lines::KeptLines;
use crate::lent::lent;
use std::fmt;
use std::marker::Model;

/// The commands of a script, in the order of their lines.
#[derive(Drop)]
pub struct Commands {
    lines: KeptLines,
    payloads: Vec<u8>,
}

impl Model for Commands {
    ghost use Rattle.std.specs.Prelude.{ℕ, List, length};
    ghost use Rattle.text_model.specs.Script.{Command as CommandSeen};
    ghost use Rattle.trace_script.specs.Kept.{commands_kept, AreKept};

    ghost Value = { List (ℕ × CommandSeen) };

    ghost view = { λ c. commands_kept c.payloads.items 0 0 c.lines };

    ghost invariant = { λ c. AreKept 0 0 (length c.payloads.items) c.lines };
}

impl Commands {
    ghost use Rattle.std.specs.Prelude.{◌≡◌, ◌<◌, ◌==◌, length, slice_get};
    ghost use Rattle.trace_script.specs.Kept.{commands_kept, AreKept};
    ghost use Rattle.trace_script.specs.ScriptTypes.{shown_line};

    /// The commands of these lines, whose payloads are these bytes.
    pub(crate) fn of(lines: KeptLines, payloads: Vec<u8>) -> Commands
        requires { AreKept 0 0 (length payloads.items) lines }
        ensures { result ≡ commands_kept payloads.items 0 0 lines }
    {
        Commands { lines, payloads }
    }

    /// How many there are.
    pub fn len(&self) -> usize
        ensures { result ≡ length self.now }
    {
        self.lines.len()
    }

    /// Whether there is none.
    pub fn is_empty(&self) -> bool
        ensures { result ≡ (length self.now == 0) }
    {
        self.len() == 0
    }

    /// The command at this index, with the number of its line. It is inlined where its kind is matched.
    #[inline(always)]
    pub fn line(&self, index: usize) -> ScriptLine<'_>
        requires { index < length self.now }
        ensures { slice_get self.now index ≡ Some (shown_line result) }
    {
        let line = self.lines.line(index);
        ScriptLine {
            number: index as u64 + line.above,
            command: lent(&self.payloads, &self.lines, index, line),
        }
    }
}

/// How many there are: their texts are long.
impl fmt::Debug for Commands {
    fn fmt<W: fmt::Write>(&self, f: &mut fmt::Formatter<W>) -> fmt::Result {
        f.debug_struct("Commands")
            .field("len", &self.len())
            .finish_non_exhaustive()
    }
}
