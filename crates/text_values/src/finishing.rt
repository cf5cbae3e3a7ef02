//! The end of a text that is put piece by piece.
ghost use Rattle.std.specs.Prelude.{◌++◌, ℕ, List};
ghost use Rattle.command_io.specs.Written.{IsTextWritten};
ghost use Rattle.command_io.specs.declared.command.TheConstants.{MEMORY_LINE as memory_line};
ghost use Rattle.text_values.specs.Putting.{Start, contents_of, has_failed, HasPut, KeepsWriter};

use crate::output::Out;
use command_io::{MEMORY_LINE, Sink};

/// Writes what still waits. The answer is `wanted`, or `not_written` if a write failed.
pub fn finish<W: Sink, E: Copy>(out: &mut Out<'_, W>, wanted: E, not_written: E) -> E
    ensures writer { KeepsWriter out.old out.new }
    ensures written { (start : Start) (text : List ℕ) → HasPut start text out.old
        → IsTextWritten not_written start.contents (contents_of out.new) (has_failed out.new) text
        wanted result }
{
    match out.finish() {
        Ok(()) => wanted,
        Err(_) => not_written,
    }
}

/// Reports that memory was refused, after what was put. The answer is `no_memory`, or `not_written` if a write failed.
pub fn finish_memory<W: Sink, E: Copy>(out: &mut Out<'_, W>, no_memory: E, not_written: E) -> E
    ensures writer { KeepsWriter out.old out.new }
    ensures written { (start : Start) (text : List ℕ) → HasPut start text out.old
        → IsTextWritten not_written start.contents (contents_of out.new) (has_failed out.new)
        (text ++ memory_line) no_memory result }
{
    out.put(&MEMORY_LINE);
    finish(out, no_memory, not_written)
}
