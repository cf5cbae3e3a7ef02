//! The memory of a run, and the line for refused memory.
ghost use Rattle.std.specs.Prelude.{◌≡◌, false};
ghost use Rattle.collect_command.specs.Runs.{IsMemoryLine};

use crate::ending::Ending;
use command_io::{MEMORY_LINE, Sink, write_text};
use std::alloc::Global;
use text_values::TextBuffer;
use trace_model::NoMemory;

/// The buffer of new pieces, and that of what is printed.
pub(crate) fn new_buffers(alloc: Global) -> Result<(TextBuffer, TextBuffer), NoMemory> {
    let kept = TextBuffer::new(alloc)?;
    let buffer = TextBuffer::new(alloc)?;
    Ok((kept, buffer))
}

/// Reports that memory was refused.
pub(crate) fn tell_memory<W: Sink>(writer: &mut W) -> Ending
    requires { W.failed writer.old ≡ false }
    ensures { IsMemoryLine (W.contents writer.old) (W.contents writer.new) (W.failed writer.new) result }
{
    write_text(writer, &MEMORY_LINE, Ending::NoMemory, Ending::NotWritten)
}
