//! What every command does with its two ends: it reads all of its source, makes its output of that text as a whole, and
//! writes it to the sink. Nothing is written before the output is complete.
ghost use Rattle.std.specs.Prelude.{◌≡◌, ℕ, ◌+◌, ◌<◌, ◌≤◌, ◌↔◌, ⊤, false, true, List, Err, IfOk};
ghost use Rattle.std.specs.Io.KnownBytes.{Appends};
ghost use Rattle.command_io.specs.CommandRun.{AppendsPrefix, IsCommandRun, IsOutput, OnlyMemoryLine, TakesAtMost};
ghost use Rattle.command_io.specs.CommandRun.{TakesMoreThan, source_run, sink_run};
ghost use Rattle.command_io.specs.Output.{bytes_of, status_of};

use crate::ends::{Sink, Source};
use crate::input::{InputFault, READ_CHUNK, read_all};
use crate::output::{Output, write_all};
use crate::status::{END_FAILED, NO_MEMORY};
use std::alloc::Global;
use trace_model::{MAX_INPUT, NoMemory};

/// The only line of a command that ran out of memory.
pub const MEMORY_LINE: [u8; 7] = *b"memory\n";

/// A command of the program, by what it prints for the whole text that it read.
pub trait Subcommand {
    // Whether these bytes with this exit status may be the output for a text.
    ghost gives: { Self → (text bytes : List ℕ) (status : ℕ) → Type 0 };
    // What has to hold of it before, as that threads may share what it holds.
    ghost ready: { Self → Type 0 } = { λ _. ⊤ };

    /// The output for a text. The call owns the text, so that its memory can be given back before the output is made.
    fn output(&self, alloc: Global, text: Vec<u8>) -> Result<Output, NoMemory>
        requires { ready self.now }
        ensures { IfOk result (λ output. gives self.now text.items (bytes_of output) (status_of output)) };
}

// The output for all that the reader gives.
fn output_for<C: Subcommand, R: Source>(
    command: &C,
    alloc: Global,
    reader: &mut R,
) -> Result<Output, InputFault>
    requires ready { C.ready command.now }
    requires sound { R.failed reader.old ≡ false }
    ensures output { IfOk result (λ output.
        IsOutput (C.gives command.now) (R.remaining reader.old) (R.remaining reader.new)
        (bytes_of output) (status_of output)) }
    ensures read_fault { (R.failed reader.new ≡ true) ↔ (result ≡ Err InputFault.Read) }
    ensures too_long { result ≡ Err InputFault.TooLong
        → TakesMoreThan MAX_INPUT (R.remaining reader.old) (R.remaining reader.new) (R.count reader.new) }
    ensures counted { R.count reader.old ≡ 0 → MAX_INPUT < R.count reader.new → result ≡ Err InputFault.TooLong }
    ensures no_memory { result ≡ Err InputFault.NoMemory
        → TakesAtMost MAX_INPUT (R.remaining reader.old) (R.remaining reader.new) }
    ensures bounded { R.count reader.new ≤ R.count reader.old + MAX_INPUT + READ_CHUNK }
{
    let text = read_all(alloc, reader)?;
    match command.output(alloc, text) {
        Ok(output) => Ok(output),
        Err(NoMemory) => Err(InputFault::NoMemory),
    }
}

// Writes these bytes and gives this status, or 4 if a write fails.
fn print<W: Sink>(writer: &mut W, bytes: &[u8], status: u8) -> u8
    requires { W.failed writer.old ≡ false }
    ensures written { W.failed writer.new ≡ false
        → (result ≡ status) × Appends (W.contents writer.old) (W.contents writer.new) bytes.now }
    ensures fault { W.failed writer.new ≡ true
        → (result ≡ END_FAILED)
        × AppendsPrefix (W.contents writer.old) (W.contents writer.new) bytes.now }
{
    match write_all(writer, bytes) {
        Ok(()) => status,
        Err(_) => END_FAILED,
    }
}

/// Reports that memory was refused: writes [`MEMORY_LINE`]. Gives the exit status 3, or 4 if a write fails.
pub fn print_memory_line<W: Sink>(writer: &mut W) -> u8
    requires { W.failed writer.old ≡ false }
    ensures { OnlyMemoryLine (sink_run W.contents W.failed writer.old writer.new) result }
{
    print(writer, &MEMORY_LINE, NO_MEMORY)
}

/// Reads all of the reader and writes the command's output for it. The exit status is the output's, 3 if memory was
/// refused, and 4 if a read or a write failed or the input was too long.
pub fn carry_out<C: Subcommand, R: Source, W: Sink>(
    command: &C,
    alloc: Global,
    reader: &mut R,
    writer: &mut W,
) -> u8
    requires ready { C.ready command.now }
    requires sound_reader { R.failed reader.old ≡ false }
    requires sound_writer { W.failed writer.old ≡ false }
    ensures { IsCommandRun (C.gives command.now)
        (source_run R.remaining R.count R.failed reader.old reader.new)
        (sink_run W.contents W.failed writer.old writer.new) result }
{
    match output_for(command, alloc, reader) {
        Ok(output) => print(writer, output.bytes(), output.status()),
        Err(InputFault::NoMemory) => print_memory_line(writer),
        Err(InputFault::Read) => END_FAILED,
        Err(InputFault::TooLong) => END_FAILED,
    }
}
