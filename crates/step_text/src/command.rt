//! The command `steps`: a script in, the text of its steps out.
ghost use Rattle.std.specs.Prelude.{◌≡◌, false, IfOk};
ghost use Rattle.command_io.specs.CommandRun.{IsCommandRun, source_run, sink_run};
ghost use Rattle.command_io.specs.Output.{bytes_of, status_of};
ghost use Rattle.step_text.specs.Steps.{IsSteps, StepsGives};

use crate::steps::steps_of;
use command_io::{Output, Sink, Source, Subcommand, carry_out};
use std::alloc::Global;
use trace_model::NoMemory;
use trace_script::{Script, ScriptFault, fault_line, read_text};

/// The command `steps`.
#[derive(Drop)]
struct StepsCommand;

impl Subcommand for StepsCommand {
    ghost gives = { λ _. StepsGives };

    fn output(&self, alloc: Global, text: Vec<u8>) -> Result<Output, NoMemory> {
        steps_output(alloc, text)
    }
}

/// The text of a script's steps.
fn steps_text(alloc: Global, script: &Script) -> Result<Vec<u8>, NoMemory>
    ensures { IfOk result (λ text. IsSteps script.now text.items) }
{
    steps_of(alloc, script)
}

/// What is printed for a script, with the exit status.
fn steps_output(alloc: Global, text: Vec<u8>) -> Result<Output, NoMemory>
    ensures { IfOk result (λ output. StepsGives text.items (bytes_of output) (status_of output)) }
{
    match read_text(alloc, text) {
        Ok(script) => Ok(Output::Done(steps_text(alloc, &script)?)),
        Err(ScriptFault::NoMemory) => Err(NoMemory),
        Err(fault) => Ok(Output::Refused(fault_line(alloc, fault)?)),
    }
}

/// Reads a script from the reader to its end, and writes the text of its steps, or the line of its first fault. Gives
/// the exit status: 0 done, 1 the script is refused, 3 memory was refused, 4 a read or a write failed, or the script is
/// longer than 2^28 bytes.
pub fn steps_to<R: Source, W: Sink>(alloc: Global, reader: &mut R, writer: &mut W) -> u8
    requires sound_reader { R.failed reader.old ≡ false }
    requires sound_writer { W.failed writer.old ≡ false }
    ensures { IsCommandRun StepsGives
        (source_run R.remaining R.count R.failed reader.old reader.new)
        (sink_run W.contents W.failed writer.old writer.new) result }
{
    carry_out(&StepsCommand, alloc, reader, writer)
}
