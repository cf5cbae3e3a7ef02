//! The command `replay`: a script in, the printing of its world out.
ghost use Rattle.std.specs.Prelude.{◌≡◌, List, false, IfOk};
ghost use Rattle.std.specs.List.{AllZip};
ghost use Rattle.world_model.specs.Printing.{Shown, printed_world};
ghost use Rattle.collector_text.specs.Prints.{IsPrintOf};
ghost use Rattle.command_io.specs.CommandRun.{IsCommandRun, WritesOutput, source_run, sink_run};
ghost use Rattle.command_io.specs.Output.{bytes_of, status_of};
ghost use Rattle.script_replay.specs.log.LogTypes.{shown_log};
ghost use Rattle.replay_command.specs.Commands.{AccountGives, IsPrinting, ReplayGives};

use collector_text::put_collectors;
use command_io::{DONE, Output, Sink, Source, Subcommand, carry_out};
use script_replay::log::put_log;
use script_replay::{World, world_of};
use std::alloc::Global;
use trace_model::NoMemory;
use trace_script::{Script, ScriptFault, fault_line, read_text};

/// The printing of a world: the log, if it is asked for, and the collectors. The log is given back before the
/// collectors are printed.
fn print_world(alloc: Global, world: World, log: bool) -> Result<Vec<u8>, NoMemory>
    ensures { IfOk result (λ text. (shown : List Shown) × AllZip IsPrintOf world.collectors.items shown
        × (text.items ≡ printed_world log (shown_log world.log.items) shown)) }
{
    let World {
        collectors,
        log: logged,
    } = world;
    let mut text = Vec::new(alloc);
    if log {
        put_log(&mut text, logged.as_slice())?;
    }
    drop(logged);
    put_collectors(alloc, &mut text, collectors.as_slice())?;
    Ok(text)
}

/// The printing of a script's world. The script is given back before the printing begins.
fn print_replay(alloc: Global, script: Script, log: bool) -> Result<Vec<u8>, NoMemory>
    ensures { IfOk result (λ text. IsPrinting script log text.items) }
{
    let world = world_of(alloc, &script)?;
    drop(script);
    let text = print_world(alloc, world, log)?;
    Ok(text)
}

/// The command `replay`, with the log if it is asked for.
#[derive(Drop)]
struct ReplayCommand {
    log: bool,
}

impl Subcommand for ReplayCommand {
    ghost gives = { λ command. ReplayGives command.log };

    fn output(&self, alloc: Global, text: Vec<u8>) -> Result<Output, NoMemory> {
        replay_output(alloc, text, self.log)
    }
}

/// What is printed for a script, with the exit status.
fn replay_output(alloc: Global, text: Vec<u8>, log: bool) -> Result<Output, NoMemory>
    ensures { IfOk result (λ output. ReplayGives log text.items (bytes_of output) (status_of output)) }
{
    match read_text(alloc, text) {
        Ok(script) => Ok(Output::Done(print_replay(alloc, script, log)?)),
        Err(ScriptFault::NoMemory) => Err(NoMemory),
        Err(fault) => Ok(Output::Refused(fault_line(alloc, fault)?)),
    }
}

/// Reads a script from the reader to its end, replays it, and writes the log, if it is asked for, and
/// what the collectors have, or the fault's line. Gives the exit status: 0 done, 1 the script is
/// refused, 3 memory was refused, 4 a read or a write failed, or the script is longer than 2^28 bytes.
pub fn replay_to<R: Source, W: Sink>(alloc: Global, reader: &mut R, writer: &mut W, log: bool) -> u8
    requires sound_reader { R.failed reader.old ≡ false }
    requires sound_writer { W.failed writer.old ≡ false }
    ensures account { result ≡ DONE → WritesOutput (AccountGives log)
        (R.remaining reader.old) (R.remaining reader.new) (W.contents writer.old) (W.contents writer.new) result }
    ensures output { IsCommandRun (ReplayGives log)
        (source_run R.remaining R.count R.failed reader.old reader.new)
        (sink_run W.contents W.failed writer.old writer.new) result }
{
    carry_out(&ReplayCommand { log }, alloc, reader, writer)
}
