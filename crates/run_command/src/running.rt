//! The command `run`: a script in, the printing of what its threads left out.
ghost use Rattle.std.specs.Prelude.{◌≡◌, List, false, IfOk, IfSome};
ghost use Rattle.std.specs.List.{AllZip};
ghost use Rattle.std.specs.Thread.{IsSync};
ghost use Rattle.command_io.specs.CommandRun.{IsCommandRun, WritesOutput, source_run, sink_run};
ghost use Rattle.command_io.specs.Output.{bytes_of, status_of};
ghost use Rattle.trace_run.specs.ledgers.Audit.{taken_in};
ghost use Rattle.run_command.specs.text.Printing.{AuditedShown, IsAuditedPrintOf, printed_run};
ghost use Rattle.trace_run.specs.threaded.Runs.{IsRunOfScript};
ghost use Rattle.run_command.specs.Runs.{IsRunOutput, RunGives, HeadlineGives};

use crate::text::put_run;
use command_io::{DONE, Output, Sink, Source, Subcommand, carry_out};
use std::alloc::Global;
use std::sync::Wait;
use std::thread::Threads;
use trace_model::NoMemory;
use trace_run::threaded::{Ran, run};
use trace_run::writers::OpenGate;
use trace_script::{ReplayFault, Script, ScriptFault, fault_line, read_text};

/// What a run of the script leaves, or nothing if a thread can't be started.
fn ran<R: Threads + Wait + Sync>(
    rt: &R,
    alloc: Global,
    script: &Script,
) -> Result<Option<Ran>, NoMemory>
    ensures { IfOk result (λ found. IfSome found (λ ran. IsRunOfScript script.now ran)) }
{
    match run(rt, alloc, script, &OpenGate) {
        Ok(ran) => Ok(Some(ran)),
        Err(ReplayFault::NoMemory) => Err(NoMemory),
        Err(ReplayFault::NoThread) => Ok(None),
        Err(ReplayFault::GateShut) => unreachable!(),
    }
}

/// The printing of what a run left.
fn print_ran(alloc: Global, ran: &Ran) -> Result<Vec<u8>, NoMemory>
    ensures { IfOk result (λ text. (shown : List AuditedShown)
        × AllZip (IsAuditedPrintOf (taken_in ran.now.ledgers.items)) ran.now.collectors.items shown
        × (text.items ≡ printed_run shown)) }
{
    let mut text = Vec::new(alloc);
    put_run(
        alloc,
        &mut text,
        ran.collectors.as_slice(),
        ran.ledgers.as_slice(),
    )?;
    Ok(text)
}

/// What is printed of a run of the script, which is given back before the printing begins.
fn print_run<R: Threads + Wait + Sync>(
    rt: &R,
    alloc: Global,
    script: Script,
) -> Result<Output, NoMemory>
    ensures { IfOk result (λ output. IsRunOutput script (bytes_of output) (status_of output)) }
{
    let found = ran(rt, alloc, &script)?;
    drop(script);
    match found {
        Some(ran) => Ok(Output::Done(print_ran(alloc, &ran)?)),
        None => Ok(Output::NoThread),
    }
}

/// What is printed for a script, with the exit status.
fn run_output<R: Threads + Wait + Sync>(
    rt: &R,
    alloc: Global,
    text: Vec<u8>,
) -> Result<Output, NoMemory>
    ensures { IfOk result (λ output. RunGives text.items (bytes_of output) (status_of output)) }
{
    match read_text(alloc, text) {
        Ok(script) => print_run(rt, alloc, script),
        Err(ScriptFault::NoMemory) => Err(NoMemory),
        Err(fault) => Ok(Output::Refused(fault_line(alloc, fault)?)),
    }
}

/// The command `run`, with what starts its threads.
#[derive(Drop)]
struct RunCommand<'a, R: Threads + Wait + Sync> {
    rt: &'a R,
}

impl<'a, R: Threads + Wait + Sync> Subcommand for RunCommand<'a, R> {
    ghost gives = { λ _. RunGives };

    ghost ready = { λ _. IsSync R.row };

    fn output(&self, alloc: Global, text: Vec<u8>) -> Result<Output, NoMemory> {
        run_output(self.rt, alloc, text)
    }
}

/// Reads a script from the reader to its end, runs it by threads, and writes what the collectors have, each with what
/// its audit answers, or the fault's line. Gives the exit status: 0 done, 1 the script is refused, 3 memory was
/// refused, 4 a read or a write failed, a thread could not be started, or the script is longer than 2^28 bytes. It
/// waits for its threads: what it promises holds if it returns.
pub fn run_to<Rt: Threads + Wait + Sync, R: Source, W: Sink>(
    rt: &Rt,
    alloc: Global,
    reader: &mut R,
    writer: &mut W,
) -> u8
    requires sound_reader { R.failed reader.old ≡ false }
    requires sound_writer { W.failed writer.old ≡ false }
    // What is printed above a line `audit yes` is exactly the committed records of the fills that were taken, under
    // their numbers, and exactly the numbers that were overwritten unread before them.
    ensures headline { result ≡ DONE → WritesOutput HeadlineGives
        (R.remaining reader.old) (R.remaining reader.new) (W.contents writer.old) (W.contents writer.new) result }
    ensures output { IsCommandRun RunGives
        (source_run R.remaining R.count R.failed reader.old reader.new)
        (sink_run W.contents W.failed writer.old writer.new) result }
{
    carry_out(&RunCommand { rt }, alloc, reader, writer)
}
