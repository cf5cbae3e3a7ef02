//! What the program does for its command line.
ghost use Rattle.std.specs.Prelude.{◌≡◌, ◌⊎◌, false, Err, Ok};
ghost use Rattle.command_io.specs.CommandRun.{IsCommandRun, IsRefusedCall, source_run, sink_run};
ghost use Rattle.command_line.specs.declared.call.Call.{Call as CallSeen};
ghost use Rattle.command_line.specs.CommandLine.{HasSource};
ghost use Rattle.trace_cli.specs.Answers.{CallGives, HasNoFiles, OnlyText};

use crate::told::print_text;
use crate::version::VERSION_LINE;
use command_io::{Sink, Source, USAGE, print_memory_line};
use command_line::{Call, CallFault, HELP};
use dump_command::dump_to;
use replay_command::replay_to;
use run_command::run_to;
use std::alloc::Global;
use std::sync::Wait;
use std::thread::Threads;
use step_text::steps_to;

/// Carries out a command that reads one source, over these ends, or writes the version or the help, and gives the exit
/// status.
fn answer_call<Rt: Threads + Wait + Sync, R: Source, W: Sink>(
    rt: &Rt,
    alloc: Global,
    call: Call<'_>,
    reader: &mut R,
    writer: &mut W,
) -> u8
    requires no_files { HasNoFiles call }
    requires sound_reader { R.failed reader.old ≡ false }
    requires sound_writer { W.failed writer.old ≡ false }
    ensures run { HasSource call.entry → IsCommandRun (CallGives call.entry)
        (source_run R.remaining R.count R.failed reader.old reader.new)
        (sink_run W.contents W.failed writer.old writer.new) result }
    ensures version { call.entry ≡ Call.Version
        → OnlyText VERSION_LINE.now (sink_run W.contents W.failed writer.old writer.new) result }
    ensures help { call.entry ≡ Call.Help
        → OnlyText HELP.now (sink_run W.contents W.failed writer.old writer.new) result }
    ensures not_read { (call.entry ≡ Call.Version) ⊎ (call.entry ≡ Call.Help) → reader.new ≡ reader.old }
{
    match call {
        Call::Replay { log } => replay_to(alloc, reader, writer, log),
        Call::Run => run_to(rt, alloc, reader, writer),
        Call::Steps => steps_to(alloc, reader, writer),
        Call::Dump => dump_to(alloc, reader, writer),
        Call::Version => print_text(writer, VERSION_LINE),
        Call::Help => print_text(writer, HELP.as_bytes()),
        Call::Collect(_) | Call::Recover(_) => unreachable!(),
    }
}

/// Carries out what was called: a command that reads one source, over these ends; or the version or the help is
/// written, and nothing is read. If the command line is refused, nothing is read or written; if memory was refused to
/// it, only the line for that is written. Gives the exit status.
pub fn answer_to<Rt: Threads + Wait + Sync, R: Source, W: Sink>(
    rt: &Rt,
    alloc: Global,
    call: Result<Call<'_>, CallFault>,
    reader: &mut R,
    writer: &mut W,
) -> u8
    requires no_files { (asked : CallSeen) → call ≡ Ok asked → HasNoFiles asked }
    requires sound_reader { R.failed reader.old ≡ false }
    requires sound_writer { W.failed writer.old ≡ false }
    ensures called { (asked : CallSeen) → call.entry ≡ Ok asked → HasSource asked → IsCommandRun (CallGives asked)
        (source_run R.remaining R.count R.failed reader.old reader.new)
        (sink_run W.contents W.failed writer.old writer.new) result }
    ensures version { call.entry ≡ Ok Call.Version
        → OnlyText VERSION_LINE.now (sink_run W.contents W.failed writer.old writer.new) result }
    ensures help { call.entry ≡ Ok Call.Help
        → OnlyText HELP.now (sink_run W.contents W.failed writer.old writer.new) result }
    ensures not_read { (call.entry ≡ Ok Call.Version) ⊎ (call.entry ≡ Ok Call.Help) → reader.new ≡ reader.old }
    ensures refused { IsRefusedCall (call.entry ≡ Err CallFault.Usage) (call.entry ≡ Err CallFault.NoMemory)
        (source_run R.remaining R.count R.failed reader.old reader.new)
        (sink_run W.contents W.failed writer.old writer.new) result }
{
    match call {
        Ok(call) => answer_call(rt, alloc, call, reader, writer),
        Err(CallFault::NoMemory) => print_memory_line(writer),
        Err(CallFault::Usage) => USAGE,
    }
}
