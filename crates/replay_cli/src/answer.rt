//! What the program does for its command line.
ghost use Rattle.std.specs.Prelude.{◌≡◌, Bool, Err, false, map, MatchResult, string_bytes};
ghost use Rattle.command_io.specs.CommandRun.{IsCommandRun, IsRefusedCall, source_run, sink_run};
ghost use Rattle.replay_cli.specs.Words.{AskForOther, AskForReplay};
ghost use Rattle.replay_command.specs.Commands.{ReplayGives};

use crate::words::log_asked;
use command_io::{Sink, Source, USAGE, WordsFault, print_memory_line};
use replay_command::replay_to;
use std::alloc::Global;

/// Carries out `replay` over these ends, if the words ask for it. If they ask for anything else, or can't be read,
/// nothing is read or written; if memory was refused to them, only the line for that is written. Gives the exit status.
pub fn answer_to<R: Source, W: Sink>(
    alloc: Global,
    words: &Result<Vec<String>, WordsFault>,
    reader: &mut R,
    writer: &mut W,
) -> u8
    requires sound_reader { R.failed reader.old ≡ false }
    requires sound_writer { W.failed writer.old ≡ false }
    ensures replay { (log : Bool)
        → MatchResult words.now (λ given. AskForReplay log (map string_bytes given.items)) (λ _. ⊥)
        → IsCommandRun (ReplayGives log)
        (source_run R.remaining R.count R.failed reader.old reader.new)
        (sink_run W.contents W.failed writer.old writer.new) result }
    ensures refused { IsRefusedCall
        (MatchResult words.now (λ given. AskForOther (map string_bytes given.items))
        (λ fault. fault ≡ WordsFault.Unreadable))
        (words.now ≡ Err WordsFault.NoMemory)
        (source_run R.remaining R.count R.failed reader.old reader.new)
        (sink_run W.contents W.failed writer.old writer.new) result }
{
    match words {
        Ok(words) => match log_asked(words) {
            Some(log) => replay_to(alloc, reader, writer, log),
            None => USAGE,
        },
        Err(WordsFault::NoMemory) => print_memory_line(writer),
        Err(WordsFault::Unreadable) => USAGE,
    }
}
