//! A text of the program's own, as the version and the help are.
ghost use Rattle.std.specs.Prelude.{◌≡◌, false};
ghost use Rattle.command_io.specs.CommandRun.{sink_run};
ghost use Rattle.trace_cli.specs.Answers.{OnlyText};

use command_io::{DONE, END_FAILED, Sink, write_all};

/// Writes the text. Gives the exit status 0, or 4 if a write fails.
pub fn print_text<W: Sink>(writer: &mut W, text: &[u8]) -> u8
    requires { W.failed writer.old ≡ false }
    ensures { OnlyText text.now (sink_run W.contents W.failed writer.old writer.new) result }
{
    match write_all(writer, text) {
        Ok(()) => DONE,
        Err(_) => END_FAILED,
    }
}
