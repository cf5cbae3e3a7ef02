//! What the exit status 4 means if neither end failed, and the line of the version.
ghost use Rattle.std.specs.Prelude.{◌≡◌, ◌<◌, ◌≤◌, ◌∷◌, ◌++◌, [], Bool, codes};
ghost use Rattle.std.specs.Io.KnownBytes.{Appends};
ghost use Rattle.command_io.specs.CommandRun.{IsCommandRun, SinkRun, SourceRun};
ghost use Rattle.dump_command.specs.Dumps.{DumpGives};
ghost use Rattle.replay_command.specs.Commands.{ReplayGives};
ghost use Rattle.trace_cli.specs.Answers.{AreSound};
ghost use Rattle.run_command.specs.Runs.{RunGives};

use crate::version::VERSION_LINE;
use command_io::{END_FAILED, THREAD_LINE};
use trace_model::MAX_INPUT;

/// A command that ends with the status 4, neither of whose ends failed: if it is `replay` or `dump`, the source has
/// given more bytes than may be read, those before this run among them; if it is `run`, and the source hasn't, it wrote
/// the line of a thread that could not be started.
pub fn status_four_is_reported()
    ensures replay { (asked : Bool) (source : SourceRun) (sink : SinkRun) → AreSound source sink →
        IsCommandRun (ReplayGives asked) source sink END_FAILED → MAX_INPUT < source.count_after }
    ensures dump { (source : SourceRun) (sink : SinkRun) → AreSound source sink →
        IsCommandRun DumpGives source sink END_FAILED → MAX_INPUT < source.count_after }
    ensures run { (source : SourceRun) (sink : SinkRun) → AreSound source sink →
        IsCommandRun RunGives source sink END_FAILED → source.count_after ≤ MAX_INPUT →
        Appends sink.contents sink.contents_after THREAD_LINE.now }
{}

/// What `--version` prints is the program's name, a space, the version and the end of the line.
pub fn version_line_is()
    ensures { VERSION_LINE.now ≡ codes "tracering 0.1.0" ++ 10 ∷ [] }
{}
