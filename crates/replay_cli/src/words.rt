//! What the words of the command line ask for. The whole program reads its words by `clap` (`command_line`): for two
//! words that would be much more to prove before the first output.
ghost use Rattle.std.specs.Prelude.{◌≡◌, Bool, Some, map};
ghost use Rattle.replay_cli.specs.Words.{AreOptions, AskForReplay};

use std::convert::AsStr;

/// The line of standard error for words that ask for anything else.
pub(crate) const USAGE_LINE: &str = "usage: tracering replay [--log]";

/// Whether these options of `replay` ask for its log, if they can be read.
fn log_among<S: AsStr>(options: &[S]) -> Option<bool>
    ensures asked { (log : Bool) → AreOptions log (map S.text options.now) → result ≡ Some log }
    ensures options { (log : Bool) → result ≡ Some log → AreOptions log (map S.text options.now) }
{
    match options {
        [] => Some(false),
        [only] => match only.as_str() {
            "--log" => Some(true),
            "--" => Some(false),
            _ => None,
        },
        [flag, end] if flag.as_str() == "--log" && end.as_str() == "--" => Some(true),
        _ => None,
    }
}

/// Whether these words ask for the log of `replay`, if they ask for `replay`.
pub(crate) fn log_asked<S: AsStr>(words: &[S]) -> Option<bool>
    ensures asked { (log : Bool) → AskForReplay log (map S.text words.now) → result ≡ Some log }
    ensures words { (log : Bool) → result ≡ Some log → AskForReplay log (map S.text words.now) }
{
    match words {
        [_, command, options @ ..] if command.as_str() == "replay" => log_among(options),
        _ => None,
    }
}
