//! Why a command line is refused.
ghost use Rattle.std.specs.Prelude.{◌≡◌};
ghost use Rattle.command_line.specs.Causes.{begins_option as is_option_text, is_command as is_command_text};
ghost use Rattle.command_line.specs.Causes.{is_collect_flag as is_collect_flag_text, is_flag as is_flag_text};
ghost use Rattle.command_line.specs.Causes.{is_collect_valued as is_collect_valued_text, is_valued as is_valued_text};
ghost use Rattle.command_line.specs.Causes.{exclude_each_other as exclude_text, option_name as name_text};
ghost use Rattle.command_line.specs.Causes.{takes_files as takes_files_text};
ghost use Rattle.command_line.specs.CauseTexts.{needed_by as needed_text};

use std::fmt;

/// What is the matter with the words behind a command.
#[derive(Clone, Copy, Debug, PartialEq, Eq)]
pub enum Misuse<'a> {
    /// The command has no such option.
    UnknownOption(&'a str),
    /// A value is given to an option that takes none.
    Valued(&'a str),
    /// The option takes a value, and none is given.
    NoValue(&'a str),
    /// The option is given more than once.
    Twice(&'static str),
    /// The command takes no such word.
    Extra(&'a str),
    /// A FILE is wanted, and none is given.
    NoFile,
    /// There are more FILEs than may be.
    TooManyFiles,
    /// An option can't have this value.
    BadValue {
        /// The option.
        option: &'a str,
        /// The value.
        value: &'a str,
    },
    /// The first moment is after the last one.
    Backwards,
    /// Two options are given that exclude each other.
    Conflict {
        /// One of them.
        option: &'static str,
        /// The other one.
        other: &'static str,
    },
    /// `--round` is given without `--follow`.
    RoundAlone,
    /// The FILE has a CPU that is too high.
    BadCpu(&'a str),
    /// More than one FILE is standard input.
    TwoInputs,
    /// Something else.
    Other,
}

/// Why a command line is refused.
#[derive(Clone, Copy, Debug, PartialEq, Eq)]
pub enum Cause<'a> {
    /// A word isn't UTF-8.
    Unreadable,
    /// `--version` is there, and another word.
    VersionAndMore,
    /// There is no such command.
    UnknownCommand(&'a str),
    /// An option is in the place of the command, and there is no such option.
    NoSuchOption(&'a str),
    /// The words behind the command.
    Misused {
        /// The command.
        command: &'a str,
        /// What is the matter with them.
        misuse: Misuse<'a>,
    },
}

/// What follows the command in the line.
impl<'a> fmt::Display for Misuse<'a> {
    ghost use Rattle.std.specs.Prelude.{Some};
    ghost use Rattle.command_line.specs.CauseTexts.{misuse_text};

    ghost output = { λ m. Some (misuse_text m) };

    fn fmt<W: fmt::Write>(&self, f: &mut fmt::Formatter<W>) -> fmt::Result {
        match self {
            Misuse::UnknownOption(word) => write!(f, "unknown option {word}"),
            Misuse::Valued(word) => write!(f, "{word} has a value, and the option takes none"),
            Misuse::NoValue(word) => write!(f, "{word} needs a value"),
            Misuse::Twice(option) => write!(f, "{option} is given twice"),
            Misuse::Extra(word) => write!(f, "unknown word {word}"),
            Misuse::NoFile => write!(f, "no FILE"),
            Misuse::TooManyFiles => write!(f, "more than 256 FILEs"),
            Misuse::BadValue { option, value } => {
                write!(f, "{option} needs {}, not {value}", needed_by(option))
            }
            Misuse::Backwards => write!(f, "--since is greater than --until"),
            Misuse::Conflict { option, other } => {
                write!(f, "{option} and {other} exclude each other")
            }
            Misuse::RoundAlone => write!(f, "--round needs --follow"),
            Misuse::BadCpu(word) => write!(f, "the CPU of {word} is above 255"),
            Misuse::TwoInputs => write!(f, "more than one FILE is standard input"),
            Misuse::Other => write!(f, "these words can't be read"),
        }
    }
}

/// The line that names it, without a line feed. It takes no memory.
impl<'a> fmt::Display for Cause<'a> {
    ghost use Rattle.std.specs.Prelude.{Some};
    ghost use Rattle.command_line.specs.CauseTexts.{cause_text};

    ghost output = { λ c. Some (cause_text c) };

    fn fmt<W: fmt::Write>(&self, f: &mut fmt::Formatter<W>) -> fmt::Result {
        match self {
            Cause::Unreadable => write!(f, "tracering: a word isn't UTF-8"),
            Cause::VersionAndMore => write!(
                f,
                "tracering: no other word may stand beside --version"
            ),
            Cause::UnknownCommand(word) => write!(f, "tracering: unknown command {word}"),
            Cause::NoSuchOption(word) => write!(f, "tracering: unknown option {word}"),
            Cause::Misused { command, misuse } => write!(f, "tracering: {command}: {misuse}"),
        }
    }
}

/// Whether two options exclude each other.
pub(crate) fn exclude_each_other(option: &str, other: &str) -> bool
    ensures { result ≡ exclude_text option.now other.now }
{
    option == "--follow"
        && (other == "--since"
            || other == "--until"
            || other == "--instance"
            || other == "--keep"
            || other == "--parcels")
}

/// What kind of value an option needs.
fn needed_by(option: &str) -> &'static str
    ensures { result.now ≡ needed_text option.now }
{
    match option {
        "--page" => "a number from 48 to 65552",
        "--round" => "a number from 1 to 60000",
        "--cpu" => "numbers up to 255 as in 0,2-4",
        "--since" | "--until" => "a number up to 18446744073709551615",
        "--event" => "1 to 256 bytes",
        "--pid" => "numbers up to 2147483647 as in 1,42",
        _ => "a FILE",
    }
}

/// Whether a command takes FILEs.
pub(crate) fn takes_files(command: &str) -> bool
    ensures { result ≡ takes_files_text command.now }
{
    command == "collect" || command == "recover"
}

/// Whether a word is a command.
pub(crate) fn is_command(word: &str) -> bool
    ensures { result ≡ is_command_text word.now }
{
    word == "replay" || word == "run" || word == "steps" || word == "dump" || takes_files(word)
}

/// Whether a command has this option, which takes no value.
pub(crate) fn is_flag(command: &str, option: &str) -> bool
    ensures { result ≡ is_flag_text command.now option.now }
{
    (command == "replay" && option == "--log")
        || (takes_files(command) && option == "--json")
        || (command == "collect" && is_collect_flag(option))
}

/// Whether `collect` alone has this option, which takes no value.
fn is_collect_flag(option: &str) -> bool
    ensures { result ≡ is_collect_flag_text option.now }
{
    option == "--names"
        || option == "--fields"
        || option == "--tasks"
        || option == "--symbols"
        || option == "--parcels"
        || option == "--follow"
}

/// Whether `collect` alone has this option, which takes a value.
fn is_collect_valued(option: &str) -> bool
    ensures { result ≡ is_collect_valued_text option.now }
{
    option == "--page"
        || option == "--formats"
        || option == "--tasks-from"
        || option == "--symbols-from"
        || option == "--instance"
        || option == "--cpu"
        || option == "--since"
        || option == "--until"
        || option == "--event"
        || option == "--pid"
        || option == "--round"
}

/// Whether a command has this option, which takes a value.
pub(crate) fn is_valued(command: &str, option: &str) -> bool
    ensures { result ≡ is_valued_text command.now option.now }
{
    (takes_files(command) && option == "--keep")
        || (command == "collect" && is_collect_valued(option))
}

/// Whether a word begins with `-`, and isn't `-` alone.
pub(crate) fn begins_option(word: &str) -> bool
    ensures { result ≡ is_option_text word.now }
{
    matches!(word.as_bytes(), [b'-', _, ..])
}

/// What is before the first `=` of a word, if it has one, and else the word.
pub(crate) fn option_name(word: &str) -> &str
    ensures { result.now ≡ name_text word.now }
{
    match word.split_once('=') {
        Some((name, _)) => name,
        None => word,
    }
}
