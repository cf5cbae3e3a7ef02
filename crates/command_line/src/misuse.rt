//! What is the matter with a command line that is refused.
ghost use Rattle.std.specs.Prelude.{◌≡◌, ◌<◌, ◌≤◌, IfSome, None, map, length, option_map, true};
ghost use Rattle.clap.specs.Words.{Text};
ghost use Rattle.command_line.specs.Causes.{IsBackwards, IsCauseAt, IsCauseOf, IsTrueOf, can_have as can_have_text};
ghost use Rattle.command_line.specs.Causes.{count_option as count_of, first_option, has_value, is_joined};
ghost use Rattle.command_line.specs.Causes.{has_wrong_value as has_wrong_value_text, is_unknown as is_unknown_text};
ghost use Rattle.command_line.specs.Causes.{without_value as without_value_of};
ghost use Rattle.command_line.specs.FileWords.{file_word};

use crate::cause::{
    Cause, Misuse, begins_option, exclude_each_other, is_command, is_flag, is_valued, option_name,
    takes_files,
};
use crate::lists::{is_cpu_list, is_pid_list};
use crate::values::{is_in_order, moment_in, path_in, pattern_in};
use crate::words::{
    MAX_FILES, MAX_PAGE, MAX_ROUND, MIN_PAGE, MIN_ROUND, cpu_file, is_input, number_in,
};
use std::convert::AsStr;

/// All options of the commands.
const OPTIONS: [&str; 20] = [
    "--log",
    "--page",
    "--names",
    "--fields",
    "--formats",
    "--tasks",
    "--tasks-from",
    "--symbols",
    "--symbols-from",
    "--instance",
    "--cpu",
    "--since",
    "--until",
    "--event",
    "--pid",
    "--json",
    "--keep",
    "--parcels",
    "--follow",
    "--round",
];

/// Whether a word is an option that the command hasn't.
fn is_unknown(command: &str, word: &str) -> bool
    ensures { result ≡ is_unknown_text command.now word.now }
{
    let name = option_name(word);
    begins_option(word) && !(is_flag(command, name) || is_valued(command, name))
}

/// Whether a word has a value behind `=`, and the option takes none.
fn has_wrong_value(command: &str, word: &str) -> bool
    ensures { result ≡ has_wrong_value_text command.now word.now }
{
    is_flag(command, option_name(word)) && !is_flag(command, word)
}

/// The first option that the command hasn't.
fn unknown_option<'a, S: AsStr>(command: &str, words: &'a [S]) -> Option<&'a str>
    ensures { option_map (λ w. w.now) result
        ≡ first_option (is_unknown_text command.now) (map S.text words.now) }
{
    for word in words {
        let word = word.as_str();
        if word == "--" {
            return None;
        }
        if is_unknown(command, word) {
            return Some(word);
        }
    }
    None
}

/// The first option with a value that takes none.
fn valued_flag<'a, S: AsStr>(command: &str, words: &'a [S]) -> Option<&'a str>
    ensures { option_map (λ w. w.now) result
        ≡ first_option (has_wrong_value_text command.now) (map S.text words.now) }
{
    for word in words {
        let word = word.as_str();
        if word == "--" {
            return None;
        }
        if has_wrong_value(command, word) {
            return Some(word);
        }
    }
    None
}

/// How often an option is given.
fn count_option<S: AsStr>(option: &str, words: &[S]) -> usize
    ensures { result ≡ count_of option.now (map S.text words.now) }
{
    let mut count = 0;
    for word in words {
        let word = word.as_str();
        if word == "--" {
            return count;
        }
        if option_name(word) == option {
            count += 1;
        }
    }
    count
}

/// An option that is given more than once.
fn repeated_option<S: AsStr>(words: &[S]) -> Option<&'static str>
    ensures { IfSome result (λ option. 1 < count_of option.now (map S.text words.now)) }
{
    for option in OPTIONS {
        if count_option(option, words) > 1 {
            return Some(option);
        }
    }
    None
}

/// The first option that takes a value and has none.
fn without_value<'a, S: AsStr>(command: &str, words: &'a [S]) -> Option<&'a str>
    ensures { option_map (λ w. w.now) result ≡ without_value_of command.now None (map S.text words.now) }
{
    let mut waiting: Option<&str> = None;
    for word in words {
        let word = word.as_str();
        if !begins_option(word) {
            waiting = None;
        } else if waiting.is_some() {
            return waiting;
        } else if word == "--" {
            return None;
        } else if is_valued(command, word) {
            waiting = Some(word);
        }
    }
    waiting
}

/// Options whose values may be wrong.
const TESTED: [&str; 9] = [
    "--page",
    "--round",
    "--cpu",
    "--since",
    "--until",
    "--event",
    "--pid",
    "--tasks-from",
    "--symbols-from",
];

/// Whether an option can have a value.
fn can_have(option: &str, value: &str) -> bool
    ensures { result ≡ can_have_text option.now value.now }
{
    match option {
        "--page" => number_in(MIN_PAGE, MAX_PAGE, value).is_some(),
        "--round" => number_in(MIN_ROUND, MAX_ROUND, value).is_some(),
        "--cpu" => is_cpu_list(value),
        "--since" | "--until" => moment_in(value).is_some(),
        "--event" => pattern_in(value).is_some(),
        "--pid" => is_pid_list(value),
        "--tasks-from" | "--symbols-from" => path_in(value).is_some(),
        _ => true,
    }
}

/// What is behind `=` of a word, if the option of this name is before it.
fn joined_value<'a>(option: &str, word: &'a str) -> Option<&'a str>
    ensures { IfSome result (λ value. is_joined option.now value.now word.now ≡ true) }
{
    match word.split_once('=') {
        Some((name, value)) if name == option => Some(value),
        _ => None,
    }
}

/// The first value of an option, if it has one.
fn value_of<'a, S: AsStr>(option: &str, words: &'a [S]) -> Option<&'a str>
    ensures { IfSome result (λ value. has_value option.now value.now (map S.text words.now) ≡ true) }
{
    let mut is_next = false;
    for word in words {
        let word = word.as_str();
        if is_next {
            return Some(word);
        }
        if word == "--" {
            return None;
        }
        if let Some(value) = joined_value(option, word) {
            return Some(value);
        }
        is_next = word == option;
    }
    None
}

/// A value that its option can't have.
fn bad_value<'a, S: AsStr>(words: &'a [S]) -> Option<Misuse<'a>>
    ensures { IfSome result (λ misuse. (command : Text) → IsTrueOf command (map S.text words.now) misuse) }
{
    for option in TESTED {
        if let Some(value) = value_of(option, words) {
            if !can_have(option, value) {
                return Some(Misuse::BadValue { option, value });
            }
        }
    }
    None
}

/// Whether the first moment is after the last one.
fn is_backwards<S: AsStr>(words: &[S]) -> bool
    ensures { result ≡ true → IsBackwards (map S.text words.now) }
{
    match (value_of("--since", words), value_of("--until", words)) {
        (Some(since), Some(until)) => !is_in_order(moment_in(since), moment_in(until)),
        _ => false,
    }
}

/// What is the matter with `--follow` and `--round`: an option is given that the first excludes, or the second alone.
fn follow_misuse<S: AsStr>(words: &[S]) -> Option<Misuse<'static>>
    ensures { IfSome result (λ misuse. (command : Text) → IsTrueOf command (map S.text words.now) misuse) }
{
    let option = "--follow";
    if count_option(option, words) == 0 {
        if count_option("--round", words) > 0 {
            return Some(Misuse::RoundAlone);
        }
        return None;
    }
    for other in OPTIONS {
        if exclude_each_other(option, other) {
            if count_option(other, words) > 0 {
                return Some(Misuse::Conflict { option, other });
            }
        }
    }
    None
}

/// The path of a FILE of the command at this position, if its CPU isn't too high.
fn path_of<'a>(command: &str, position: u32, word: &'a str) -> Option<&'a str>
    ensures { result ≡ None → file_word position word.now ≡ None }
{
    if command == "collect" {
        match cpu_file(position, word) {
            Some(file) => Some(file.path),
            None => None,
        }
    } else {
        Some(word)
    }
}

/// What is the matter with words of which each option is known, given once, and followed by its value, if it takes one.
fn file_misuse<'a, S: AsStr>(command: &str, words: &'a [S]) -> Misuse<'a>
    ensures { IsTrueOf command.now (map S.text words.now) result }
{
    let has_files = takes_files(command);
    let mut position: u32 = 0;
    let mut has_input = false;
    let mut is_awaited = false;
    let mut is_ended = false;
    for word in words {
        let word = word.as_str();
        if !is_ended && begins_option(word) {
            is_ended = word == "--";
            is_awaited = is_valued(command, word);
            continue;
        }
        if is_awaited {
            is_awaited = false;
            continue;
        }
        if !has_files {
            return Misuse::Extra(word);
        }
        let Some(path) = path_of(command, position, word) else {
            return Misuse::BadCpu(word);
        };
        let is_input = is_input(path);
        if is_input && has_input {
            return Misuse::TwoInputs;
        }
        has_input = has_input || is_input;
        if position as usize == MAX_FILES {
            return Misuse::TooManyFiles;
        }
        position += 1;
    }
    if has_files && position == 0 {
        Misuse::NoFile
    } else {
        Misuse::Other
    }
}

/// What is the matter with the words behind a command.
fn misuse_of<'a, S: AsStr>(command: &str, words: &'a [S]) -> Misuse<'a>
    ensures { IsTrueOf command.now (map S.text words.now) result }
{
    if let Some(word) = unknown_option(command, words) {
        return Misuse::UnknownOption(word);
    }
    if let Some(word) = valued_flag(command, words) {
        return Misuse::Valued(word);
    }
    if let Some(word) = without_value(command, words) {
        return Misuse::NoValue(word);
    }
    if let Some(option) = repeated_option(words) {
        return Misuse::Twice(option);
    }
    if let Some(misuse) = bad_value(words) {
        return misuse;
    }
    if is_backwards(words) {
        return Misuse::Backwards;
    }
    if let Some(misuse) = follow_misuse(words) {
        return misuse;
    }
    file_misuse(command, words)
}

/// Why these words are refused: the one behind the program's own name, and those behind it.
fn cause_at<'a, S: AsStr>(word: &'a str, words: &'a [S]) -> Cause<'a>
    ensures { IsCauseAt word.now (map S.text words.now) result }
{
    if is_command(word) {
        let misuse = misuse_of(word, words);
        return Cause::Misused {
            command: word,
            misuse,
        };
    }
    if word == "--version" {
        Cause::VersionAndMore
    } else if begins_option(word) && word != "--" {
        Cause::NoSuchOption(word)
    } else {
        Cause::UnknownCommand(word)
    }
}

/// Why these words are refused, of which the first is the program's own name; there is none if it is alone. They are
/// words that [`call_of`](crate::call_of) refuses.
pub fn cause_of<'a, S: AsStr>(words: &'a [S]) -> Option<Cause<'a>>
    // What it says is true.
    ensures cause { IfSome result (λ cause. IsCauseOf (map S.text words.now) cause) }
    ensures none { result ≡ None → length words.now ≤ 1 }
{
    match words {
        [_, word, rest @ ..] => Some(cause_at(word.as_str(), rest)),
        _ => None,
    }
}
