//! The parse of the program's command line.
ghost use Rattle.std.specs.Prelude.{◌≡◌, ◌≢◌, ◌⊎◌, ℕ, List, ◌∷◌, [], map, codes, Some, None, Ok, Err, IfOk, IfSome};
ghost use Rattle.std.specs.Prelude.{true, false};
ghost use Rattle.clap.specs.declared.builder.command.Command.TheViews.{out-Command as fields_of};
ghost use Rattle.clap.specs.Words.{HasMatchesOf, Text, app_of, new_app, subcommand_name_of, subcommand_rows_of};
ghost use Rattle.clap.specs.Words.{with_rule, with_subcommand};
ghost use Rattle.std.specs.Prelude.{pos};
ghost use Rattle.trace_model.specs.declared.limits.TheConstants.{MAX_CPUS};
ghost use Rattle.command_line.specs.Calls.{IsAsked, IsAskedToRecover, IsInRange, without_options};
ghost use Rattle.command_line.specs.ListWords.{marks_from};
ghost use Rattle.command_line.specs.declared.call.CollectCall.{CollectCall};
ghost use Rattle.command_line.specs.CommandLine.{HasSource, IsAccepted, IsCallOf, IsParseOf, collect_command};
ghost use Rattle.command_line.specs.CommandLine.{collect_commands, collect_options, command_line, first_command};
ghost use Rattle.command_line.specs.CommandLine.{flag_rule, flag_text, follow_options, has_help_word, image_commands};
ghost use Rattle.command_line.specs.CommandLine.{is_help, is_version, name_of, naming_options, option_rule};
ghost use Rattle.command_line.specs.CommandLine.{part_options, reading_options, recover_command, script_commands};
ghost use Rattle.command_line.specs.CommandLine.{span_options, values_rule};

use crate::call::{Call, CallFault};
use crate::collect::collect_call;
use crate::recover::recover_call;
use clap::{Arg, ArgAction, ArgMatches, Command};
use std::alloc::{AllocError, Global};
use std::convert::AsStr;

/// The command with one flag more, of this name.
fn with_flag<'a>(
    alloc: Global,
    command: Command<'a>,
    name: &'a str,
) -> Result<Command<'a>, AllocError>
    ensures added { IfOk result (λ more.
        app_of more ≡ with_rule (app_of command.entry) (flag_rule name.entry.now)) }
    ensures local { (fields_of command.entry).has_globals ≡ false
        → IfOk result (λ more. (fields_of more).has_globals ≡ false) }
{
    let flag = Arg::new(alloc, name).long(name).action(ArgAction::SetTrue);
    command.arg(flag)
}

/// The command with one option more, of this name, which takes a value.
fn with_option<'a>(
    alloc: Global,
    command: Command<'a>,
    name: &'a str,
) -> Result<Command<'a>, AllocError>
    ensures added { IfOk result (λ more.
        app_of more ≡ with_rule (app_of command.entry) (option_rule name.entry.now)) }
    ensures local { (fields_of command.entry).has_globals ≡ false
        → IfOk result (λ more. (fields_of more).has_globals ≡ false) }
{
    let option = Arg::new(alloc, name).long(name).action(ArgAction::Set);
    command.arg(option)
}

/// The command with values without a name, of which there is one at least.
fn with_values<'a>(
    alloc: Global,
    command: Command<'a>,
    name: &'a str,
) -> Result<Command<'a>, AllocError>
    ensures added { IfOk result (λ more.
        app_of more ≡ with_rule (app_of command.entry) (values_rule name.entry.now)) }
    ensures local { (fields_of command.entry).has_globals ≡ false
        → IfOk result (λ more. (fields_of more).has_globals ≡ false) }
{
    let values = Arg::new(alloc, name)
        .required(true)
        .action(ArgAction::Append);
    command.arg(values)
}

/// The program with one command more, of this name, which takes no words.
fn with_command<'a>(
    alloc: Global,
    program: Command<'a>,
    name: &'a str,
) -> Result<Command<'a>, AllocError>
    ensures { IfOk result (λ more.
        app_of more ≡ with_subcommand (app_of program.entry) (new_app name.entry.now).top) }
{
    program.subcommand(Command::new(alloc, name))
}

// What follows makes the program command by command. A `?` costs its proof least where few values are held, so each
// function has few of both.

/// The program with its first command, `replay`, which takes `--log`.
fn replay_program<'a>(alloc: Global) -> Result<Command<'a>, AllocError>
    ensures { IfOk result (λ program. app_of program ≡ first_command) }
{
    let replay = with_flag(alloc, Command::new(alloc, "replay"), "log")?;
    Command::new(alloc, "tracering").subcommand(replay)
}

/// The program with its three commands that carry out a script.
fn script_program<'a>(alloc: Global) -> Result<Command<'a>, AllocError>
    ensures { IfOk result (λ program. app_of program ≡ script_commands) }
{
    let running = with_command(alloc, replay_program(alloc)?, "run")?;
    with_command(alloc, running, "steps")
}

/// The program with `dump` too.
fn image_program<'a>(alloc: Global) -> Result<Command<'a>, AllocError>
    ensures { IfOk result (λ program. app_of program ≡ image_commands) }
{
    with_command(alloc, script_program(alloc)?, "dump")
}

/// The command `collect` with what says how its files are read.
fn reading_program<'a>(alloc: Global) -> Result<Command<'a>, AllocError>
    ensures options { IfOk result (λ program. app_of program ≡ reading_options) }
    ensures local { IfOk result (λ program. (fields_of program).has_globals ≡ false) }
{
    let paged = with_option(alloc, Command::new(alloc, "collect"), "page")?;
    let named = with_flag(alloc, paged, "names")?;
    let fielded = with_flag(alloc, named, "fields")?;
    with_option(alloc, fielded, "formats")
}

/// The command `collect` with what asks for names beside numbers too.
fn naming_program<'a>(alloc: Global) -> Result<Command<'a>, AllocError>
    ensures options { IfOk result (λ program. app_of program ≡ naming_options) }
    ensures local { IfOk result (λ program. (fields_of program).has_globals ≡ false) }
{
    let tasked = with_flag(alloc, reading_program(alloc)?, "tasks")?;
    let listed = with_option(alloc, tasked, "tasks-from")?;
    let symbolic = with_flag(alloc, listed, "symbols")?;
    with_option(alloc, symbolic, "symbols-from")
}

/// The command `collect` with what says from where and when the records are too.
fn span_program<'a>(alloc: Global) -> Result<Command<'a>, AllocError>
    ensures options { IfOk result (λ program. app_of program ≡ span_options) }
    ensures local { IfOk result (λ program. (fields_of program).has_globals ≡ false) }
{
    let placed = with_option(alloc, naming_program(alloc)?, "instance")?;
    let marked = with_option(alloc, placed, "cpu")?;
    let begun = with_option(alloc, marked, "since")?;
    with_option(alloc, begun, "until")
}

/// The command `collect` with what says which events and processes they are of too.
fn part_program<'a>(alloc: Global) -> Result<Command<'a>, AllocError>
    ensures options { IfOk result (λ program. app_of program ≡ part_options) }
    ensures local { IfOk result (λ program. (fields_of program).has_globals ≡ false) }
{
    let matching = with_option(alloc, span_program(alloc)?, "event")?;
    with_option(alloc, matching, "pid")
}

/// The command `collect` with its options and flags.
fn collect_program<'a>(alloc: Global) -> Result<Command<'a>, AllocError>
    ensures options { IfOk result (λ program. app_of program ≡ collect_options) }
    ensures local { IfOk result (λ program. (fields_of program).has_globals ≡ false) }
{
    let formed = with_flag(alloc, part_program(alloc)?, "json")?;
    let kept = with_option(alloc, formed, "keep")?;
    with_flag(alloc, kept, "parcels")
}

/// The command `collect` with what says that its files are read while they are written too.
fn follow_program<'a>(alloc: Global) -> Result<Command<'a>, AllocError>
    ensures options { IfOk result (λ program. app_of program ≡ follow_options) }
    ensures local { IfOk result (λ program. (fields_of program).has_globals ≡ false) }
{
    let followed = with_flag(alloc, collect_program(alloc)?, "follow")?;
    with_option(alloc, followed, "round")
}

/// The command `collect` with its files too.
fn filed_program<'a>(alloc: Global) -> Result<Command<'a>, AllocError>
    ensures command { IfOk result (λ program. app_of program ≡ collect_command) }
    ensures local { IfOk result (λ program. (fields_of program).has_globals ≡ false) }
{
    with_values(alloc, follow_program(alloc)?, "file")
}

/// The program with `collect` too.
fn collecting_program<'a>(alloc: Global) -> Result<Command<'a>, AllocError>
    ensures { IfOk result (λ program. app_of program ≡ collect_commands) }
{
    let collect = filed_program(alloc)?;
    image_program(alloc)?.subcommand(collect)
}

/// The command `recover` with its flag, its option and its files.
fn recover_program<'a>(alloc: Global) -> Result<Command<'a>, AllocError>
    ensures command { IfOk result (λ program. app_of program ≡ recover_command) }
    ensures local { IfOk result (λ program. (fields_of program).has_globals ≡ false) }
{
    let flagged = with_flag(alloc, Command::new(alloc, "recover"), "json")?;
    let kept = with_option(alloc, flagged, "keep")?;
    with_values(alloc, kept, "file")
}

/// The program with its six commands.
fn program<'a>(alloc: Global) -> Result<Command<'a>, AllocError>
    ensures { IfOk result (λ program. app_of program ≡ command_line) }
{
    let recover = recover_program(alloc)?;
    collecting_program(alloc)?.subcommand(recover)
}

/// The call that these matches make, if they make one other than `collect` and `recover`.
fn call_of_matches<'a>(matches: &ArgMatches<'a>) -> Option<Call<'a>>
    ensures named { IfSome result (λ call.
        HasSource call × (subcommand_name_of matches.now ≡ Some (name_of call))) }
    ensures none { result ≡ None → (subcommand_name_of matches.now ≢ Some (codes "replay"))
        × (subcommand_name_of matches.now ≢ Some (codes "run"))
        × (subcommand_name_of matches.now ≢ Some (codes "steps"))
        × (subcommand_name_of matches.now ≢ Some (codes "dump")) }
    ensures log { flag_text (subcommand_rows_of matches.now) ≡ Some (codes "true")
        → result ≢ Some (Call.Replay false) }
    ensures no_log { flag_text (subcommand_rows_of matches.now) ≡ Some (codes "false")
        → result ≢ Some (Call.Replay true) }
{
    if let Some(found) = matches.subcommand_matches("replay") {
        let log = found.get_flag("log");
        return Some(Call::Replay { log });
    }
    if matches.subcommand_matches("run").is_some() {
        return Some(Call::Run);
    }
    if matches.subcommand_matches("steps").is_some() {
        return Some(Call::Steps);
    }
    matches.subcommand_matches("dump").map(|_| Call::Dump)
}

/// The call that these matches make, if they make one other than `collect`.
fn other_call<'a>(alloc: Global, matches: &ArgMatches<'a>) -> Result<Call<'a>, CallFault>
    ensures { (words : List Text) → HasMatchesOf command_line words matches.now → IsAccepted words
        → subcommand_name_of matches.now ≢ Some (codes "collect") → IsParseOf words result }
{
    match matches.subcommand_matches("recover") {
        Some(found) => match recover_call(alloc, found) {
            Ok(call) => Ok(Call::Recover(call)),
            Err(fault) => Err(fault),
        },
        None => call_of_matches(matches).ok_or(CallFault::Usage),
    }
}

/// The parse of the words.
fn parse_words<'a, S: AsStr>(alloc: Global, words: &'a [S]) -> Result<Call<'a>, CallFault>
    ensures { IsParseOf (map S.text words.now) result }
{
    let matches = program(alloc)?.try_get_matches_from(words)?;
    match matches.subcommand_matches("collect") {
        Some(found) => match collect_call(alloc, found) {
            Ok(call) => Ok(Call::Collect(call)),
            Err(fault) => Err(fault),
        },
        None => other_call(alloc, &matches),
    }
}

/// Whether the words ask for the version: one follows the program's name, and it is `--version`.
fn asks_for_version<S: AsStr>(words: &[S]) -> bool
    ensures { result ≡ is_version (map S.text words.now) }
{
    match words {
        [_, word] => word.as_str() == "--version",
        _ => false,
    }
}

/// Whether one of these words, of those before `--` if that is there, asks for help.
fn has_help<S: AsStr>(words: &[S]) -> bool
    ensures { result ≡ has_help_word (map S.text words.now) }
{
    for word in words {
        let word = word.as_str();
        if word == "--" {
            return false;
        }
        if word == "--help" || word == "-h" {
            return true;
        }
    }
    false
}

/// Whether the words ask for help: `help` follows the program's name, or `--help` or `-h` is before `--`.
fn asks_for_help<S: AsStr>(words: &[S]) -> bool
    ensures { result ≡ is_help (map S.text words.now) }
{
    match words {
        [_, word, ..] if word.as_str() == "help" => true,
        [_, words @ ..] => has_help(words),
        [] => false,
    }
}

/// The call that the words make: that for the version or the help, or else what their parse finds.
fn read_words<'a, S: AsStr>(alloc: Global, words: &'a [S]) -> Result<Call<'a>, CallFault>
    ensures { IsCallOf (map S.text words.now) result }
{
    if asks_for_version(words) {
        return Ok(Call::Version);
    }
    if asks_for_help(words) {
        return Ok(Call::Help);
    }
    parse_words(alloc, words)
}

/// What these words ask for. The first is the program's own name, whatever it is.
pub fn call_of<'a, S: AsStr>(alloc: Global, words: &'a [S]) -> Result<Call<'a>, CallFault>
    // Except that memory may be refused, it is the version, the help, or what the parse of the words finds.
    ensures call { IsCallOf (map S.text words.now) result }
    ensures in_range { (asked : CollectCall) → result ≡ Ok (Call.Collect asked) → IsInRange asked }

    // Such as the words of the program, its command and the flag.
    ensures replay { (first : List ℕ) → map S.text words.now ≡ first ∷ codes "replay" ∷ []
        → (result ≡ Ok (Call.Replay false)) ⊎ (result ≡ Err CallFault.NoMemory) }
    ensures replay_log { (first : List ℕ)
        → map S.text words.now ≡ first ∷ codes "replay" ∷ codes "--log" ∷ []
        → (result ≡ Ok (Call.Replay true)) ⊎ (result ≡ Err CallFault.NoMemory) }
    ensures run { (first : List ℕ) → map S.text words.now ≡ first ∷ codes "run" ∷ []
        → (result ≡ Ok Call.Run) ⊎ (result ≡ Err CallFault.NoMemory) }
    ensures run_log { (first : List ℕ)
        → map S.text words.now ≡ first ∷ codes "run" ∷ codes "--log" ∷ []
        → (result ≡ Err CallFault.Usage) ⊎ (result ≡ Err CallFault.NoMemory) }
    ensures steps { (first : List ℕ) → map S.text words.now ≡ first ∷ codes "steps" ∷ []
        → (result ≡ Ok Call.Steps) ⊎ (result ≡ Err CallFault.NoMemory) }
    ensures dump { (first : List ℕ) → map S.text words.now ≡ first ∷ codes "dump" ∷ []
        → (result ≡ Ok Call.Dump) ⊎ (result ≡ Err CallFault.NoMemory) }
    ensures dump_log { (first : List ℕ)
        → map S.text words.now ≡ first ∷ codes "dump" ∷ codes "--log" ∷ []
        → (result ≡ Err CallFault.Usage) ⊎ (result ≡ Err CallFault.NoMemory) }

    // Or of `collect`, with files alone, a CPU and standard input, flags, a size of a page, formats, a file for what is
    // new, rounds, files of names, and a part that is listed.
    ensures collect { (first : List ℕ)
        → map S.text words.now ≡ first ∷ codes "collect" ∷ codes "a" ∷ codes "b" ∷ []
        → IsAsked result (without_options ((0, codes "a") ∷ (1, codes "b") ∷ [])) }
    ensures collect_cpu { (first : List ℕ)
        → map S.text words.now ≡ first ∷ codes "collect" ∷ codes "3=a" ∷ codes "-" ∷ []
        → IsAsked result (without_options ((3, codes "a") ∷ (1, codes "-") ∷ [])) }
    ensures collect_flags { (first : List ℕ)
        → map S.text words.now
        ≡ first ∷ codes "collect" ∷ codes "--json" ∷ codes "--names" ∷ codes "a" ∷ []
        → IsAsked result (record (without_options ((0, codes "a") ∷ [])) { names = true; json = true }) }
    ensures collect_fields { (first : List ℕ)
        → map S.text words.now ≡ first ∷ codes "collect" ∷ codes "--fields" ∷ codes "a" ∷ []
        → IsAsked result (record (without_options ((0, codes "a") ∷ [])) { names = true; fields = true }) }
    ensures collect_page { (first : List ℕ)
        → map S.text words.now ≡ first ∷ codes "collect" ∷ codes "--page" ∷ codes "8192" ∷ codes "a" ∷ []
        → IsAsked result (record (without_options ((0, codes "a") ∷ [])) { page = Some 8192 }) }
    ensures collect_formats { (first : List ℕ)
        → map S.text words.now
        ≡ first ∷ codes "collect" ∷ codes "a" ∷ codes "--formats" ∷ codes "d" ∷ codes "b" ∷ []
        → IsAsked result (record (without_options ((0, codes "a") ∷ (1, codes "b") ∷ [])) {
          names = true;
          formats = Some (codes "d");
        }) }
    ensures collect_keep { (first : List ℕ)
        → map S.text words.now
        ≡ first ∷ codes "collect" ∷ codes "--keep" ∷ codes "k" ∷ codes "--json" ∷ codes "a" ∷ []
        → IsAsked result (record (without_options ((0, codes "a") ∷ [])) { json = true; keep = Some (codes "k") }) }
    ensures collect_parcels { (first : List ℕ)
        → map S.text words.now ≡ first ∷ codes "collect" ∷ codes "--parcels" ∷ codes "a" ∷ []
        → IsAsked result (record (without_options ((0, codes "a") ∷ [])) { parcels = true }) }
    ensures collect_follow { (first : List ℕ)
        → map S.text words.now
        ≡ first ∷ codes "collect" ∷ codes "--follow" ∷ codes "--round" ∷ codes "250" ∷ codes "a" ∷ []
        → IsAsked result (record (without_options ((0, codes "a") ∷ [])) { follow = true; round = Some 250 }) }
    ensures collect_tasks { (first : List ℕ)
        → map S.text words.now
        ≡ first ∷ codes "collect" ∷ codes "--tasks" ∷ codes "--symbols-from" ∷ codes "k" ∷ codes "a" ∷ []
        → IsAsked result (record (without_options ((0, codes "a") ∷ [])) {
          names = true;
          fields = true;
          tasks = Some None;
          symbols = Some (Some (codes "k"));
        }) }
    ensures collect_symbols { (first : List ℕ)
        → map S.text words.now
        ≡ first ∷ codes "collect" ∷ codes "--symbols" ∷ codes "--tasks-from" ∷ codes "t" ∷ codes "a" ∷ []
        → IsAsked result (record (without_options ((0, codes "a") ∷ [])) {
          names = true;
          fields = true;
          tasks = Some (Some (codes "t"));
          symbols = Some None;
        }) }
    ensures collect_part { (first : List ℕ)
        → map S.text words.now
        ≡ first ∷ codes "collect" ∷ codes "--cpu" ∷ codes "0,2-4" ∷ codes "--event" ∷ codes "s*"
        ∷ codes "--pid" ∷ codes "1,42" ∷ codes "a" ∷ []
        → IsAsked result (record (without_options ((0, codes "a") ∷ [])) {
          cpus = Some (marks_from (codes "0,2-4") 0 MAX_CPUS);
          event = Some (codes "s*");
          pids = Some (pos 1 ∷ pos 42 ∷ []);
        }) }
    ensures collect_span { (first : List ℕ)
        → map S.text words.now
        ≡ first ∷ codes "collect" ∷ codes "--instance" ∷ codes "i" ∷ codes "--since" ∷ codes "5"
        ∷ codes "--until" ∷ codes "9" ∷ codes "a" ∷ []
        → IsAsked result (record (without_options ((0, codes "a") ∷ [])) {
          instance = Some (codes "i");
          since = Some 5;
          until = Some 9;
        }) }
    ensures collect_dashes { (first : List ℕ)
        → map S.text words.now ≡ first ∷ codes "collect" ∷ codes "--" ∷ codes "--help" ∷ []
        → IsAsked result (without_options ((0, codes "--help") ∷ [])) }
    ensures collect_none { (first : List ℕ) → map S.text words.now ≡ first ∷ codes "collect" ∷ []
        → (result ≡ Err CallFault.Usage) ⊎ (result ≡ Err CallFault.NoMemory) }
    ensures collect_high { (first : List ℕ)
        → map S.text words.now ≡ first ∷ codes "collect" ∷ codes "256=a" ∷ []
        → (result ≡ Err CallFault.Usage) ⊎ (result ≡ Err CallFault.NoMemory) }
    ensures collect_inputs { (first : List ℕ)
        → map S.text words.now ≡ first ∷ codes "collect" ∷ codes "-" ∷ codes "3=-" ∷ []
        → (result ≡ Err CallFault.Usage) ⊎ (result ≡ Err CallFault.NoMemory) }
    ensures collect_small { (first : List ℕ)
        → map S.text words.now ≡ first ∷ codes "collect" ∷ codes "--page" ∷ codes "47" ∷ codes "a" ∷ []
        → (result ≡ Err CallFault.Usage) ⊎ (result ≡ Err CallFault.NoMemory) }
    ensures collect_falling { (first : List ℕ)
        → map S.text words.now ≡ first ∷ codes "collect" ∷ codes "--cpu" ∷ codes "4-2" ∷ codes "a" ∷ []
        → (result ≡ Err CallFault.Usage) ⊎ (result ≡ Err CallFault.NoMemory) }
    ensures collect_backwards { (first : List ℕ)
        → map S.text words.now
        ≡ first ∷ codes "collect" ∷ codes "--since" ∷ codes "9" ∷ codes "--until" ∷ codes "5" ∷ codes "a" ∷ []
        → (result ≡ Err CallFault.Usage) ⊎ (result ≡ Err CallFault.NoMemory) }
    ensures collect_empty_pid { (first : List ℕ)
        → map S.text words.now ≡ first ∷ codes "collect" ∷ codes "--pid" ∷ codes "1,,2" ∷ codes "a" ∷ []
        → (result ≡ Err CallFault.Usage) ⊎ (result ≡ Err CallFault.NoMemory) }

    ensures collect_no_round { (first : List ℕ)
        → map S.text words.now
        ≡ first ∷ codes "collect" ∷ codes "--follow" ∷ codes "--round" ∷ codes "0" ∷ codes "a" ∷ []
        → (result ≡ Err CallFault.Usage) ⊎ (result ≡ Err CallFault.NoMemory) }
    ensures collect_follow_since { (first : List ℕ)
        → map S.text words.now
        ≡ first ∷ codes "collect" ∷ codes "--since" ∷ codes "5" ∷ codes "--follow" ∷ codes "a" ∷ []
        → (result ≡ Err CallFault.Usage) ⊎ (result ≡ Err CallFault.NoMemory) }
    ensures collect_round { (first : List ℕ)
        → map S.text words.now ≡ first ∷ codes "collect" ∷ codes "--round" ∷ codes "250" ∷ codes "a" ∷ []
        → (result ≡ Err CallFault.Usage) ⊎ (result ≡ Err CallFault.NoMemory) }

    // Or of `recover`, with files alone, whose words are their paths as they are, with standard input, the flag and a
    // file for what is new.
    ensures recover { (first : List ℕ)
        → map S.text words.now ≡ first ∷ codes "recover" ∷ codes "3=a" ∷ codes "b" ∷ []
        → IsAskedToRecover result (record {
          json = false;
          keep = None;
          files = codes "3=a" ∷ codes "b" ∷ [];
        }) }
    ensures recover_keep { (first : List ℕ)
        → map S.text words.now
        ≡ first ∷ codes "recover" ∷ codes "--json" ∷ codes "-" ∷ codes "--keep" ∷ codes "k" ∷ []
        → IsAskedToRecover result (record {
          json = true;
          keep = Some (codes "k");
          files = codes "-" ∷ [];
        }) }
    ensures recover_none { (first : List ℕ) → map S.text words.now ≡ first ∷ codes "recover" ∷ []
        → (result ≡ Err CallFault.Usage) ⊎ (result ≡ Err CallFault.NoMemory) }
    ensures recover_inputs { (first : List ℕ)
        → map S.text words.now ≡ first ∷ codes "recover" ∷ codes "-" ∷ codes "-" ∷ []
        → (result ≡ Err CallFault.Usage) ⊎ (result ≡ Err CallFault.NoMemory) }
    ensures recover_page { (first : List ℕ)
        → map S.text words.now ≡ first ∷ codes "recover" ∷ codes "--page" ∷ codes "64" ∷ codes "a" ∷ []
        → (result ≡ Err CallFault.Usage) ⊎ (result ≡ Err CallFault.NoMemory) }

    // Or of the version alone, which no other word may follow or precede.
    ensures version { (first : List ℕ) → map S.text words.now ≡ first ∷ codes "--version" ∷ []
        → result ≡ Ok Call.Version }
    ensures version_and_more { (first : List ℕ)
        → map S.text words.now ≡ first ∷ codes "--version" ∷ codes "replay" ∷ []
        → (result ≡ Err CallFault.Usage) ⊎ (result ≡ Err CallFault.NoMemory) }
    ensures replay_version { (first : List ℕ)
        → map S.text words.now ≡ first ∷ codes "replay" ∷ codes "--version" ∷ []
        → (result ≡ Err CallFault.Usage) ⊎ (result ≡ Err CallFault.NoMemory) }

    // Or of the help, whatever else there is, but `--` before it.
    ensures help { (first : List ℕ) → map S.text words.now ≡ first ∷ codes "--help" ∷ [] → result ≡ Ok Call.Help }
    ensures help_short { (first : List ℕ) → map S.text words.now ≡ first ∷ codes "-h" ∷ [] → result ≡ Ok Call.Help }
    ensures help_of_collect { (first : List ℕ)
        → map S.text words.now ≡ first ∷ codes "collect" ∷ codes "--help" ∷ [] → result ≡ Ok Call.Help }
    ensures help_and_more { (first : List ℕ)
        → map S.text words.now ≡ first ∷ codes "collect" ∷ codes "--page" ∷ codes "47" ∷ codes "-h" ∷ []
        → result ≡ Ok Call.Help }
    ensures help_word { (first : List ℕ)
        → map S.text words.now ≡ first ∷ codes "help" ∷ codes "collect" ∷ [] → result ≡ Ok Call.Help }
    ensures version_and_help { (first : List ℕ)
        → map S.text words.now ≡ first ∷ codes "--version" ∷ codes "--help" ∷ [] → result ≡ Ok Call.Help }
{
    read_words(alloc, words)
}
