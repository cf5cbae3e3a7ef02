//! What the matches of `collect` ask for.
ghost use Rattle.std.specs.Prelude.{◌≡◌, ◌⊎◌, Some, None, Err, IfOk, codes, false, is_some, map, option_map};
ghost use Rattle.std.specs.Prelude.{true};
ghost use Rattle.clap.specs.Words.{first_of, found_of, one_of, rows_of};
ghost use Rattle.command_line.specs.Calls.{AreApart, AreUnread, AsksFor, asked_of, file_seen, files_matched};
ghost use Rattle.command_line.specs.Calls.{excludes_follow as excludes_follow_of, goes_together as goes_together_of};
ghost use Rattle.command_line.specs.Calls.{number_matched};
ghost use Rattle.command_line.specs.FileWords.{count_inputs, file_list};

use crate::call::{CallFault, CollectCall, CpuFile};
use crate::part::{matched_names, matched_part};
use crate::words::{MAX_PAGE, MAX_ROUND, MIN_PAGE, MIN_ROUND, cpu_file, is_input, number_said};
use clap::ArgMatches;
use std::alloc::Global;
use trace_model::MAX_CPUS;

// How many files are standard input.
fn inputs_in(files: &[CpuFile<'_>]) -> usize
    ensures { result ≡ count_inputs (map file_seen files.now) }
{
    let mut count = 0;
    for file in files {
        if is_input(file.path) {
            count += 1;
        }
    }
    count
}

// The CPUs and the paths of all FILEs.
fn files_of<'a>(alloc: Global, words: &[&'a str]) -> Result<Vec<CpuFile<'a>>, CallFault>
    ensures files { IfOk result (λ files.
        file_list (map (λ word. word.now) words.now) ≡ Some (map file_seen files.items)) }
    ensures unread { result ≡ Err CallFault.Usage → file_list (map (λ word. word.now) words.now) ≡ None }
{
    if words.is_empty() || words.len() > MAX_CPUS as usize {
        return Err(CallFault::Usage);
    }
    let mut files = Vec::new(alloc);
    let mut position = 0;
    for word in words {
        let Some(file) = cpu_file(position, word) else {
            return Err(CallFault::Usage);
        };
        files.push(file)?;
        position += 1;
    }
    if inputs_in(&files) > 1 {
        return Err(CallFault::Usage);
    }
    Ok(files)
}

// The number that the matches have for the option of this name, from `low` to `high`, if it is given.
fn matched_number(found: &ArgMatches<'_>, name: &str, low: u32, high: u32) -> Option<Option<u32>>
    ensures { result ≡ number_matched name.now low high (rows_of (found_of found.now)) }
{
    number_said(low, high, found.get_str(name))
}

// The files that they name.
fn matched_files<'a>(alloc: Global, found: &ArgMatches<'a>) -> Result<Vec<CpuFile<'a>>, CallFault>
    ensures files { IfOk result (λ files.
        files_matched (rows_of (found_of found.now)) ≡ Some (map file_seen files.items)) }
    ensures unread { result ≡ Err CallFault.Usage → files_matched (rows_of (found_of found.now)) ≡ None }
{
    match found.get_strs("file") {
        Some(words) => files_of(alloc, words),
        None => Err(CallFault::Usage),
    }
}

// The text of the option of this name.
pub(crate) fn matched_text<'a>(found: &ArgMatches<'a>, name: &str) -> Option<&'a str>
    ensures { option_map (λ text. text.now) result ≡ first_of name.now (rows_of (found_of found.now)) }
{
    found.get_str(name)
}

// Whether the flag of this name is given.
pub(crate) fn matched_flag(found: &ArgMatches<'_>, name: &str) -> bool
    ensures given { one_of name.now (rows_of (found_of found.now)) ≡ Some (codes "true") → result ≡ true }
    ensures not_given { one_of name.now (rows_of (found_of found.now)) ≡ Some (codes "false") → result ≡ false }
{
    found.get_flag(name)
}

// Whether the text of an option is there.
fn is_given(text: Option<&str>) -> bool
    ensures { result ≡ is_some (option_map (λ text. text.now) text.entry) }
{
    match text {
        Some(_) => true,
        None => false,
    }
}

// Whether something is asked for that isn't of files that are followed.
fn excludes_follow(call: &CollectCall<'_>) -> bool
    ensures { result ≡ excludes_follow_of (asked_of call.now) }
{
    call.since.is_some()
        || call.until.is_some()
        || is_given(call.instance)
        || is_given(call.keep)
        || call.parcels
}

// Whether all that is asked for goes together.
fn goes_together(call: &CollectCall<'_>) -> bool
    ensures { result ≡ goes_together_of (asked_of call.now) }
{
    if call.follow {
        !excludes_follow(call)
    } else {
        call.round.is_none()
    }
}

// What the matches say, whether it goes together or not.
fn said_call<'a>(alloc: Global, found: &ArgMatches<'a>) -> Result<CollectCall<'a>, CallFault>
    ensures asked { IfOk result (λ call. AsksFor (rows_of (found_of found.now)) (asked_of call)) }
    ensures unread { result ≡ Err CallFault.Usage → AreUnread (rows_of (found_of found.now)) }
{
    let Some(page) = matched_number(found, "page", MIN_PAGE, MAX_PAGE) else {
        return Err(CallFault::Usage);
    };
    let Some(tasks) = matched_names(found, "tasks", "tasks-from") else {
        return Err(CallFault::Usage);
    };
    let Some(symbols) = matched_names(found, "symbols", "symbols-from") else {
        return Err(CallFault::Usage);
    };
    let Some(round) = matched_number(found, "round", MIN_ROUND, MAX_ROUND) else {
        return Err(CallFault::Usage);
    };
    let part = matched_part(alloc, found)?;
    let files = matched_files(alloc, found)?;
    let fields = matched_flag(found, "fields") || symbols.is_some();
    let formats = matched_text(found, "formats");
    Ok(CollectCall {
        page,
        names: matched_flag(found, "names") || fields || formats.is_some() || tasks.is_some(),
        fields,
        tasks,
        symbols,
        json: matched_flag(found, "json"),
        formats,
        instance: matched_text(found, "instance"),
        cpus: part.cpus,
        since: part.since,
        until: part.until,
        event: part.event,
        pids: part.pids,
        keep: matched_text(found, "keep"),
        parcels: matched_flag(found, "parcels"),
        follow: matched_flag(found, "follow"),
        round,
        files,
    })
}

/// What the matches of `collect` ask for.
pub(crate) fn collect_call<'a>(
    alloc: Global,
    found: &ArgMatches<'a>,
) -> Result<CollectCall<'a>, CallFault>
    ensures asked { IfOk result (λ call. AsksFor (rows_of (found_of found.now)) (asked_of call)) }
    ensures together { IfOk result (λ call. goes_together_of (asked_of call) ≡ true) }
    ensures unread { result ≡ Err CallFault.Usage
        → AreUnread (rows_of (found_of found.now)) ⊎ AreApart (rows_of (found_of found.now)) }
{
    let call = said_call(alloc, found)?;
    if goes_together(&call) {
        Ok(call)
    } else {
        Err(CallFault::Usage)
    }
}
