//! What the matches of `collect` say of the part that is listed, and of names beside numbers.
ghost use Rattle.std.specs.Prelude.{◌≡◌, Err, IfOk, IfSome, None, Some, option_map};
ghost use Rattle.clap.specs.Words.{Text, first_of, found_of, rows_of};
ghost use Rattle.command_line.specs.Calls.{IsPartUnread, SaysNames, cpus_matched, event_matched, names_seen};
ghost use Rattle.command_line.specs.Calls.{path_matched, pids_matched, span_matched};
ghost use Rattle.command_line.specs.ListWords.{moment_in as moment_in_text, said_by};

use crate::call::{CallFault, NamesFrom};
use crate::collect::{matched_flag, matched_text};
use crate::lists::{cpu_list, pid_list};
use crate::values::{is_in_order, moment_in, path_in, pattern_in};
use clap::ArgMatches;
use std::alloc::Global;

/// Which records are listed.
#[derive(Debug, Drop)]
pub(crate) struct Part<'a> {
    /// The marks of CPUs.
    pub cpus: Option<Vec<bool>>,
    /// The first moment.
    pub since: Option<u64>,
    /// The last one.
    pub until: Option<u64>,
    /// The pattern of the events.
    pub event: Option<&'a str>,
    /// The processes.
    pub pids: Option<Vec<i32>>,
}

// The marks of CPUs.
fn matched_cpus(alloc: Global, found: &ArgMatches<'_>) -> Result<Option<Vec<bool>>, CallFault>
    ensures cpus { IfOk result (λ cpus.
        cpus_matched (rows_of (found_of found.now)) ≡ Some (option_map (λ m. m.items) cpus)) }
    ensures unread { result ≡ Err CallFault.Usage → cpus_matched (rows_of (found_of found.now)) ≡ None }
{
    let Some(text) = matched_text(found, "cpu") else {
        return Ok(None);
    };
    match cpu_list(alloc, text)? {
        Some(marks) => Ok(Some(marks)),
        None => Err(CallFault::Usage),
    }
}

// The processes.
fn matched_pids(alloc: Global, found: &ArgMatches<'_>) -> Result<Option<Vec<i32>>, CallFault>
    ensures pids { IfOk result (λ pids.
        pids_matched (rows_of (found_of found.now)) ≡ Some (option_map (λ p. p.items) pids)) }
    ensures unread { result ≡ Err CallFault.Usage → pids_matched (rows_of (found_of found.now)) ≡ None }
{
    let Some(text) = matched_text(found, "pid") else {
        return Ok(None);
    };
    match pid_list(alloc, text)? {
        Some(pids) => Ok(Some(pids)),
        None => Err(CallFault::Usage),
    }
}

// The moment of the option of this name, if it is given.
fn matched_moment(found: &ArgMatches<'_>, name: &str) -> Option<Option<u64>>
    ensures { result ≡ said_by moment_in_text (first_of name.now (rows_of (found_of found.now))) }
{
    match matched_text(found, name) {
        Some(text) => Some(Some(moment_in(text)?)),
        None => Some(None),
    }
}

// From when on and until when.
fn matched_span(found: &ArgMatches<'_>) -> Option<(Option<u64>, Option<u64>)>
    ensures { result ≡ span_matched (rows_of (found_of found.now)) }
{
    let since = matched_moment(found, "since")?;
    let until = matched_moment(found, "until")?;
    if is_in_order(since, until) {
        Some((since, until))
    } else {
        None
    }
}

// The pattern of the events.
fn matched_event<'a>(found: &ArgMatches<'a>) -> Option<Option<&'a str>>
    ensures { option_map (λ event. option_map (λ e. e.now) event) result
        ≡ event_matched (rows_of (found_of found.now)) }
{
    match matched_text(found, "event") {
        Some(text) => Some(Some(pattern_in(text)?)),
        None => Some(None),
    }
}

/// What the matches say of it.
pub(crate) fn matched_part<'a>(alloc: Global, found: &ArgMatches<'a>) -> Result<Part<'a>, CallFault>
    ensures cpus { IfOk result (λ part.
        cpus_matched (rows_of (found_of found.now)) ≡ Some (option_map (λ m. m.items) part.cpus)) }
    ensures span { IfOk result (λ part.
        span_matched (rows_of (found_of found.now)) ≡ Some (part.since, part.until)) }
    ensures event { IfOk result (λ part.
        event_matched (rows_of (found_of found.now)) ≡ Some (option_map (λ e. e.now) part.event)) }
    ensures pids { IfOk result (λ part.
        pids_matched (rows_of (found_of found.now)) ≡ Some (option_map (λ p. p.items) part.pids)) }
    ensures unread { result ≡ Err CallFault.Usage → IsPartUnread (rows_of (found_of found.now)) }
{
    let Some((since, until)) = matched_span(found) else {
        return Err(CallFault::Usage);
    };
    let Some(event) = matched_event(found) else {
        return Err(CallFault::Usage);
    };
    let cpus = matched_cpus(alloc, found)?;
    let pids = matched_pids(alloc, found)?;
    Ok(Part {
        cpus,
        since,
        until,
        event,
        pids,
    })
}

// The path of the option of this name, if it is given.
fn matched_path<'a>(found: &ArgMatches<'a>, name: &str) -> Option<Option<&'a str>>
    ensures { option_map (λ path. option_map (λ p. p.now) path) result
        ≡ path_matched name.now (rows_of (found_of found.now)) }
{
    match matched_text(found, name) {
        Some(text) => Some(Some(path_in(text)?)),
        None => Some(None),
    }
}

/// Where names are from that a flag asks for, or an option with a path.
pub(crate) fn matched_names<'a>(
    found: &ArgMatches<'a>,
    flag: &str,
    option: &str,
) -> Option<Option<NamesFrom<'a>>>
    ensures names { IfSome result (λ names.
        SaysNames (rows_of (found_of found.now)) flag.now option.now (option_map names_seen names)) }
    ensures unread { result ≡ None → path_matched option.now (rows_of (found_of found.now)) ≡ None }
{
    let is_given = matched_flag(found, flag);
    match matched_path(found, option)? {
        Some(path) => Some(Some(NamesFrom::File(path))),
        None if is_given => Some(Some(NamesFrom::Captures)),
        None => Some(None),
    }
}
