//! How lists of CPUs and of processes are read. Commas are between their parts, and nothing else.
ghost use Rattle.std.specs.Prelude.{◌≡◌, ◌<◌, ◌∷◌, IfOk, IfSome, MatchOption, None, is_some, length, option_map};
ghost use Rattle.std.specs.List.{position as first_place};
ghost use Rattle.command_line.specs.FileWords.{IsSplitAt};
ghost use Rattle.command_line.specs.ListWords.{cpu_list as cpu_list_of, is_comma, is_cpu_list as is_cpu_list_text};
ghost use Rattle.command_line.specs.ListWords.{is_hyphen, is_listed as is_listed_in, is_within as is_within_range};
ghost use Rattle.command_line.specs.ListWords.{marks_from, parts_behind, parts_of, pid_in as pid_in_part};
ghost use Rattle.command_line.specs.ListWords.{pid_list as pid_list_of, range_in as range_in_part};

use crate::words::number_in;
use std::alloc::{AllocError, Global};
use trace_model::MAX_CPUS;

/// The highest number of a process.
const MAX_PID: u32 = 2147483647;

/// What is before the first comma, and after it.
fn split_at_comma(list: &str) -> Option<(&str, &str)>
    ensures cut { MatchOption result (first_place is_comma list.now ≡ None)
        (λ parts. IsSplitAt is_comma list.now parts.0.now parts.1.now) }
    ensures shorter { IfSome result (λ parts. length parts.1.now < length list.now) }
{
    list.split_once(',')
}

/// What is before the first hyphen, and after it.
fn split_at_hyphen(part: &str) -> Option<(&str, &str)>
    ensures { MatchOption result (first_place is_hyphen part.now ≡ None)
        (λ parts. IsSplitAt is_hyphen part.now parts.0.now parts.1.now) }
{
    part.split_once('-')
}

/// The first part of a list, and what is behind the comma that follows, if one does.
fn first_part(list: &str) -> (&str, Option<&str>)
    ensures parts { parts_of list.now ≡ result.0.now ∷ parts_behind (option_map (λ t. t.now) result.1) }
    ensures shorter { IfSome result.1 (λ rest. length rest.now < length list.now) }
{
    match split_at_comma(list) {
        Some((part, rest)) => (part, Some(rest)),
        None => (list, None),
    }
}

/// The first and the last CPU of a part.
fn range_in(part: &str) -> Option<(u32, u32)>
    ensures { result ≡ range_in_part part.now }
{
    match split_at_hyphen(part) {
        Some((first, last)) => {
            let first = number_in(0, MAX_CPUS - 1, first)?;
            let last = number_in(first, MAX_CPUS - 1, last)?;
            Some((first, last))
        }
        None => {
            let cpu = number_in(0, MAX_CPUS - 1, part)?;
            Some((cpu, cpu))
        }
    }
}

/// Whether a text is a list of CPUs.
pub(crate) fn is_cpu_list(list: &str) -> bool
    ensures { result ≡ is_cpu_list_text list.now }
{
    let mut left = Some(list);
    while let Some(text) = left {
        let (part, rest) = first_part(text);
        if range_in(part).is_none() {
            return false;
        }
        left = rest;
    }
    true
}

/// Whether a CPU is in a range.
fn is_within(cpu: u32, range: Option<(u32, u32)>) -> bool
    ensures { result ≡ is_within_range cpu range }
{
    match range {
        Some((first, last)) => first <= cpu && cpu <= last,
        None => false,
    }
}

/// Whether a list has a CPU.
fn is_listed(list: &str, cpu: u32) -> bool
    ensures { result ≡ is_listed_in list.now cpu }
{
    let mut left = Some(list);
    while let Some(text) = left {
        let (part, rest) = first_part(text);
        if is_within(cpu, range_in(part)) {
            return true;
        }
        left = rest;
    }
    false
}

/// The marks of all CPUs that there can be, by a list of them.
fn marks_of(alloc: Global, list: &str) -> Result<Vec<bool>, AllocError>
    ensures { IfOk result (λ marks. marks.items ≡ marks_from list.now 0 MAX_CPUS) }
{
    let mut marks = Vec::new(alloc);
    for cpu in 0..MAX_CPUS {
        marks.push(is_listed(list, cpu))?;
    }
    Ok(marks)
}

/// The marks of the CPUs of a list, if the text is one.
pub(crate) fn cpu_list(alloc: Global, list: &str) -> Result<Option<Vec<bool>>, AllocError>
    ensures { IfOk result (λ marks. option_map (λ m. m.items) marks ≡ cpu_list_of list.now) }
{
    if !is_cpu_list(list) {
        return Ok(None);
    }
    Ok(Some(marks_of(alloc, list)?))
}

/// The process of a part.
fn pid_in(part: &str) -> Option<i32>
    ensures { result ≡ pid_in_part part.now }
{
    match number_in(0, MAX_PID, part) {
        Some(pid) => Some(pid as i32),
        None => None,
    }
}

/// Whether a text is a list of processes.
pub(crate) fn is_pid_list(list: &str) -> bool
    ensures { result ≡ is_some (pid_list_of list.now) }
{
    let mut left = Some(list);
    while let Some(text) = left {
        let (part, rest) = first_part(text);
        if pid_in(part).is_none() {
            return false;
        }
        left = rest;
    }
    true
}

/// The processes of a list, if the text is one.
pub(crate) fn pid_list(alloc: Global, list: &str) -> Result<Option<Vec<i32>>, AllocError>
    ensures { IfOk result (λ pids. option_map (λ p. p.items) pids ≡ pid_list_of list.now) }
{
    let mut pids = Vec::new(alloc);
    let mut left = Some(list);
    while let Some(text) = left {
        let (part, rest) = first_part(text);
        let Some(pid) = pid_in(part) else {
            return Ok(None);
        };
        pids.push(pid)?;
        left = rest;
    }
    Ok(Some(pids))
}
