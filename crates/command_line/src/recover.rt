//! What the matches of `recover` ask for.
ghost use Rattle.std.specs.Prelude.{◌≡◌, Some, None, Err, IfOk, map};
ghost use Rattle.clap.specs.Words.{found_of, rows_of};
ghost use Rattle.command_line.specs.Calls.{AsksToRecover, recovering_of, regions_matched};
ghost use Rattle.command_line.specs.FileWords.{count_input_paths, path_list};

use crate::call::{CallFault, RecoverCall};
use crate::collect::{matched_flag, matched_text};
use crate::words::{MAX_FILES, is_input};
use clap::ArgMatches;
use std::alloc::Global;

// How many paths are those of standard input.
fn inputs_in(paths: &[&str]) -> usize
    ensures { result ≡ count_input_paths (map (λ path. path.now) paths.now) }
{
    let mut count = 0;
    for path in paths {
        if is_input(path) {
            count += 1;
        }
    }
    count
}

// The paths that the words are.
fn paths_of<'a>(alloc: Global, words: &[&'a str]) -> Result<Vec<&'a str>, CallFault>
    ensures paths { IfOk result (λ paths.
        path_list (map (λ word. word.now) words.now) ≡ Some (map (λ path. path.now) paths.items)) }
    ensures unread { result ≡ Err CallFault.Usage → path_list (map (λ word. word.now) words.now) ≡ None }
{
    if words.is_empty() || words.len() > MAX_FILES || inputs_in(words) > 1 {
        return Err(CallFault::Usage);
    }
    Ok(words.to_vec(alloc)?)
}

// The paths that the matches name.
fn matched_paths<'a>(alloc: Global, found: &ArgMatches<'a>) -> Result<Vec<&'a str>, CallFault>
    ensures paths { IfOk result (λ paths.
        regions_matched (rows_of (found_of found.now)) ≡ Some (map (λ path. path.now) paths.items)) }
    ensures unread { result ≡ Err CallFault.Usage → regions_matched (rows_of (found_of found.now)) ≡ None }
{
    match found.get_strs("file") {
        Some(words) => paths_of(alloc, words),
        None => Err(CallFault::Usage),
    }
}

/// What the matches of `recover` ask for.
pub(crate) fn recover_call<'a>(
    alloc: Global,
    found: &ArgMatches<'a>,
) -> Result<RecoverCall<'a>, CallFault>
    ensures asked { IfOk result (λ call. AsksToRecover (rows_of (found_of found.now)) (recovering_of call)) }
    ensures unread { result ≡ Err CallFault.Usage → regions_matched (rows_of (found_of found.now)) ≡ None }
{
    let files = matched_paths(alloc, found)?;
    Ok(RecoverCall {
        json: matched_flag(found, "json"),
        keep: matched_text(found, "keep"),
        files,
    })
}
