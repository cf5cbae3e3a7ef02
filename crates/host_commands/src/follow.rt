//! The command `collect --follow`: inputs that are read at once, while they are written.
ghost use Rattle.command_line.specs.Calls.{IsInRange};

mod files;
mod live;
mod reading;

use crate::captures::{Given, collecting_of, given_texts, lent, tell_fields, tell_pattern};
use crate::inputs::Trial;
use crate::message::FileMessage;
use crate::telling::{tell_ending, tell_file};
use collect_command::{Ending, LiveCollected, follow_to};
use command_io::{EndFault, Std, USAGE};
use command_line::CollectCall;
pub(crate) use files::FollowedFile;
use files::{Files, files_of};
use live::Live;
use live_listing::Happenings;
use std::sync::Wait;
use std::thread::Threads;
use std::time::Duration;
use trace_model::CpuId;

/// The CPUs of files.
fn cpus_of(rt: &HostRuntime, files: &[FollowedFile]) -> Result<Vec<CpuId>, Trial<'static>> {
    let mut cpus = Vec::new(rt.alloc());
    for file in files {
        if cpus.push(file.cpu).is_err() {
            return Err(Trial::NoMemory);
        }
    }
    Ok(cpus)
}

/// Says on standard error which files couldn't be read.
fn tell_unread<T>(rt: &HostRuntime, files: &[FollowedFile], live: &Live<'_, '_, T>) {
    for file in files {
        if let Some(trouble) = live.trouble_of(file.cpu) {
            let name = file.path.as_str();
            tell_file(rt, FileMessage { trouble, name });
        }
    }
}

/// Says on standard error what is left to be said, and gives the exit status. `fault` is that of standard output.
fn tell_followed(
    rt: &HostRuntime,
    asked: &CollectCall<'_>,
    files: &[FollowedFile],
    collected: &LiveCollected,
    fault: Option<EndFault>,
) -> u8 {
    let listed = &collected.listed;
    tell_pattern(rt, asked, listed);
    tell_fields(rt, listed);
    // Of files that couldn't be read each is named already.
    if !matches!(listed.ending, Ending::NotRead(_)) {
        tell_ending(rt, files, listed.ending, fault);
    }
    collected.status()
}

/// Lists what happens with the inputs of these CPUs, and gives how that ends, and what is the matter with standard
/// output.
fn list<'b, S: Happenings>(
    rt: &HostRuntime,
    asked: &CollectCall<'b>,
    given: &Given,
    cpus: &[CpuId],
    happenings: &mut S,
) -> Result<(LiveCollected, Option<EndFault>), Trial<'b>>
    requires { IsInRange asked.now }
{
    let formats = lent(rt, &given.formats)?;
    let collecting = collecting_of(asked, &formats, given);
    let mut output = Std::new(rt.stdout());
    let collected = follow_to(rt.alloc(), &collecting, cpus, happenings, &mut output);
    Ok((collected, EndFault::of_output(&output)))
}

/// Lists what comes of these files until they end, and gives the exit status.
fn follow_files<'b, T: Threads + Wait + Copy + Send + 'static>(
    rt: &HostRuntime,
    threads: &T,
    asked: &CollectCall<'b>,
    files: &[FollowedFile],
) -> Result<u8, Trial<'b>>
    requires { IsInRange asked.now }
{
    let given = given_texts(rt, asked)?;
    let cpus = cpus_of(rt, files)?;
    let round = Duration::from_millis(u64::from(asked.round_millis()));
    let page = asked.page_bytes() as usize;
    let mut live = Live::start(rt, threads, files, page, round)?;
    let (collected, fault) = list(rt, asked, &given, &cpus, &mut live)?;
    tell_unread(rt, files, &live);
    Ok(tell_followed(rt, asked, files, &collected, fault))
}

/// Carries out `collect --follow`, and gives the exit status.
pub(crate) fn follow_captures<'b, T: Threads + Wait + Copy + Send + 'static>(
    rt: &HostRuntime,
    threads: &T,
    asked: &CollectCall<'b>,
) -> Result<u8, Trial<'b>>
    requires { IsInRange asked.now }
{
    match files_of(rt, &asked.files)? {
        Files::Each(files) => follow_files(rt, threads, asked, &files),
        Files::Refused(why) => {
            let _ = eprintln!(rt; "{why}");
            Ok(USAGE)
        }
    }
}
