//! The command `recover` over files of the host.
ghost use Rattle.std.specs.Prelude.{◌≡◌, false, All, IfOk};
ghost use Rattle.command_io.specs.Ends.{has_failed};

use crate::form::form_of;
use crate::inputs::{
    Opened, Trial, begin_reading, begin_writing, open_input, open_output, trial_of,
};
use crate::keep::{KEEP_IS_READ, keep_is_read, open_keep};
use crate::message::Trouble;
use crate::progress::Progress;
use crate::telling::{refuse, tell_outcome, tell_trial};
use collect_command::Outcome;
use collect_command::recovery::recover_to;
use command_io::EndFault;
use command_line::RecoverCall;
use std::io::IsTerminal;

/// The inputs of these files, of which this reports how far they are.
fn open_regions<'a, 'b>(
    rt: &HostRuntime,
    files: &[&'b str],
    progress: &'a Progress<'a, HostRuntime>,
) -> Result<Vec<Opened<'a>>, Trial<'b>>
    ensures { IfOk result (λ readers. All (λ reader. has_failed reader ≡ false) readers.items) }
{
    let mut readers = Vec::new(rt.alloc());
    for file in files {
        let reader = match open_input(rt, file, progress) {
            Ok(reader) => reader,
            Err(error) => return Err(trial_of(error, Trouble::Unopened, file)),
        };
        if readers.push(reader).is_err() {
            return Err(Trial::NoMemory);
        }
    }
    Ok(readers)
}

/// Lists regions, keeps what is new in the file that is named, if one is, and gives how that ends, and what is the
/// matter with standard output.
fn list<'b>(
    rt: &HostRuntime,
    asked: &RecoverCall<'b>,
    readers: Vec<Opened<'_>>,
    is_watched: bool,
) -> Result<(Outcome, Option<EndFault>), Trial<'b>>
    requires { All (λ reader. has_failed reader ≡ false) readers.items }
{
    let mut readers = readers;
    let writing = begin_writing(rt, is_watched);
    let mut output = open_output(rt, &writing);
    let mut keep = open_keep(rt, asked.keep)?;
    let outcome = recover_to(
        rt.alloc(),
        form_of(asked.json),
        readers.as_mut_slice(),
        &mut keep,
        &mut output,
    );
    Ok((outcome, EndFault::of_output(&output)))
}

/// Lists the files, and gives the exit status.
fn list_files<'b>(rt: &HostRuntime, asked: &RecoverCall<'b>) -> Result<u8, Trial<'b>> {
    if keep_is_read(rt, &asked.files, asked.keep) {
        return Ok(refuse(rt, KEEP_IS_READ));
    }
    let is_watched = rt.stderr().is_terminal();
    let reading = begin_reading(rt, &asked.files, is_watched);
    let readers = open_regions(rt, &asked.files, &reading)?;
    // What a terminal shows of the output says how far it is.
    let is_unseen = is_watched && !rt.stdout().is_terminal();
    let (outcome, fault) = list(rt, asked, readers, is_unseen)?;
    Ok(tell_outcome(rt, &asked.files, asked.keep, outcome, fault))
}

/// Carries out `recover`, and gives the exit status.
pub fn recover(rt: &HostRuntime, asked: &RecoverCall<'_>) -> u8 {
    tell_trial(rt, list_files(rt, asked))
}
