//! The file of `--keep`, which new pieces of streams are written to.
ghost use Rattle.std.specs.Prelude.{◌≡◌, false, IfOk};
ghost use Rattle.command_io.specs.Ends.{has_failed};
ghost use Rattle.host_commands.specs.Keeps.{has_failed_in};

use crate::inputs::{STANDARD_INPUT, Trial, trial_of};
use crate::message::Trouble;
use crate::named::Named;
use crate::same::is_same_file;
use command_io::{Sink, Std};
use std::fs::File;
use std::{fs, io};

/// What is said if the file is an input too.
pub(crate) const KEEP_IS_READ: &str = "tracering: the file of --keep is read";

/// The path that leads to the file which standard input is, if it is one.
const INPUT_PATH: &str = "/dev/stdin";

/// What new pieces are written to: a file, or nothing, which takes all and never fails.
#[derive(Drop)]
pub enum Keep<F> {
    /// No file is named.
    Nowhere,
    /// A file.
    File(F),
}

impl<F: Sink> Sink for Keep<F> {
    ghost use Rattle.host_commands.specs.Keeps.{contents_in, has_failed_in};

    ghost contents = { contents_in F.contents };

    ghost failed = { has_failed_in F.failed };

    fn write(&mut self, buf: &[u8]) -> io::Result<usize> {
        match self {
            Keep::Nowhere => Ok(buf.len()),
            Keep::File(file) => file.write(buf),
        }
    }
}

/// The file at this path, made anew, if a path is given.
pub(crate) fn open_keep<'b>(
    rt: &HostRuntime,
    path: Option<&'b str>,
) -> Result<Keep<Std<File>>, Trial<'b>>
    ensures { IfOk result (λ keep. has_failed_in has_failed keep ≡ false) }
{
    let Some(path) = path else {
        return Ok(Keep::Nowhere);
    };
    match fs::create(rt, path) {
        Ok(file) => Ok(Keep::File(Std::new(file))),
        Err(error) => Err(trial_of(error, Trouble::Unopened, path)),
    }
}

/// Whether this input, `-` for standard input, is the file at `kept`: it has the same path, or is the same file.
fn is_kept_in(rt: &HostRuntime, input: &str, kept: &str) -> bool {
    if input == kept {
        return true;
    }
    let path = if input == STANDARD_INPUT {
        INPUT_PATH
    } else {
        input
    };
    is_same_file(rt, path, kept)
}

/// Whether one of these inputs is the file of `--keep`, if there is one.
pub(crate) fn keep_is_read<N: Named>(rt: &HostRuntime, inputs: &[N], keep: Option<&str>) -> bool {
    let Some(kept) = keep else {
        return false;
    };
    for input in inputs {
        if is_kept_in(rt, input.name(), kept) {
            return true;
        }
    }
    false
}
