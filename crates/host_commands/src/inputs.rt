//! The inputs of `collect` and `recover`: files of the host, and standard input.
ghost use Rattle.std.specs.Prelude.{◌≡◌, false, map, All, IfOk};
ghost use Rattle.command_io.specs.Ends.{has_failed};
ghost use Rattle.parcel_streams.specs.source.Readers.{peeked_reader};

use crate::feed::Feed;
use crate::length::total_of;
use crate::message::{FileMessage, Trouble};
use crate::named::Named;
use crate::progress::{Progress, Watched};
use capture::files::Input;
use command_io::Std;
use command_line::CpuFile;
use parcel_streams::source::Peeked;
use std::fs::File;
use std::io::{ErrorKind, Stdin, Stdout};
use std::{fs, io};

/// The word for standard input in the place of a path.
pub(crate) const STANDARD_INPUT: &str = "-";

/// What an input is read from, of which the first bytes were looked at.
pub(crate) type Reader<'a> = Peeked<Opened<'a>>;

/// What an input is read from.
pub(crate) type Opened<'a> = Std<Watched<'a, HostRuntime, Feed<File, Stdin>>>;

/// Why the files aren't read.
pub(crate) enum Trial<'a> {
    /// There is something with this file.
    File(FileMessage<'a>),
    /// Memory was refused.
    NoMemory,
    /// A thread couldn't be started.
    NoThread,
}

/// What an error makes of a file: trouble, unless memory was refused.
pub(crate) fn trial_of(error: io::Error, trouble: Trouble, name: &str) -> Trial<'_> {
    match error.kind() {
        ErrorKind::OutOfMemory => Trial::NoMemory,
        _ => Trial::File(FileMessage { trouble, name }),
    }
}

/// What the bytes of a file come from.
pub(crate) fn open_feed(rt: &HostRuntime, path: &str) -> io::Result<Feed<File, Stdin>> {
    if path == STANDARD_INPUT {
        return Ok(Feed::Standard(rt.stdin()));
    }
    Ok(Feed::File(fs::open(rt, path)?))
}

/// What reports how far the reading of these inputs is, if that is wanted: of how many bytes, if each is a file that
/// can be read again.
pub(crate) fn begin_reading<'a, N: Named>(
    rt: &'a HostRuntime,
    inputs: &[N],
    is_wanted: bool,
) -> Progress<'a, HostRuntime> {
    let total = if is_wanted {
        total_of(rt, inputs)
    } else {
        None
    };
    Progress::begin(rt, "read", total, is_wanted)
}

/// The input of a file, of which this reports how far it is.
pub(crate) fn open_input<'a>(
    rt: &HostRuntime,
    path: &str,
    progress: &'a Progress<'a, HostRuntime>,
) -> io::Result<Opened<'a>>
    ensures { IfOk result (λ reader. has_failed reader ≡ false) }
{
    let feed = open_feed(rt, path)?;
    Ok(Std::new(Watched::new(feed, progress)))
}

/// The input of a file, of which the first bytes were looked at.
fn peeked_input<'a, 'b>(
    rt: &HostRuntime,
    path: &'b str,
    progress: &'a Progress<'a, HostRuntime>,
) -> Result<Reader<'a>, Trial<'b>>
    ensures { IfOk result (λ reader. has_failed (peeked_reader reader) ≡ false) }
{
    let opened = match open_input(rt, path, progress) {
        Ok(opened) => opened,
        Err(error) => return Err(trial_of(error, Trouble::Unopened, path)),
    };
    match Peeked::new(opened) {
        Ok(reader) => Ok(reader),
        Err(error) => Err(trial_of(error, Trouble::Unread, path)),
    }
}

/// The inputs of these files, of which this reports how far they are.
pub(crate) fn open_inputs<'a, 'b>(
    rt: &HostRuntime,
    files: &[CpuFile<'b>],
    progress: &'a Progress<'a, HostRuntime>,
) -> Result<Vec<Input<Reader<'a>>>, Trial<'b>>
    ensures cpus { IfOk result (λ inputs. map (λ input. input.cpu) inputs.items ≡ map (λ file. file.cpu) files.now) }
    ensures sound { IfOk result (λ inputs.
        All (λ input. has_failed (peeked_reader input.reader) ≡ false) inputs.items) }
{
    let mut inputs = Vec::new(rt.alloc());
    for file in files {
        let reader = peeked_input(rt, file.path, progress)?;
        let cpu = file.cpu;
        let Ok(()) = inputs.push(Input { cpu, reader }) else {
            return Err(Trial::NoMemory);
        };
    }
    Ok(inputs)
}

/// What reports how much is written, if that is wanted.
pub(crate) fn begin_writing(rt: &HostRuntime, is_wanted: bool) -> Progress<'_, HostRuntime> {
    Progress::begin(rt, "written", None, is_wanted)
}

/// Standard output, of which this reports how far it is.
pub(crate) fn open_output<'a>(
    rt: &HostRuntime,
    progress: &'a Progress<'a, HostRuntime>,
) -> Std<Watched<'a, HostRuntime, Stdout>>
    ensures { has_failed result ≡ false }
{
    Std::new(Watched::new(rt.stdout(), progress))
}
