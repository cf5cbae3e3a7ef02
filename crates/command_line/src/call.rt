//! What the program is called to do.
ghost use Rattle.std.specs.Prelude.{◌≡◌};
ghost use Rattle.clap.specs.Words.{kind_of};
ghost use Rattle.command_line.specs.CommandLine.{fault_of_kind};
ghost use Rattle.command_line.specs.declared.call.CallFault.TheVariants.{NoMemory};

use crate::words::{DEFAULT_PAGE, DEFAULT_ROUND};
use clap::Error;
use clap::error::ErrorKind;
use std::alloc::{AllocError, AllocFailed};
use trace_model::CpuId;

/// A file that `collect` reads.
#[derive(Clone, Copy, Debug, PartialEq, Eq)]
pub struct CpuFile<'a> {
    /// The CPU whose pages it has, if they are raw.
    pub cpu: CpuId,
    /// Its path; `-` is standard input.
    pub path: &'a str,
}

/// Where names are from that are printed beside numbers.
#[derive(Clone, Copy, Debug, PartialEq, Eq)]
pub enum NamesFrom<'a> {
    /// The captures alone.
    Captures,
    /// The captures, and this file.
    File(&'a str),
}

/// What `collect` is asked for.
#[derive(Debug, Drop)]
pub struct CollectCall<'a> {
    /// How many bytes a page of a raw file has, if the command line says so.
    pub page: Option<u32>,
    /// Whether the process and the event of a record are printed.
    pub names: bool,
    /// Whether the fields of a record are printed.
    pub fields: bool,
    /// Where the names of processes are from, if they are printed.
    pub tasks: Option<NamesFrom<'a>>,
    /// Where the names of functions are from, if they are printed.
    pub symbols: Option<NamesFrom<'a>>,
    /// Whether each line is an object.
    pub json: bool,
    /// The folder below which formats of events are.
    pub formats: Option<&'a str>,
    /// The name of the trace buffer of a trace.dat that is listed, if one is named.
    pub instance: Option<&'a str>,
    /// The marks of the CPUs that are listed, each at the place that is its number, if they are named.
    pub cpus: Option<Vec<bool>>,
    /// The moment of the first record that is listed, if it is said.
    pub since: Option<u64>,
    /// The moment of the last record that is listed, if it is said.
    pub until: Option<u64>,
    /// The pattern of the events that are listed, if one is given.
    pub event: Option<&'a str>,
    /// The processes that are listed, if they are named.
    pub pids: Option<Vec<i32>>,
    /// The file that new pieces of streams are written to.
    pub keep: Option<&'a str>,
    /// Whether the pieces of streams are printed in place of what they say.
    pub parcels: bool,
    /// Whether the files are read while they are written, and a line is printed as soon as it is final.
    pub follow: bool,
    /// How many milliseconds a round of reading has, if the command line says so.
    pub round: Option<u32>,
    /// The files, one at least.
    pub files: Vec<CpuFile<'a>>,
}

impl<'a> CollectCall<'a> {
    ghost use Rattle.std.specs.Prelude.{◌≡◌, ◌≤◌};
    ghost use Rattle.command_line.specs.Calls.{IsInRange, page_bytes, round_millis};
    ghost use Rattle.command_line.specs.declared.words.TheConstants.{MAX_ROUND, MIN_PAGE, MIN_ROUND};

    /// How many bytes a page of a raw file has, as the command line says, or else [`DEFAULT_PAGE`].
    pub fn page_bytes(&self) -> u32
        ensures bytes { result ≡ page_bytes self.now.page }
        ensures least { IsInRange self.now → MIN_PAGE ≤ result }
    {
        match self.page {
            Some(bytes) => bytes,
            None => DEFAULT_PAGE,
        }
    }

    /// How many milliseconds a round of reading has, as the command line says, or else [`DEFAULT_ROUND`].
    pub fn round_millis(&self) -> u32
        ensures millis { result ≡ round_millis self.now.round }
        ensures least { IsInRange self.now → MIN_ROUND ≤ result }
        ensures most { IsInRange self.now → result ≤ MAX_ROUND }
    {
        match self.round {
            Some(millis) => millis,
            None => DEFAULT_ROUND,
        }
    }
}

/// What `recover` is asked for.
#[derive(Debug, Drop)]
pub struct RecoverCall<'a> {
    /// Whether each line is an object.
    pub json: bool,
    /// The file that new pieces of streams are written to.
    pub keep: Option<&'a str>,
    /// The paths of the regions, one at least; `-` is standard input.
    pub files: Vec<&'a str>,
}

/// What the command line asks for.
#[derive(Debug, Drop)]
pub enum Call<'a> {
    /// `tracering replay`, with the log if `--log` is given.
    Replay { log: bool },
    /// `tracering run`.
    Run,
    /// `tracering steps`.
    Steps,
    /// `tracering dump`.
    Dump,
    /// `tracering collect`.
    Collect(CollectCall<'a>),
    /// `tracering recover`.
    Recover(RecoverCall<'a>),
    /// `tracering --version`.
    Version,
    /// `tracering --help`, or a call for the help of a command.
    Help,
}

/// Why the command line asks for nothing.
#[derive(Clone, Copy, Debug, PartialEq, Eq)]
pub enum CallFault {
    /// A word can't be read, or the parse refuses the words, or they name no command.
    Usage,
    /// Memory was refused.
    NoMemory,
}

impl From<AllocError> for CallFault {
    ghost from_gives = { λ _ fault. fault ≡ NoMemory };

    fn from(_refused: AllocError) -> CallFault {
        CallFault::NoMemory
    }
}

impl<T: Drop> From<AllocFailed<T>> for CallFault {
    ghost from_gives = { λ _ fault. fault ≡ NoMemory };

    fn from(_refused: AllocFailed<T>) -> CallFault {
        CallFault::NoMemory
    }
}

impl From<Error> for CallFault {
    ghost from_gives = { λ error fault. fault ≡ fault_of_kind (kind_of error) };

    fn from(error: Error) -> CallFault {
        match error.kind() {
            ErrorKind::OutOfMemory => CallFault::NoMemory,
            _ => CallFault::Usage,
        }
    }
}
