//! How a command that lists ends.

use capture::files::FileFault;
use command_io::{DONE, END_FAILED, NO_MEMORY, REFUSED};
use event_fields::MalformedEvent;
use std::alloc::Global;

/// How a command that lists ends. An input is named by its index.
#[derive(Clone, Copy, Debug, PartialEq, Eq)]
pub enum Ending {
    /// All is printed, and nothing is damaged.
    Done,
    /// All is printed but some damaged pages or slots, and a line says of each what is wrong with it.
    Damaged,
    /// All is printed but records that marks hide, and a line says of each run of them which they are.
    Hidden,
    /// A file of trace-cmd has a fault, whose line was printed: in place of a listing, or, if the file was cut short,
    /// behind it.
    MalformedFile {
        /// How many inputs are before it.
        input: usize,
        /// What is wrong with it.
        fault: FileFault,
    },
    /// This input isn't a stream of parcels or a region, or a piece of it is refused, and a line says so.
    Malformed(usize),
    /// The numbers of a CPU don't fit 64 bits, and a line says so.
    Numbers,
    /// Memory was refused, and a line says so.
    NoMemory,
    /// A read of this input failed.
    NotRead(usize),
    /// This input isn't as it was when it was looked at before.
    Changed(usize),
    /// This input is longer than what is read.
    TooLong(usize),
    /// A write failed.
    NotWritten,
}

impl Ending {
    ghost use Rattle.std.specs.Prelude.{◌≡◌};
    ghost use Rattle.collect_command.specs.Statuses.{status_for};

    /// The exit status: 0, 1, 3 or 4.
    pub fn status(self) -> u8
        ensures { result ≡ status_for self }
    {
        match self {
            Ending::Done => DONE,
            Ending::Damaged
            | Ending::Hidden
            | Ending::MalformedFile { .. }
            | Ending::Malformed(_)
            | Ending::Numbers => REFUSED,
            Ending::NoMemory => NO_MEMORY,
            Ending::NotRead(_) | Ending::Changed(_) | Ending::TooLong(_) | Ending::NotWritten =>
                END_FAILED,
        }
    }
}

/// What is said of a listing of captures.
#[derive(Debug, Drop)]
pub struct Listed {
    /// How it ends.
    pub ending: Ending,
    /// How many lines have a field without a value: one whose bytes aren't all in its record. It is 2^64 - 1 if there
    /// are more.
    pub cut: u64,
    /// The events whose formats are malformed, if fields are printed.
    pub malformed: Vec<MalformedEvent>,
    /// Whether events were asked for by a pattern that names none.
    pub is_unnamed: bool,
}

impl Listed {
    ghost use Rattle.std.specs.Prelude.{◌≡◌};
    ghost use Rattle.collect_command.specs.Listings.{SaysNothing};
    ghost use Rattle.collect_command.specs.Statuses.{status_of_listing};

    /// Nothing was listed.
    pub(crate) fn nothing(alloc: Global, ending: Ending) -> Listed
        ensures ending { result.ending ≡ ending }
        ensures nothing { SaysNothing result }
    {
        Listed {
            ending,
            cut: 0,
            malformed: Vec::new(alloc),
            is_unnamed: false,
        }
    }

    /// The exit status: 1 if all is printed, but a field has no value, a format is malformed, or a pattern names no
    /// event, and else that of the ending.
    pub fn status(&self) -> u8
        ensures { result ≡ status_of_listing self.now }
    {
        let status = self.ending.status();
        if status == DONE && (self.cut > 0 || !self.malformed.is_empty() || self.is_unnamed) {
            REFUSED
        } else {
            status
        }
    }
}

/// What `collect` answers.
#[derive(Debug, Drop)]
pub struct Collected {
    /// What is said of the listing.
    pub listed: Listed,
    /// Whether an instance was asked for that no file has.
    pub is_missing: bool,
    /// The names of the instances that the files have and that aren't listed, one for each: trace buffers beside the
    /// one that is listed. There are none if a file can't be read.
    pub others: Vec<Vec<u8>>,
}

impl Collected {
    ghost use Rattle.std.specs.Prelude.{◌≡◌};
    ghost use Rattle.collect_command.specs.Statuses.{status_of_collect};

    /// The exit status: 1 if all is printed, but the instance is missing, and else that of the listing.
    pub fn status(&self) -> u8
        ensures { result ≡ status_of_collect self.now }
    {
        let status = self.listed.status();
        if status == DONE && self.is_missing {
            REFUSED
        } else {
            status
        }
    }
}

/// What a command answers that may keep new pieces of streams.
#[derive(Clone, Copy, Debug, PartialEq, Eq)]
pub struct Outcome {
    /// How it ends.
    pub ending: Ending,
    /// Whether each new piece was written to the sink for them.
    pub is_kept: bool,
}

impl Outcome {
    ghost use Rattle.std.specs.Prelude.{◌≡◌};
    ghost use Rattle.collect_command.specs.Statuses.{status_of_run};

    /// The exit status: 4 if new pieces couldn't be written, and else that of the ending.
    pub fn status(self) -> u8
        ensures { result ≡ status_of_run self }
    {
        if self.is_kept {
            self.ending.status()
        } else {
            END_FAILED
        }
    }
}
