//! The command `collect`: over captures, or over streams of parcels.
ghost use Rattle.std.specs.Prelude.{◌≡◌, ◌⊎◌, ◌↔◌, false, map, IsTrue, All, length};
ghost use Rattle.command_io.specs.Ends.{has_failed};
ghost use Rattle.command_line.specs.Calls.{IsInRange};
ghost use Rattle.parcel_streams.specs.source.Reading.{BeginsStream};
ghost use Rattle.parcel_streams.specs.source.Readers.{peeked_reader, peeked_unread};

use crate::by_page::{collect_by_page, paged_files};
use crate::captures::collect_captures;
use crate::follow::follow_captures;
use crate::inputs::{Reader, Trial, begin_reading, open_inputs};
use crate::keep::{KEEP_IS_READ, keep_is_read};
use crate::streams::collect_pieces;
use crate::telling::{refuse, tell_trial};
use capture::files::Input;
use command_line::CollectCall;
use std::io::IsTerminal;
use std::sync::Wait;
use std::thread::Threads;

/// What the command line asks for that can't be done.
const BOTH: &str = "tracering: --keep and --parcels exclude each other";

const MIXED: &str = "tracering: some files are streams of parcels and others are not";

const NOT_FOR_CAPTURES: &str = "tracering: --keep and --parcels are for streams of parcels";

const NOT_FOR_STREAMS: &str =
    "tracering: for streams of parcels there are --json, --keep and --parcels alone";

/// Whether each input begins as a stream of parcels does, or has no byte: it is a stream without a piece then.
fn are_streams(inputs: &[Input<Reader<'_>>]) -> bool
    ensures { IsTrue result ↔ All (λ input. BeginsStream (peeked_unread input.reader)
        ⊎ (length (peeked_unread input.reader) ≡ 0)) inputs.now }
{
    for input in inputs {
        if !input.reader.is_stream() && !input.reader.is_empty() {
            return false;
        }
    }
    true
}

/// Whether none begins as a stream of parcels does.
fn are_captures(inputs: &[Input<Reader<'_>>]) -> bool
    ensures { IsTrue result ↔ All (λ input. BeginsStream (peeked_unread input.reader) → ⊥) inputs.now }
{
    for input in inputs {
        if input.reader.is_stream() {
            return false;
        }
    }
    true
}

/// What is wrong with the options, whatever the files have.
fn wrong_options(rt: &HostRuntime, asked: &CollectCall<'_>) -> Option<&'static str> {
    if asked.keep.is_some() && asked.parcels {
        return Some(BOTH);
    }
    if keep_is_read(rt, &asked.files, asked.keep) {
        return Some(KEEP_IS_READ);
    }
    None
}

/// Whether an option is given that is for captures alone. `--fields` and others ask for names too.
fn is_for_captures(asked: &CollectCall<'_>) -> bool {
    asked.page.is_some()
        || asked.names
        || asked.instance.is_some()
        || asked.cpus.is_some()
        || asked.since.is_some()
        || asked.until.is_some()
        || asked.event.is_some()
        || asked.pids.is_some()
}

/// Lists captures, and gives the exit status: while they are read if that can be, and else when all are read.
fn list_captures<'b>(
    rt: &HostRuntime,
    asked: &CollectCall<'b>,
    inputs: Vec<Input<Reader<'_>>>,
    is_watched: bool,
    is_unseen: bool,
) -> Result<u8, Trial<'b>>
    requires range { IsInRange asked.now }
    requires cpus { map (λ input. input.cpu) inputs.items ≡ map (λ file. file.cpu) asked.now.files.items }
    requires sound { All (λ input. has_failed (peeked_reader input.reader) ≡ false) inputs.items }
{
    if asked.instance.is_none() {
        if let Some(files) = paged_files(rt, asked, is_watched)? {
            return collect_by_page(rt, asked, &files, is_unseen);
        }
    }
    collect_captures(rt, asked, inputs, is_unseen)
}

/// Lists the files, and gives the exit status.
fn list<'b, T: Threads + Wait + Copy + Send + 'static>(
    rt: &HostRuntime,
    threads: &T,
    asked: &CollectCall<'b>,
) -> Result<u8, Trial<'b>>
    requires { IsInRange asked.now }
{
    if asked.follow {
        return follow_captures(rt, threads, asked);
    }
    if let Some(sentence) = wrong_options(rt, asked) {
        return Ok(refuse(rt, sentence));
    }
    let is_watched = rt.stderr().is_terminal();
    // What a terminal shows of the output says how far it is.
    let is_unseen = is_watched && !rt.stdout().is_terminal();
    let reading = begin_reading(rt, &asked.files, is_watched);
    let inputs = open_inputs(rt, &asked.files, &reading)?;
    let is_for_streams = asked.keep.is_some() || asked.parcels;
    let is_capture = are_captures(&inputs);
    if are_streams(&inputs) && (is_for_streams || !is_capture) {
        if is_for_captures(asked) {
            return Ok(refuse(rt, NOT_FOR_STREAMS));
        }
        return collect_pieces(rt, asked, inputs, is_unseen);
    }
    if !is_capture {
        return Ok(refuse(rt, MIXED));
    }
    if is_for_streams {
        return Ok(refuse(rt, NOT_FOR_CAPTURES));
    }
    list_captures(rt, asked, inputs, is_watched, is_unseen)
}

/// Carries out `collect`, and gives the exit status. Threads are started for `--follow` alone.
pub fn collect<T: Threads + Wait + Copy + Send + 'static>(
    rt: &HostRuntime,
    threads: &T,
    asked: &CollectCall<'_>,
) -> u8
    requires { IsInRange asked.now }
{
    tell_trial(rt, list(rt, threads, asked))
}
