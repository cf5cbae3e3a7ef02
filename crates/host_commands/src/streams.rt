//! The command `collect` over streams of parcels.
ghost use Rattle.std.specs.Prelude.{◌≡◌, false, All, IfOk};
ghost use Rattle.command_io.specs.Ends.{has_failed};
ghost use Rattle.parcel_streams.specs.source.Readers.{peeked_reader, source_of};
ghost use Rattle.collect_command.specs.streams.Reading.{IsFresh};

use crate::form::form_of;
use crate::inputs::{Reader, Trial, begin_writing, open_output};
use crate::keep::open_keep;
use crate::telling::{tell_ending, tell_outcome};
use capture::files::Input;
use collect_command::streams::{collect_streams, print_pieces};
use collect_command::{Ending, Outcome};
use command_io::EndFault;
use command_line::CollectCall;
use parcel_streams::source::PieceReader;

/// Readers of the inputs' pieces.
fn readers_of<'a>(
    rt: &HostRuntime,
    inputs: Vec<Input<Reader<'a>>>,
) -> Result<Vec<PieceReader<Reader<'a>>>, Trial<'static>>
    requires { All (λ input. has_failed (peeked_reader input.reader) ≡ false) inputs.items }
    ensures sound { IfOk result (λ readers.
        All (λ reader. has_failed (peeked_reader (source_of reader)) ≡ false) readers.items) }
    ensures fresh { IfOk result (λ readers. All (λ reader. IsFresh reader) readers.items) }
{
    let mut readers = Vec::new(rt.alloc());
    for input in inputs {
        let Input { cpu: _, reader } = input;
        let Ok(reader) = PieceReader::new(rt.alloc(), reader) else {
            return Err(Trial::NoMemory);
        };
        if readers.push(reader).is_err() {
            return Err(Trial::NoMemory);
        }
    }
    Ok(readers)
}

/// Lists streams, keeps what is new in the file that is named, if one is, and gives how that ends, and what is the
/// matter with standard output.
fn list<'b>(
    rt: &HostRuntime,
    asked: &CollectCall<'b>,
    readers: Vec<PieceReader<Reader<'_>>>,
    is_watched: bool,
) -> Result<(Outcome, Option<EndFault>), Trial<'b>>
    requires sound { All (λ reader. has_failed (peeked_reader (source_of reader)) ≡ false) readers.items }
    requires fresh { All (λ reader. IsFresh reader) readers.items }
{
    let mut readers = readers;
    let writing = begin_writing(rt, is_watched);
    let mut output = open_output(rt, &writing);
    let mut keep = open_keep(rt, asked.keep)?;
    let outcome = collect_streams(
        rt.alloc(),
        form_of(asked.json),
        readers.as_mut_slice(),
        &mut keep,
        &mut output,
    );
    Ok((outcome, EndFault::of_output(&output)))
}

/// Prints the pieces of streams, and gives how that ends, and what is the matter with standard output.
fn print(
    rt: &HostRuntime,
    asked: &CollectCall<'_>,
    readers: Vec<PieceReader<Reader<'_>>>,
    is_watched: bool,
) -> (Ending, Option<EndFault>)
    requires sound { All (λ reader. has_failed (peeked_reader (source_of reader)) ≡ false) readers.items }
    requires fresh { All (λ reader. IsFresh reader) readers.items }
{
    let mut readers = readers;
    let writing = begin_writing(rt, is_watched);
    let mut output = open_output(rt, &writing);
    let ending = print_pieces(
        rt.alloc(),
        form_of(asked.json),
        readers.as_mut_slice(),
        &mut output,
    );
    (ending, EndFault::of_output(&output))
}

/// Lists streams or their pieces, and gives the exit status.
pub(crate) fn collect_pieces<'b>(
    rt: &HostRuntime,
    asked: &CollectCall<'b>,
    inputs: Vec<Input<Reader<'_>>>,
    is_watched: bool,
) -> Result<u8, Trial<'b>>
    requires { All (λ input. has_failed (peeked_reader input.reader) ≡ false) inputs.items }
{
    let readers = readers_of(rt, inputs)?;
    if asked.parcels {
        let (ending, fault) = print(rt, asked, readers, is_watched);
        return Ok(tell_ending(rt, &asked.files, ending, fault));
    }
    let (outcome, fault) = list(rt, asked, readers, is_watched)?;
    Ok(tell_outcome(rt, &asked.files, asked.keep, outcome, fault))
}
