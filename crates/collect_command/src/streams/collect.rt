//! The command `collect` for streams.
ghost use Rattle.std.specs.Prelude.{◌≡◌, ◌⊎◌, false, ℕ, List, [], All, IfErr, IfOk, OnErr, OnOk};
ghost use Rattle.text_values.specs.Putting.{Start, contents_of, has_failed, HasWriter, HasPut, KeepsWriter};
ghost use Rattle.parcel_streams.specs.Pieces.{Packed};
ghost use Rattle.parcel_streams.specs.source.Readers.{source_of};
ghost use Rattle.fleet_text.specs.Hidden.{hidden_of};
ghost use Rattle.collect_command.specs.streams.Reading.{IsFresh};
ghost use Rattle.collect_command.specs.streams.Runs.{IsMemoryLine, TellsStop, IsListed, IsStreamRun, IsPrintRun};
ghost use Rattle.collect_command.specs.streams.Runs.{HasTaken, ending_with};
ghost use Rattle.collect_command.specs.streams.Runs.{PrintsAll, PrintsSome};

use crate::ending::{Ending, Outcome};
use crate::memory::{new_buffers, tell_memory};
use crate::streams::gather::Gatherer;
use crate::streams::print::PiecePrinter;
use crate::streams::read::{Stop, Stopped, read_inputs};
use capture_text::Form;
use command_io::{Sink, Source};
use fleet_text::{Hidden, Listed, put_fault};
use parcel_streams::source::PieceReader;
use std::alloc::Global;
use text_values::{Out, TextBuffer, finish, finish_memory};
use trace_model::NoMemory;

/// Reports why an input isn't read to its end, after what was put.
fn tell_stop<W: Sink>(out: &mut Out<'_, W>, stopped: Stopped) -> Ending
    ensures writer { KeepsWriter out.old out.new }
    ensures told { (start : Start) (text : List ℕ) → HasPut start text out.old
        → TellsStop stopped.input stopped.stop start.contents (contents_of out.new)
        (has_failed out.new) text result }
{
    match stopped.stop {
        Stop::Read => finish(out, Ending::NotRead(stopped.input), Ending::NotWritten),
        Stop::Piece { index, at, trouble } => {
            if trouble.is_no_memory() {
                return finish_memory(out, Ending::NoMemory, Ending::NotWritten);
            }
            put_fault(out, at, index, trouble);
            finish(out, Ending::Malformed(stopped.input), Ending::NotWritten)
        }
    }
}

/// How a run ends that lists what is hidden.
fn ending_with(hidden: &Hidden) -> Ending
    ensures { result ≡ ending_with (hidden_of hidden.now) }
{
    if hidden.is_empty() {
        Ending::Done
    } else {
        Ending::Hidden
    }
}

/// Lists what a fleet has, and what is hidden. Nothing was put before.
fn list_fleet<W: Sink>(
    alloc: Global,
    form: Form,
    gatherer: &Gatherer,
    out: &mut Out<'_, W>,
) -> Result<Ending, NoMemory>
    ensures writer { KeepsWriter out.old out.new }
    ensures listed { (start : Start) (pieces : List Packed) → HasPut start [] out.old → HasTaken gatherer.now pieces
        → IfOk result (λ ending. IsListed form pieces gatherer.now.fleet start.contents (contents_of out.new)
        (has_failed out.new) ending) }
    ensures refused { OnErr result (out.new ≡ out.old) }
{
    let listed = Listed::new(alloc, &gatherer.fleet)?;
    let hidden = Hidden::new(alloc, &gatherer.given, &gatherer.fleet)?;
    listed.put(out, form);
    hidden.put(out, form);
    Ok(finish(out, ending_with(&hidden), Ending::NotWritten))
}

/// Lists what a fleet has, and what is hidden, or reports that memory was refused. Nothing was put before.
fn list_or_tell<W: Sink>(
    alloc: Global,
    form: Form,
    gatherer: &Gatherer,
    out: &mut Out<'_, W>,
) -> Ending
    ensures writer { KeepsWriter out.old out.new }
    ensures listed { (start : Start) (pieces : List Packed) → HasPut start [] out.old → HasTaken gatherer.now pieces
        → IsListed form pieces gatherer.now.fleet start.contents (contents_of out.new) (has_failed out.new) result
        ⊎ IsMemoryLine start.contents (contents_of out.new) (has_failed out.new) [] result }
{
    match list_fleet(alloc, form, gatherer, out) {
        Ok(ending) => ending,
        Err(NoMemory) => finish_memory(out, Ending::NoMemory, Ending::NotWritten),
    }
}

/// Writes what a fleet has, and what is hidden, through this buffer.
fn write_fleet<W: Sink>(
    alloc: Global,
    form: Form,
    gatherer: &Gatherer,
    buffer: TextBuffer,
    writer: &mut W,
) -> Ending
    requires { W.failed writer.old ≡ false }
    ensures { (pieces : List Packed) → HasTaken gatherer.now pieces
        → IsListed form pieces gatherer.now.fleet (W.contents writer.old) (W.contents writer.new)
        (W.failed writer.new) result
        ⊎ IsMemoryLine (W.contents writer.old) (W.contents writer.new) (W.failed writer.new) [] result }
{
    let mut buffer = buffer;
    let mut out = Out::new(&mut buffer, writer);
    list_or_tell(alloc, form, gatherer, &mut out)
}

/// Writes why an input isn't read to its end, through this buffer.
fn write_stop<W: Sink>(buffer: TextBuffer, writer: &mut W, stopped: Stopped) -> Ending
    requires { W.failed writer.old ≡ false }
    ensures { TellsStop stopped.input stopped.stop (W.contents writer.old) (W.contents writer.new)
        (W.failed writer.new) [] result }
{
    let mut buffer = buffer;
    let mut out = Out::new(&mut buffer, writer);
    tell_stop(&mut out, stopped)
}

/// Lists a fleet, if all inputs were read to their ends, or reports why one wasn't.
fn end_run<W: Sink>(
    alloc: Global,
    form: Form,
    read: Result<(), Stopped>,
    gatherer: &Gatherer,
    buffer: TextBuffer,
    writer: &mut W,
) -> Ending
    requires { W.failed writer.old ≡ false }
    ensures listed { OnOk read ((pieces : List Packed) → HasTaken gatherer.now pieces
        → IsListed form pieces gatherer.now.fleet (W.contents writer.old) (W.contents writer.new)
        (W.failed writer.new) result
        ⊎ IsMemoryLine (W.contents writer.old) (W.contents writer.new) (W.failed writer.new) [] result) }
    ensures told { IfErr read (λ stopped. TellsStop stopped.input stopped.stop (W.contents writer.old)
        (W.contents writer.new) (W.failed writer.new) [] result) }
{
    match read {
        Ok(()) => write_fleet(alloc, form, gatherer, buffer, writer),
        Err(stopped) => write_stop(buffer, writer, stopped),
    }
}

/// Lists what the pieces of all inputs say together: their records by time, and which numbers are missing, unknown,
/// undelivered, forgotten or hidden. The bytes of each piece that is new when it comes, or is below a bound, are
/// written to `keep`. Nothing is written to `writer` before all inputs are read, and memory is asked for only before
/// the first byte is written.
pub fn collect_streams<R: Source, K: Sink, W: Sink>(
    alloc: Global,
    form: Form,
    inputs: &mut [PieceReader<R>],
    keep: &mut K,
    writer: &mut W,
) -> Outcome
    requires sound_readers { All (λ reader. R.failed (source_of reader) ≡ false) inputs.old }
    requires fresh { All (λ reader. IsFresh reader) inputs.old }
    requires sound_keep { K.failed keep.old ≡ false }
    requires sound_writer { W.failed writer.old ≡ false }
    ensures { IsStreamRun R.remaining R.failed form inputs.old inputs.new
        (K.contents keep.old) (K.contents keep.new) (K.failed keep.new)
        (W.contents writer.old) (W.contents writer.new) (W.failed writer.new) result }
{
    let Ok((kept, buffer)) = new_buffers(alloc) else {
        let ending = tell_memory(writer);
        return Outcome {
            ending,
            is_kept: true,
        };
    };
    let mut kept = kept;
    let mut gatherer = Gatherer::new(alloc);
    let mut keeping = Out::new(&mut kept, keep);
    let read = read_inputs(alloc, inputs, &mut gatherer, &mut keeping);
    let is_kept = keeping.finish().is_ok();
    let ending = end_run(alloc, form, read, &gatherer, buffer, writer);
    Outcome { ending, is_kept }
}

/// Puts a line for each piece of all inputs, as it is read, and writes them. Nothing was put before.
fn put_pieces<R: Source, W: Sink>(
    alloc: Global,
    form: Form,
    inputs: &mut [PieceReader<R>],
    out: &mut Out<'_, W>,
) -> Ending
    requires sound_readers { All (λ reader. R.failed (source_of reader) ≡ false) inputs.old }
    requires fresh { All (λ reader. IsFresh reader) inputs.old }
    ensures writer { (start : Start) → HasPut start [] out.old → HasWriter start out.new }
    ensures printed { (start : Start) → HasPut start [] out.old
        → PrintsAll R.remaining R.failed form inputs.old inputs.new start.contents (contents_of out.new)
        (has_failed out.new) result
        ⊎ PrintsSome R.remaining R.failed form inputs.old inputs.new start.contents (contents_of out.new)
        (has_failed out.new) result }
{
    let mut printer = PiecePrinter { form };
    match read_inputs(alloc, inputs, &mut printer, out) {
        Ok(()) => finish(out, Ending::Done, Ending::NotWritten),
        Err(stopped) => tell_stop(out, stopped),
    }
}

/// Prints a line for each piece of all inputs, as it is read.
pub fn print_pieces<R: Source, W: Sink>(
    alloc: Global,
    form: Form,
    inputs: &mut [PieceReader<R>],
    writer: &mut W,
) -> Ending
    requires sound_readers { All (λ reader. R.failed (source_of reader) ≡ false) inputs.old }
    requires fresh { All (λ reader. IsFresh reader) inputs.old }
    requires sound_writer { W.failed writer.old ≡ false }
    ensures { IsPrintRun R.remaining R.failed form inputs.old inputs.new
        (W.contents writer.old) (W.contents writer.new) (W.failed writer.new) result }
{
    let Ok(buffer) = TextBuffer::new(alloc) else {
        return tell_memory(writer);
    };
    let mut buffer = buffer;
    let mut out = Out::new(&mut buffer, writer);
    put_pieces(alloc, form, inputs, &mut out)
}
