//! The command `dump`: a page image in, its printing out.
ghost use Rattle.std.specs.Prelude.{◌≡◌, false, IfOk};
ghost use Rattle.command_io.specs.CommandRun.{IsCommandRun, source_run, sink_run};
ghost use Rattle.command_io.specs.Output.{bytes_of, status_of};
ghost use Rattle.dump_command.specs.Dumps.{DumpGives};

use crate::printer::{print_image, print_image_fault};
use command_io::{Output, Sink, Source, Subcommand, carry_out};
use page_image::read_image;
use std::alloc::Global;
use trace_model::NoMemory;

/// The command `dump`.
struct DumpCommand;

impl Subcommand for DumpCommand {
    ghost gives = { λ _. DumpGives };

    fn output(&self, alloc: Global, text: Vec<u8>) -> Result<Output, NoMemory> {
        dump_output(alloc, text.as_slice())
    }
}

/// What is printed for an image, with the exit status.
fn dump_output(alloc: Global, text: &[u8]) -> Result<Output, NoMemory>
    ensures { IfOk result (λ output. DumpGives text.now (bytes_of output) (status_of output)) }
{
    match read_image(alloc, text) {
        Ok(image) => Ok(Output::Done(print_image(alloc, &image)?)),
        Err(fault) => Ok(Output::Refused(print_image_fault(alloc, fault)?)),
    }
}

/// Reads a page image from the reader to its end, and writes its header and records, or the fault's
/// line. Gives the exit status: 0 done, 1 the image is refused, 3 memory was refused, 4 a read or a
/// write failed, or there are more than 2^28 bytes.
pub fn dump_to<R: Source, W: Sink>(alloc: Global, reader: &mut R, writer: &mut W) -> u8
    requires sound_reader { R.failed reader.old ≡ false }
    requires sound_writer { W.failed writer.old ≡ false }
    ensures { IsCommandRun DumpGives
        (source_run R.remaining R.count R.failed reader.old reader.new)
        (sink_run W.contents W.failed writer.old writer.new) result }
{
    carry_out(&DumpCommand, alloc, reader, writer)
}
