//! The command `recover`.
ghost use Rattle.std.specs.Prelude.{◌≡◌, false, All};
ghost use Rattle.collect_command.specs.recovery.Runs.{IsRecoverRun};

use crate::ending::Outcome;
use crate::memory::{new_buffers, tell_memory};
use crate::recovery::gather::add_regions;
use crate::recovery::print::{end_run, write_unread};
use crate::recovery::read::read_inputs;
use capture_text::Form;
use command_io::{Sink, Source};
use fleet_collector::Fleet;
use std::alloc::Global;
use text_values::Out;

/// Lists what all inputs, each a region, state together: their records by time, and which numbers are missing or
/// unknown; and below that the slots that are damaged. The bytes of each piece that is new are written to `keep`.
/// Nothing is written to either sink before all inputs are read, and nothing to `writer` before all pieces are added;
/// memory is asked for only before the first byte is written to `writer`.
pub fn recover_to<R: Source, K: Sink, W: Sink>(
    alloc: Global,
    form: Form,
    inputs: &mut [R],
    keep: &mut K,
    writer: &mut W,
) -> Outcome
    requires sound_readers { All (λ reader. R.failed reader ≡ false) inputs.old }
    requires sound_keep { K.failed keep.old ≡ false }
    requires sound_writer { W.failed writer.old ≡ false }
    ensures { IsRecoverRun R.remaining R.count R.failed form inputs.old inputs.new
        (K.contents keep.old) (K.contents keep.new) (K.failed keep.new)
        (W.contents writer.old) (W.contents writer.new) (W.failed writer.new) result }
{
    let Ok((kept, buffer)) = new_buffers(alloc) else {
        let ending = tell_memory(writer);
        return Outcome {
            ending,
            is_kept: true,
        };
    };
    let regions = match read_inputs(alloc, inputs) {
        Ok(regions) => regions,
        Err(stopped) => {
            let ending = write_unread(buffer, writer, stopped);
            return Outcome {
                ending,
                is_kept: true,
            };
        }
    };
    let mut fleet = Fleet::new(alloc);
    let mut kept = kept;
    let mut keeping = Out::new(&mut kept, keep);
    let added = add_regions(alloc, &regions, &mut fleet, &mut keeping);
    let is_kept = keeping.finish().is_ok();
    let ending = end_run(alloc, form, added, &regions, &fleet, buffer, writer);
    Outcome { ending, is_kept }
}
