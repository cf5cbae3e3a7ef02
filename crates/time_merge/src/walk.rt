//! A walk over the listing of a collector, line by line.
ghost use Rattle.std.specs.Prelude.{◌≡◌, List, OnErr, OnOk};
ghost use Rattle.trace_model.specs.Listing.{Line as ModelLine, IsListing};
ghost use Rattle.time_merge.specs.Lines.{line_seen};
ghost use Rattle.time_merge.specs.Walks.{TakesAll};

use crate::lines::Line;
use crate::merged::lines_by_time;
use collector::Collector;
use std::alloc::Global;
use trace_model::NoMemory;

/// What takes lines one after the other, with a writer.
pub trait TakesLines<W> {
    // What it needs of itself and its writer before a line. It holds after the line too.
    ghost can_take: { (Self × W) → Type 0 };

    // What taking a line makes of both.
    ghost takes: { (Self × W) → ModelLine → (Self × W) → Type 0 };

    /// Takes the next line.
    fn take_line(&mut self, writer: &mut W, line: &Line<'_>)
        requires { can_take (self.old, writer.old) }
        ensures can { can_take (self.new, writer.new) }
        ensures taken { takes (self.old, writer.old) (line_seen line.now) (self.new, writer.new) };
}

/// Has the lines of the collector's listing taken, one after the other, each together with the writer. No list of them
/// is made. Memory is taken before the first line alone: some words for each stretch of neighbouring records of a CPU
/// whose moments don't fall.
///
/// If memory is refused, no line is taken.
pub fn walk_lines<W, T: TakesLines<W>>(
    alloc: Global,
    collector: &Collector,
    taker: &mut T,
    writer: &mut W,
) -> Result<(), NoMemory>
    requires { T.can_take (taker.old, writer.old) }
    ensures can { T.can_take (taker.new, writer.new) }
    ensures lines { OnOk result ((lines : List ModelLine) × IsListing collector.now lines
        × TakesAll T.takes (taker.old, writer.old) lines (taker.new, writer.new)) }
    ensures refused { OnErr result ((taker.new ≡ taker.old) × (writer.new ≡ writer.old)) }
{
    for line in lines_by_time(alloc, collector)? {
        taker.take_line(writer, &line);
    }
    Ok(())
}
