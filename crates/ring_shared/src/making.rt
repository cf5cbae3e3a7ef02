//! The two ends of a new ring.
ghost use Rattle.std.specs.Prelude.{◌+◌, ◌<◌, IfOk};
ghost use Rattle.trace_model.specs.declared.limits.TheConstants.{LINK_FILLS, START_FILL};
ghost use Rattle.trace_model.specs.Ring.{HasRingLimits};
ghost use Rattle.ring_shared.specs.NewEnds.{AreNewEnds};

use crate::reader::Reader;
use crate::writer::Writer;
use ring_steps::seats_at;
use std::alloc::Global;
use trace_model::{NoMemory, START_FILL};

/// The two ends of a new ring of `pages` pages (2 to 1,024) and a spare, of `size` bytes of data each (32 to 65,520, a
/// multiple of 4), whose first fill has the number `start`; `start + pages` is less than 2^48. Either can go to another
/// thread. All room is made here, or `NoMemory` is answered: no call on them takes memory.
pub fn ring_at(
    alloc: Global,
    pages: usize,
    size: usize,
    start: u64,
) -> Result<(Writer, Reader), NoMemory>
    requires limits { HasRingLimits pages size }
    requires start { start + pages < LINK_FILLS }
    ensures { IfOk result (λ ends. AreNewEnds (record { pages = pages; size = size; start = start }) ends.0 ends.1) }
{
    let (writer, reader) = seats_at(alloc, pages, size, start)?;
    let writer = Writer::new(alloc, writer)?;
    let reader = Reader::new(alloc, reader)?;
    Ok((writer, reader))
}

/// The two ends of a new ring whose first fill has the number `START_FILL`.
///
/// ```
/// let (mut writer, _reader): (Writer, Reader) = ring(rt.alloc(), 2, 32)?;
/// assert!(rt; matches!(writer.begin(100, 4), Answer::Pushed));
/// assert!(rt; matches!(writer.step(), Answer::Reserved(RecordNo(0))));
/// writer.top_mut()?.fill(7);
/// assert!(rt; matches!(writer.end(), Answer::Ended(Ended::Full)));
/// assert!(rt; matches!(writer.step(), Answer::Gone));
/// ```
pub fn ring(alloc: Global, pages: usize, size: usize) -> Result<(Writer, Reader), NoMemory>
    requires limits { HasRingLimits pages size }
    ensures { IfOk result (λ ends. AreNewEnds (record { pages = pages; size = size; start = START_FILL })
        ends.0 ends.1) }
{
    ring_at(alloc, pages, size, START_FILL)
}
