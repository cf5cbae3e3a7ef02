//! The two ends of a ring, settled.
use crate::reader::Reader;
use crate::writer::Writer;
use page_image::Page;
use ring_steps::SettledSeats;
use std::alloc::Global;

/// What is left of a ring whose ends were joined. Contracts see in it the parts of both ends, as they were then.
#[derive(Debug, Drop)]
pub struct Settled {
    pub(crate) tail: Page,
    pub(crate) seats: SettledSeats,
}

impl Settled {
    ghost use Rattle.std.specs.Prelude.{◌≡◌, Some, None, MatchOption};
    ghost use Rattle.ring_shared.specs.Settling.{unread_page};

    /// The page that no take has answered: the tail, if it holds a record.
    pub fn unread(&self) -> Option<&Page>
        ensures { MatchOption result (unread_page self.now ≡ None) (λ page. unread_page self.now ≡ Some page.now) }
    {
        if self.tail.count() == 0 {
            return None;
        }
        Some(&self.tail)
    }
}

/// Why two ends weren't settled: `settle` takes no memory, and never answers it.
#[derive(Debug, Drop)]
pub enum SettleFault {
    /// There was no memory. The ends are returned.
    NoMemory(Writer, Reader),
}

ghost use Rattle.std.specs.Prelude.{◌≡◌, [], Some, IfOk, IfErr};
ghost use Rattle.ring_shared.specs.Calls.{IsWriter};
ghost use Rattle.ring_shared.specs.Takes.{IsReader};
ghost use Rattle.ring_shared.specs.Settling.{AreEndsOf, IsSettled, IsStopped};

/// Joins the two ends of a ring: the pages that its reader took, and then the unread one if there is one, are all
/// records that its writer committed, except those that are reported as missed. The writer has no frame on its stack,
/// and the last take found that all closed fills are taken or lost. Two such ends are always settled.
pub fn settle(alloc: Global, writer: Writer, reader: Reader) -> Result<Settled, SettleFault>
    requires writer { IsWriter writer }
    requires reader { IsReader reader }
    requires one_ring { reader.table ≡ writer.table }
    requires at_rest { writer.part.frames ≡ [] }
    requires all_read { reader.empty_at ≡ Some writer.part.done }
    ensures ends { IfOk result (λ settled. AreEndsOf writer.part reader.part settled) }
    ensures settled { IfOk result (λ settled. IsSettled writer.shape writer.part reader.part settled) }
    ensures never { IfErr result (λ _. ⊥) }
{
    let _alloc = alloc;
    let Writer { seat, frames, .. } = writer;
    let Reader { seat: other, .. } = reader;
    let seats = ring_steps::settle(seat, other);
    Ok(Settled {
        tail: frames.into_tail(),
        seats,
    })
}

/// Joins the two ends of a ring at any moment: whatever frames are open, whatever is unread, also during a take.
/// Each committed record is on a page that was taken, is counted as missed before one, was overwritten since, or is
/// unread in the ring; and all that both ends asked so far, with all that was answered, is one run of the model.
pub fn stop(writer: Writer, reader: Reader) -> SettledSeats
    requires one_ring { reader.table ≡ writer.table }
    ensures { IsStopped writer.shape writer.part reader.part }
{
    let Writer { seat, .. } = writer;
    let Reader { seat: other, .. } = reader;
    ring_steps::settle(seat, other)
}
