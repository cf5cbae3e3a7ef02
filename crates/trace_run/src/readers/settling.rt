//! The two ends of a ring, joined after a run.
ghost use Rattle.std.specs.Prelude.{◌≡◌, [], Some};
ghost use Rattle.ring_shared.specs.Calls.{IsWriter};
ghost use Rattle.ring_shared.specs.Settling.{AreEndsOf, IsSettled};
ghost use Rattle.trace_run.specs.readers.Ledgers.{IsLedger};

use crate::ledgers::Ledger;
use crate::readers::end::ReaderEnd;
use ring_shared::Writer;
use std::alloc::Global;

/// Joins the two ends of a ring: its ledger is the ring, settled, and the parcels that the reader took. The writer has
/// no frame on its stack, and the last take found that all closed fills are taken or lost (`has_all`).
pub fn settle(alloc: Global, writer: Writer, end: ReaderEnd) -> Ledger
    requires writer { IsWriter writer }
    requires one_ring { end.reader.table ≡ writer.table }
    requires at_rest { writer.part.frames ≡ [] }
    requires all_read { end.reader.empty_at ≡ Some writer.part.done }
    ensures ledger { IsLedger end.cpu writer.shape result }
    ensures ends { AreEndsOf writer.part end.reader.part result.settled }
    ensures settled { IsSettled writer.shape writer.part end.reader.part result.settled }
    ensures taken { result.taken.items ≡ end.taken }
{
    let ReaderEnd { reader, taken, .. } = end;
    match ring_shared::settle(alloc, writer, reader) {
        Ok(settled) => Ledger { settled, taken },
        Err(_) => unreachable!(),
    }
}
