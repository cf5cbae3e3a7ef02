//! The two ends of a ring after their threads.
ghost use Rattle.std.specs.Prelude.{◌≡◌, [], IfOk, IfErr};
ghost use Rattle.page_numbers.specs.Parcels.{as_parcels};
ghost use Rattle.ring_shared.specs.Calls.{IsWriter};
ghost use Rattle.trace_run.specs.ledgers.Audit.{taken_of};
ghost use Rattle.trace_run.specs.readers.Ledgers.{writer_in, IsLedger};
ghost use Rattle.trace_run.specs.threaded.Asked.{HaveReadersPassed};
ghost use Rattle.trace_run.specs.threaded.Taking.{IsStop};

use crate::ledgers::Ledger;
use crate::readers::{Found, ReaderEnd, settle};
use crate::threaded::reading::{Stop, pass_on};
use crate::threaded::sharing::PassesOn;
use ring_shared::Writer;
use std::alloc::Global;
use std::sync::Wait;
use trace_model::CpuId;

/// Takes each page that is still closed and unread, and passes it on, as the reader's thread does; then settles the
/// ends.
#[tactic(auto, using(crate::proofs::ReaderSteps::takes_none))]
pub(crate) fn settle_ends<R: Wait, P: PassesOn>(
    rt: &R,
    alloc: Global,
    writer: Writer,
    end: ReaderEnd,
    cpu: CpuId,
    passing: &P,
) -> Result<Ledger, Stop>
    requires writer { IsWriter writer }
    requires at_rest { writer.part.frames ≡ [] }
    requires one_ring { end.reader.table ≡ writer.table }
    ensures ledger { IfOk result (IsLedger end.cpu writer.shape) }
    ensures writer { IfOk result (λ ledger. writer_in ledger ≡ writer.part) }
    ensures passed { IfOk result (λ ledger. HaveReadersPassed P.answers passing.now cpu.0 (as_parcels end.taken)
        → HaveReadersPassed P.answers passing.now cpu.0 (taken_of ledger)) }
    ensures shut { IfErr result (IsStop P.answers passing.now cpu.0) }
{
    let mut end = end;
    for _ in rt.forever() {
        if end.has_all(&writer) {
            return Ok(settle(alloc, writer, end));
        }
        let (next, found) = end.take(alloc)?;
        end = next;
        if found == Found::Page {
            pass_on(rt, &end, cpu, passing)?;
        }
    }
    unreachable!()
}
