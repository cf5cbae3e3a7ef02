//! A reader's thread.
ghost use Rattle.std.specs.Prelude.{◌≡◌, ◌≢◌, [], OnOk, IfErr};
ghost use Rattle.page_numbers.specs.Parcels.{as_parcels};
ghost use Rattle.trace_run.specs.threaded.Taking.{IsStop, IsPassedLast, HasTaken};

use crate::readers::{Found, ReaderEnd};
use crate::threaded::sharing::PassesOn;
use crate::writers::Gate;
use crossbeam_utils::Backoff;
use std::alloc::Global;
use std::snapshot::Snapshot;
use std::sync::Wait;
use std::sync::atomic::{AtomicBool, Ordering};
use std::thread::Promise;
use trace_model::{CpuId, FillNo, NoMemory};

/// Why a reader's thread has stopped before its last take: one that began after its writer was over, and found nothing.
#[derive(Clone, Copy, Debug)]
pub(crate) enum Stop {
    NoMemory,
    /// The gate didn't let the reader pass after it took the page of this fill.
    Shut(FillNo),
}

impl From<NoMemory> for Stop {
    ghost use Rattle.trace_run.specs.declared.threaded.reading.Stop.TheVariants.{NoMemory as no_memory};

    ghost from_gives = { λ _ stop. stop ≡ no_memory };

    fn from(_refused: NoMemory) -> Stop {
        Stop::NoMemory
    }
}

/// The promise of a reader's thread, kept by what it returns: it is the same end, with what it took, or the gate
/// stopped it, or memory was refused.
#[derive(Drop)]
pub(crate) struct Takes<'a, G: Gate> {
    pub(crate) gate: &'a G,
    pub(crate) cpu: CpuId,
    pub(crate) was: Snapshot<ReaderEnd>,
}

impl<'a, G: Gate> Promise<Result<ReaderEnd, Stop>> for Takes<'a, G> {
    ghost kept_by = { λ p r. HasTaken G.answers p.gate.now p.cpu.0 p.was.value r };
}

/// Passes on the page that was taken last.
pub(crate) fn pass_on<R: Wait, P: PassesOn>(
    rt: &R,
    end: &ReaderEnd,
    cpu: CpuId,
    passing: &P,
) -> Result<(), Stop>
    requires { end.now.taken ≢ [] }
    ensures passed { OnOk result (IsPassedLast P.answers passing.now cpu.0 (as_parcels end.now.taken)) }
    ensures shut { IfErr result (IsStop P.answers passing.now cpu.0) }
{
    let Some(parcel) = end.last() else {
        unreachable!()
    };
    let passes = passing.pass_on(rt, cpu, parcel)?;
    if passes {
        return Ok(());
    }
    Err(Stop::Shut(parcel.fill()))
}

/// Takes pages, and passes each one on, until the writer's thread was over before a take that found nothing. If there
/// is nothing to take, it gives way to other threads.
#[tactic(auto, using(crate::proofs::ReaderSteps::takes_none))]
pub(crate) fn take_pages<R: Wait, P: PassesOn>(
    rt: &R,
    alloc: Global,
    end: ReaderEnd,
    cpu: CpuId,
    passing: &P,
    over: &AtomicBool,
) -> Result<ReaderEnd, Stop>
    ensures { HasTaken P.answers passing.now cpu.0 end result }
{
    let mut end = end;
    let backoff = Backoff::new();
    for _ in rt.forever() {
        let was_over = over.load(Ordering::SeqCst);
        let (next, found) = end.take(alloc)?;
        end = next;
        if found == Found::Page {
            pass_on(rt, &end, cpu, passing)?;
            backoff.reset();
        } else if found == Found::Empty && was_over {
            break;
        } else {
            backoff.snooze();
        }
    }
    Ok(end)
}
