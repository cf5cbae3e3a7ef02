//! What changes of a CPU of a stream, other than by a parcel.
ghost use Rattle.std.specs.Prelude.{◌≡◌, ◌<◌, Ok, OnErr};
ghost use Rattle.trace_model.specs.declared.limits.TheConstants.{MAX_CPUS};
ghost use Rattle.stream_collector.specs.declared.added.Marked.TheVariants.{New as NewMark, Known as KnownMark};
ghost use Rattle.stream_collector.specs.declared.fault.MarkFault.TheVariants.{NoMemory as MemoryIs};
ghost use Rattle.fleet_collector.specs.Fleet.{HasKnownCpus};
ghost use Rattle.fleet_collector.specs.Changes.{IsChangedBy};

use parcel_streams::Mark;
use stream_collector::{MarkFault, Marked, StreamCollector};
use trace_model::{CpuId, RecordNo};

/// What is said of a CPU by a mark, or done to its bound.
#[derive(Clone, Copy)]
pub(crate) enum Change {
    /// `set_end` with this number of records.
    End(RecordNo),
    /// `forgotten` with this bound.
    Forgotten(RecordNo),
    /// `forget` with this bound.
    Forget(RecordNo),
    /// `give_up` with this bound.
    GiveUp(RecordNo),
    /// `mark_undelivered` with the numbers from this one up to that one.
    Undelivered(RecordNo, RecordNo),
}

impl From<Mark> for Change {
    ghost use Rattle.std.specs.Prelude.{◌≡◌};
    ghost use Rattle.fleet_collector.specs.Changes.{change_of};

    ghost from_gives = { λ mark change. change ≡ change_of mark };

    fn from(mark: Mark) -> Change {
        match mark {
            Mark::End(count) => Change::End(RecordNo(count)),
            Mark::Forgotten(bound) => Change::Forgotten(RecordNo(bound)),
            Mark::Undelivered(first, end) => Change::Undelivered(RecordNo(first), RecordNo(end)),
        }
    }
}

/// Changes what is known of a stream.
pub(crate) fn apply(
    known: &mut StreamCollector,
    cpu: CpuId,
    change: Change,
) -> Result<Marked, MarkFault>
    requires { cpu.0 < MAX_CPUS }
    ensures changed { IsChangedBy change cpu.0 known.old known.new result }
    ensures unchanged { result ≡ Ok KnownMark → known.new ≡ known.old }
    ensures refused { OnErr result (known.new ≡ known.old) }
    ensures cpus { HasKnownCpus known.old → HasKnownCpus known.new }
    // A change that says something new may also be refused for want of memory.
    ensures no_memory { result ≡ Ok NewMark → IsChangedBy change cpu.0 known.old known.old (Err MemoryIs) }
{
    match change {
        Change::End(count) => known.set_end(cpu, count),
        Change::Forgotten(bound) => known.forgotten(cpu, bound),
        Change::Forget(bound) => known.forget(cpu, bound),
        Change::GiveUp(bound) => known.give_up(cpu, bound),
        Change::Undelivered(first, end) => known.mark_undelivered(cpu, first, end),
    }
}
