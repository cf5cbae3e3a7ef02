//! Numbers that were given up, as parcels without a record.
ghost use Rattle.std.specs.Prelude.{◌≡◌, ◌<◌, ◌↔◌, false, IfOk, OnOk, OnErr};
ghost use Rattle.trace_model.specs.declared.limits.TheConstants.{MAX_CPUS};
ghost use Rattle.page_numbers.specs.Parcels.{as_parcel};
ghost use Rattle.stream_collector.specs.Stream.{HaveNoRecord};
ghost use Rattle.stream_collector.specs.GivenUp.{run_of, GivesUp, AllGivenUp};

use collector::Collector;
use page_image::{Body, Page};
use page_numbers::Parcel;
use std::alloc::Global;
use trace_model::{CpuId, FillNo, MIN_SIZE, NoMemory, RecordNo};

/// A parcel without a record, which misses these numbers of a CPU.
fn run_parcel(alloc: Global, cpu: CpuId, first: u64, end: u64) -> Result<Parcel, NoMemory>
    requires cpu { cpu.0 < MAX_CPUS }
    requires forward { first < end }
    ensures { IfOk result (λ parcel. as_parcel parcel ≡ run_of cpu.0 first end) }
{
    let page = Page::fresh(Body::new(alloc, MIN_SIZE)?, RecordNo(end), FillNo(0));
    Parcel::fitted(alloc, cpu, &page, end - first)
}

/// Gives up these numbers of a CPU. The answer is whether any of them wasn't given up yet.
pub(crate) fn give_up_run(
    given_up: &mut Collector,
    alloc: Global,
    cpu: CpuId,
    first: u64,
    end: u64,
) -> Result<bool, NoMemory>
    requires cpu { cpu.0 < MAX_CPUS }
    requires forward { first < end }
    requires none { HaveNoRecord given_up.old }
    ensures none { HaveNoRecord given_up.new }
    ensures given_up { OnOk result (GivesUp given_up.old given_up.new cpu.0 first end) }
    ensures known { IfOk result (λ grows. (grows ≡ false) ↔ AllGivenUp given_up.old cpu.0 first end) }
    ensures unchanged { IfOk result (λ grows. grows ≡ false → given_up.new ≡ given_up.old) }
    ensures refused { OnErr result (given_up.new ≡ given_up.old) }
    ensures no_memory { OnErr result (AllGivenUp given_up.old cpu.0 first end → ⊥) }
{
    match given_up.next_unknown_run(cpu, RecordNo(first), RecordNo(end)) {
        None => return Ok(false),
        Some(_) => {}
    }
    let parcel = run_parcel(alloc, cpu, first, end)?;
    match given_up.add(parcel) {
        Ok(_) => Ok(true),
        Err(_) => Err(NoMemory),
    }
}
