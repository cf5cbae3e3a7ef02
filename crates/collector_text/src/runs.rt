//! The lines of a collector's missing numbers.
ghost use Rattle.std.specs.Prelude.{◌≡◌, ℕ, ◌++◌, List, [], OnOk, flat_map, slice_index_or};
ghost use Rattle.std.specs.Fmt.{decimal};
ghost use Rattle.trace_model.specs.Sublist.{IsPrefix};
ghost use Rattle.collector.specs.Runs.{AreMissingRuns};
ghost use Rattle.world_model.specs.Printing.{printed_missing, printed_runs};

use collector::Collector;
use text_values::put_number;
use trace_model::{CpuId, MAX_CPUS, NoMemory, RecordNo};

/// A number with text around it. On an error a part of that may be put.
#[inline(always)]
fn put_between(out: &mut Vec<u8>, before: &[u8], number: u64, after: &[u8]) -> Result<(), NoMemory>
    ensures text { OnOk result (out.new.items ≡ out.old.items ++ (before.now ++ decimal number ++ after.now)) }
    ensures behind { IsPrefix out.old.items out.new.items }
{
    out.extend_from_slice(before)?;
    put_number(out, number)?;
    out.extend_from_slice(after)?;
    Ok(())
}

/// A run's line: its CPU, its first and its last number. On an error a part of that may be put.
fn put_run(out: &mut Vec<u8>, cpu: CpuId, first: RecordNo, last: RecordNo) -> Result<(), NoMemory>
    ensures text { OnOk result (out.new.items ≡ out.old.items ++ printed_missing cpu.0 (first.0, last.0)) }
    ensures behind { IsPrefix out.old.items out.new.items }
{
    put_between(out, b"missing ", u64::from(cpu.0), b" ")?;
    put_between(out, b"", first.0, b"-")?;
    put_between(out, b"", last.0, b"\n")
}

/// The lines of the missing runs of one CPU. On an error a part of that may be put.
fn put_runs_of(out: &mut Vec<u8>, collector: &Collector, cpu: CpuId) -> Result<(), NoMemory>
    ensures text { OnOk result ((runs : List (ℕ × ℕ)) × AreMissingRuns collector.now cpu.0 runs
        × (out.new.items ≡ out.old.items ++ flat_map (printed_missing cpu.0) runs)) }
    ensures behind { IsPrefix out.old.items out.new.items }
{
    for (first, last) in collector.missing(cpu) {
        put_run(out, cpu, first, last)?;
    }
    Ok(())
}

/// The lines of the missing runs of each CPU. On an error a part of that may be put.
pub(crate) fn put_runs(out: &mut Vec<u8>, collector: &Collector) -> Result<(), NoMemory>
    ensures text { OnOk result ((runs : List (List (ℕ × ℕ)))
        × ((cpu : ℕ) → AreMissingRuns collector.now cpu (slice_index_or runs cpu []))
        × (out.new.items ≡ out.old.items ++ printed_runs runs)) }
    ensures behind { IsPrefix out.old.items out.new.items }
{
    let _parcels = collector.parcels();
    for cpu in 0..MAX_CPUS {
        put_runs_of(out, collector, CpuId(cpu))?;
    }
    Ok(())
}
