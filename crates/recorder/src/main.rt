//! A flight recorder over the libraries, to be copied: two threads record events, each in a ring of its own, and a
//! third one takes pages from the larger ring meanwhile. The smaller ring is a flight recorder: it keeps the newest
//! events until somebody asks. After the threads, all that both rings have is taken: closed pages, then the last one.
//! The program prints the records by time, and which numbers are missing, as their pages were overwritten before
//! anybody took them.
#![tactic(auto)]

ghost use Rattle.std.specs.Prelude.{◌≡◌, IfOk};
ghost use Rattle.tracering.specs.Rings.{IsWriter, IsReader};

mod fault;
mod recording;
mod taking;

use crate::fault::Fault;
use crate::recording::record;
use crate::taking::{take_beside, take_rest};
use std::alloc::Global;
use std::process::ExitCode;
use std::thread::Threads;
use std::{str, thread};
use tracering::CpuId;
use tracering::collectors::{Collector, listing};
use tracering::rings::{Reader, Writer, ring};

/// The CPU with the smaller ring, which nobody reads before its writer is done.
const SMALL: CpuId = CpuId(0);

/// The CPU with the larger ring, which is read while it is written.
const LARGE: CpuId = CpuId(1);

/// The bytes of data of each page of both rings.
const SIZE: usize = 64;

/// Records the events of the larger ring in one thread, and takes its pages in another.
fn record_and_take<R: Threads + Sync>(
    rt: &R,
    alloc: Global,
    writer: Writer,
    reader: Reader,
) -> Result<(Writer, Reader, Collector), Fault>
    requires writer { IsWriter writer }
    requires reader { IsReader reader }
    requires size { reader.shape.size ≡ SIZE }
    ensures writer { IfOk result (λ ends. IsWriter ends.0) }
    ensures reader { IfOk result (λ ends. IsReader ends.1) }
    ensures size { IfOk result (λ ends. ends.1.shape.size ≡ SIZE) }
{
    let (recorded, taken) = thread::join(
        rt,
        move || record(writer, b"call"),
        move || take_beside(alloc, LARGE, reader),
    );
    let (reader, collector) = taken?;
    Ok((recorded?, reader, collector))
}

/// Records the events of both CPUs, and collects what their rings keep of them.
fn collect<R: Threads + AllocGlobal + Sync>(rt: &R) -> Result<Collector, Fault> {
    let alloc = rt.alloc();
    let (irqs, kept_irqs) = ring(alloc, 3, SIZE)?;
    let (calls, kept_calls) = ring(alloc, 16, SIZE)?;
    let (recorded, taken) = thread::join(
        rt,
        move || record(irqs, b"irq "),
        move || -> Result<(Writer, Reader, Collector), Fault>
            requires { IsWriter calls × IsReader kept_calls × (kept_calls.shape.size ≡ SIZE) }
            ensures { IfOk result (λ ends. IsWriter ends.0 × IsReader ends.1 × (ends.1.shape.size ≡ SIZE)) }
        { record_and_take(rt, alloc, calls, kept_calls) },
    );
    let (calls, kept_calls, mut collector) = taken?;
    take_rest(alloc, SMALL, recorded?, kept_irqs, &mut collector)?;
    take_rest(alloc, LARGE, calls, kept_calls, &mut collector)?;
    Ok(collector)
}

/// Prints each record by time, with its CPU and its number.
fn print_records<R: Print + AllocGlobal>(rt: &R, collector: &Collector) -> Result<(), Fault> {
    for line in &listing(rt.alloc(), collector)? {
        let event = str::from_utf8(line.bytes).unwrap_or("?");
        println!(rt;
            "{} cpu {} record {}: {event}",
            line.moment.0, line.cpu.0, line.number.0
        )?;
    }
    Ok(())
}

/// Prints the numbers that are missing.
fn print_missing<R: Print>(rt: &R, collector: &Collector) -> Result<(), Fault> {
    for cpu in [SMALL, LARGE] {
        for (first, last) in collector.missing(cpu) {
            println!(rt; "cpu {}: {} to {} are missing", cpu.0, first.0, last.0)?;
        }
    }
    Ok(())
}

/// Records, and prints what is left of it.
fn run<R: Threads + Print + AllocGlobal + Sync>(rt: &R) -> Result<(), Fault> {
    let collector = collect(rt)?;
    print_records(rt, &collector)?;
    print_missing(rt, &collector)
}

fn main(rt: HostRuntime) -> ExitCode {
    let Err(fault) = run(&rt) else {
        return ExitCode::SUCCESS;
    };
    let _ = eprintln!(rt; "recorder: {fault}");
    ExitCode::FAILURE
}
