//! A loss of unknown number, settled by the kernel's counters.
ghost use Rattle.std.specs.Prelude.{◌≡◌, ℕ, ◌^◌, ◌<◌, List, map, Option, Some, Err, IfOk, OnOk};
ghost use Rattle.std.specs.List.{slice_get};
ghost use Rattle.trace_model.specs.declared.limits.TheConstants.{MAX_CPUS};
ghost use Rattle.trace_model.specs.Image.{unknown};
ghost use Rattle.page_image.specs.Images.{missed_of};
ghost use Rattle.capture.specs.Pages.{Page};
ghost use Rattle.capture.specs.Captures.{IsCapture};
ghost use Rattle.trace_dat.specs.kernel_texts.Counters.{counters_in};
ghost use Rattle.capture.specs.files.Files.{parts_of_cpu};
ghost use Rattle.capture.specs.files.Losses.{cpu_counters_at, cpu_counters_of, overrun_by, missed_in, loss_of};
ghost use Rattle.capture.specs.files.Captures.{IsCpuRead, AreCpusRead, AreCpusCaptured, IsCpuPast, IsCpuSettled};
ghost use Rattle.capture.specs.files.Captures.{IsCpuCaptured, IsOwnPast};
ghost use Rattle.trace_dat.specs.declared.kernel_texts.counters.Counters.{Counters as ModelCounters};
ghost use Rattle.capture.specs.files.Giving.{part_seen};

use crate::files::captured::CpuCapture;
use crate::files::cpu_part::CpuPart;
use crate::{Capture, CaptureFault};
use page_image::Missed;
use page_numbers::Parcel;
use std::alloc::Global;
use trace_dat::kernel_texts::{Counters, ring_counters};
use trace_model::{CpuId, MAX_CPUS};

/// How many CPUs there can be.
const CPUS: usize = MAX_CPUS as usize;

/// Notes the counters that a text has, in place of others of their CPU.
fn note_counters(counted: &mut [Option<Counters>], text: &[u8])
    ensures { (cpu : ℕ) (before : Option ModelCounters) → slice_get counted.old cpu ≡ Some before
        → slice_get counted.new cpu ≡ Some (cpu_counters_at cpu (counters_in text.now) before) }
{
    if let Some(counters) = ring_counters(text) {
        if counters.cpu < counted.len() as u64 {
            counted[counters.cpu as usize] = Some(counters);
        }
    }
}

/// The counters of each CPU, by the first text that has them.
fn counters_of_cpus(texts: &[&[u8]]) -> [Option<Counters>; CPUS]
    ensures { (cpu : ℕ) → cpu < MAX_CPUS
        → slice_get result cpu ≡ Some (cpu_counters_of cpu (map (λ text. text.now) texts.now)) }
{
    let mut counted = [None; CPUS];
    let mut at = texts.len();
    while at > 0 {
        at -= 1;
        note_counters(&mut counted, texts[at]);
    }
    counted
}

/// How many records were overwritten, by the counters of their CPU.
fn overrun_by(counters: Option<Counters>) -> Option<u64>
    ensures { result ≡ overrun_by counters }
{
    match counters {
        Some(counters) => Some(counters.overrun),
        None => None,
    }
}

/// How many numbers parcels miss.
fn missed_of_all(parcels: &[Parcel]) -> u64
    requires { missed_in parcels.now < 2 ^ 64 }
    ensures { result ≡ missed_in parcels.now }
{
    let mut total = 0;
    for parcel in parcels {
        total += parcel.missed();
    }
    total
}

/// What is known of a loss of unknown number in a capture, if `overrun` records were overwritten.
fn loss_in(capture: &Capture, overrun: u64) -> Missed
    requires { (pages : List Page) × IsCapture capture.now pages }
    ensures { (pages : List Page) → IsCapture capture.now pages → missed_of result ≡ loss_of (Some overrun) pages }
{
    if capture.unknown.len() != 1 || !capture.damaged.is_empty() {
        return Missed::Unknown;
    }
    let counted = missed_of_all(capture.parcels.as_slice()) - 1;
    if counted < overrun {
        Missed::Count(overrun - counted)
    } else {
        Missed::Unknown
    }
}

/// Reads those of some parts that are a CPU's. A loss of unknown number is taken as `known`.
fn add_own(
    alloc: Global,
    cpu: CpuId,
    parts: &[CpuPart<'_>],
    known: Missed,
) -> Result<CpuCapture, CaptureFault>
    requires { cpu.0 < MAX_CPUS }
    ensures read { IfOk result (λ found.
        IsCpuRead (missed_of known) cpu.0 (parts_of_cpu cpu.0 (map part_seen parts.now)) found) }
    ensures past { result ≡ Err CaptureFault.Numbers → IsCpuPast (missed_of known) cpu.0 (map part_seen parts.now) }
{
    let mut found = CpuCapture::new(alloc, cpu);
    for part in parts {
        if part.cpu.0 == cpu.0 {
            found.add_part(alloc, part.size.bytes as usize, part.pages, known)?;
        }
    }
    Ok(found)
}

/// Settles the loss of unknown number of a CPU whose parts are among these, if it has one alone, and it is
/// known how many of its records were overwritten: its parts are read again.
fn settle_cpu(
    alloc: Global,
    found: &mut CpuCapture,
    parts: &[CpuPart<'_>],
    overrun: Option<u64>,
) -> Result<(), CaptureFault>
    requires cpu { found.old.capture.cpu.0 < MAX_CPUS }
    requires known { (pages : List Page) × IsCapture found.old.capture pages }
    ensures settled { (cpu : ℕ) → IsCpuRead unknown cpu (parts_of_cpu cpu (map part_seen parts.now)) found.old
        → OnOk result (IsCpuSettled cpu overrun (parts_of_cpu cpu (map part_seen parts.now)) found.new) }
    ensures past { (cpu : ℕ) → IsCpuRead unknown cpu (parts_of_cpu cpu (map part_seen parts.now)) found.old
        → result ≡ Err CaptureFault.Numbers → IsOwnPast overrun cpu (map part_seen parts.now) }
{
    let Some(overrun) = overrun else {
        return Ok(());
    };
    let cpu = found.capture.cpu;
    let known = loss_in(&found.capture, overrun);
    if known == Missed::Unknown {
        return Ok(());
    }
    *found = CpuCapture::new(alloc, cpu);
    *found = add_own(alloc, cpu, parts, known)?;
    Ok(())
}

/// Settles the loss of unknown number of a CPU whose parts are among these by its counters, if there are some, and
/// keeps the counters.
fn settle_counted(
    alloc: Global,
    found: &mut CpuCapture,
    parts: &[CpuPart<'_>],
    counters: Option<Counters>,
) -> Result<(), CaptureFault>
    requires cpu { found.old.capture.cpu.0 < MAX_CPUS }
    requires known { (pages : List Page) × IsCapture found.old.capture pages }
    ensures settled { (cpu : ℕ) → IsCpuRead unknown cpu (parts_of_cpu cpu (map part_seen parts.now)) found.old
        → OnOk result (IsCpuCaptured cpu counters (parts_of_cpu cpu (map part_seen parts.now)) found.new) }
    ensures past { (cpu : ℕ) → IsCpuRead unknown cpu (parts_of_cpu cpu (map part_seen parts.now)) found.old
        → result ≡ Err CaptureFault.Numbers → IsOwnPast (overrun_by counters) cpu (map part_seen parts.now) }
{
    settle_cpu(alloc, found, parts, overrun_by(counters))?;
    found.counters = counters;
    Ok(())
}

/// Settles the losses of unknown number of all CPUs, of which these are the parts, by texts of counters, and keeps the
/// counters.
pub(crate) fn settle(
    alloc: Global,
    cpus: &mut [CpuCapture],
    parts: &[CpuPart<'_>],
    texts: &[&[u8]],
) -> Result<(), CaptureFault>
    requires { AreCpusRead unknown (map part_seen parts.now) cpus.old }
    ensures settled { OnOk result (AreCpusCaptured (λ cpu. cpu_counters_of cpu (map (λ text. text.now) texts.now))
        (map part_seen parts.now) cpus.new) }
    ensures past { result ≡ Err CaptureFault.Numbers → (cpu : ℕ)
        × IsOwnPast (overrun_by (cpu_counters_of cpu (map (λ text. text.now) texts.now))) cpu
        (map part_seen parts.now) }
{
    let counted = counters_of_cpus(texts);
    for cpu in 0..CPUS {
        settle_counted(alloc, &mut cpus[cpu], parts, counted[cpu])?;
    }
    Ok(())
}
