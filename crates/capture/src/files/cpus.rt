//! What is read of all CPUs.
ghost use Rattle.std.specs.Prelude.{◌≡◌, ℕ, ◌<◌, List, [], ◌∷◌, ◌++◌, length, map, Err, IfOk, OnOk};
ghost use Rattle.trace_model.specs.declared.limits.TheConstants.{MAX_CPUS};
ghost use Rattle.trace_model.specs.Image.{unknown};
ghost use Rattle.capture.specs.files.Files.{ModelPart};
ghost use Rattle.capture.specs.files.Captures.{AreCpusRead, IsCpuPast};
ghost use Rattle.capture.specs.files.Giving.{part_seen};

use crate::CaptureFault;
use crate::files::captured::CpuCapture;
use crate::files::cpu_part::CpuPart;
use page_image::Missed;
use std::alloc::{AllocError, Global};
use trace_model::{CpuId, MAX_CPUS};

/// All CPUs, of which nothing is read.
pub(crate) fn new_cpus(alloc: Global) -> Result<Vec<CpuCapture>, AllocError>
    ensures { IfOk result (λ cpus. AreCpusRead unknown [] cpus.items) }
{
    let mut cpus = Vec::new(alloc);
    for cpu in 0..MAX_CPUS {
        cpus.push(CpuCapture::new(alloc, CpuId(cpu)))?;
    }
    Ok(cpus)
}

/// Reads a part more.
fn add_to(alloc: Global, cpus: &mut [CpuCapture], part: &CpuPart<'_>) -> Result<(), CaptureFault>
    requires count { length cpus.old ≡ MAX_CPUS }
    requires known { (parts : List ModelPart) × AreCpusRead unknown parts cpus.old }
    ensures read { (parts : List ModelPart) → AreCpusRead unknown parts cpus.old
        → OnOk result (AreCpusRead unknown (parts ++ part_seen part.now ∷ []) cpus.new) }
    ensures past { (parts : List ModelPart) → AreCpusRead unknown parts cpus.old
        → result ≡ Err CaptureFault.Numbers → (cpu : ℕ) × IsCpuPast unknown cpu (parts ++ part_seen part.now ∷ []) }
{
    cpus[part.cpu.0 as usize].add_part(alloc, part.size.bytes as usize, part.pages, Missed::Unknown)
}

/// Reads parts more, one after the other.
pub(crate) fn add_parts(
    alloc: Global,
    cpus: &mut [CpuCapture],
    parts: &[CpuPart<'_>],
) -> Result<(), CaptureFault>
    requires known { (before : List ModelPart) × AreCpusRead unknown before cpus.old }
    ensures read { (before : List ModelPart) → AreCpusRead unknown before cpus.old
        → OnOk result (AreCpusRead unknown (before ++ map part_seen parts.now) cpus.new) }
    ensures past { (before : List ModelPart) → AreCpusRead unknown before cpus.old
        → result ≡ Err CaptureFault.Numbers
        → (cpu : ℕ) × IsCpuPast unknown cpu (before ++ map part_seen parts.now) }
{
    for part in parts {
        add_to(alloc, cpus, part)?;
    }
    Ok(())
}
