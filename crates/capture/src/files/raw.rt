//! Raw pages of a CPU.
ghost use Rattle.std.specs.Prelude.{◌≡◌, ◌↔◌, ℕ, ◌+◌, ◌*◌, ◌^◌, ◌<◌, ◌≤◌, true, false, List, length, take};
ghost use Rattle.std.specs.Prelude.{Err, IfOk, OnOk};
ghost use Rattle.std.specs.Io.KnownBytes.{IsAtEnd};
ghost use Rattle.trace_model.specs.declared.limits.TheConstants.{MAX_CPUS};
ghost use Rattle.trace_model.specs.Image.{unknown};
ghost use Rattle.capture.specs.files.Files.{ModelPart};
ghost use Rattle.capture.specs.files.Captures.{IsCpuRead, AddsRaw, IsRawPast, IsRawSmaller};

use crate::files::captured::CpuCapture;
use crate::{CaptureFault, Extent, Part, ReadFault, read_on};
use command_io::Source;
use std::alloc::Global;

/// The part that is as large as this, in pages of `size` bytes.
fn part_of(size: usize, extent: Extent) -> Result<Part, CaptureFault>
    ensures part { IfOk result (λ part. part ≡ record { size = size; length = size * extent.whole + extent.rest }) }
    ensures past { result ≡ Err CaptureFault.Numbers → 2 ^ 64 ≤ size * extent.whole + extent.rest }
{
    let size = size as u64;
    let whole = size.checked_mul(extent.whole).ok_or(CaptureFault::Numbers)?;
    let length = whole
        .checked_add(extent.rest as u64)
        .ok_or(CaptureFault::Numbers)?;
    Ok(Part { size, length })
}

/// Reads a part more, which is all that a source has: of its first page `filled` bytes are read already, into `piece`,
/// which is as long as a page.
pub(crate) fn add_raw<R: Source>(
    alloc: Global,
    found: &mut CpuCapture,
    piece: &mut [u8],
    filled: usize,
    reader: &mut R,
) -> Result<(), ReadFault>
    requires cpu { found.old.capture.cpu.0 < MAX_CPUS }
    requires some { 0 < length piece.old }
    requires filled { filled ≤ length piece.old }
    requires at_end { filled < length piece.old → IsAtEnd (R.remaining reader.old) }
    requires known { (cpu : ℕ) × (parts : List ModelPart) × IsCpuRead unknown cpu parts found.old }
    requires sound { R.failed reader.old ≡ false }
    ensures read { (cpu : ℕ) (parts : List ModelPart) → IsCpuRead unknown cpu parts found.old
        → OnOk result (AddsRaw cpu (length piece.old) (take filled piece.old) (R.remaining reader.old)
        (R.remaining reader.new) parts found.new) }
    ensures end { OnOk result (IsAtEnd (R.remaining reader.new)) }
    ensures read_fault { (R.failed reader.new ≡ true) ↔ (result ≡ Err ReadFault.Read) }
    ensures past { (cpu : ℕ) (parts : List ModelPart) → IsCpuRead unknown cpu parts found.old
        → result ≡ Err (ReadFault.Capture CaptureFault.Numbers)
        → IsRawPast cpu (length piece.old) (take filled piece.old) (R.remaining reader.old) (R.remaining reader.new)
        parts }
    ensures smaller { (bytes : ℕ) → result ≡ Err (ReadFault.SmallerPages bytes) → IsRawSmaller (length piece.old)
        (take filled piece.old) (R.remaining reader.old) (R.remaining reader.new) bytes }
{
    let size = piece.len();
    let extent = read_on(alloc, &mut found.capture, piece, filled, reader)?;
    let part = part_of(size, extent)?;
    found.count_part(part)?;
    Ok(())
}
