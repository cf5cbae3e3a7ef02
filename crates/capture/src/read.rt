//! A capture, read from its source in pieces of one page.
ghost use Rattle.std.specs.Prelude.{◌≡◌, ◌↔◌, ◌<◌, ◌≤◌, false, true, Err, length, take, IfOk, OnOk};
ghost use Rattle.std.specs.Prelude.{ℕ, List};
ghost use Rattle.std.specs.Io.KnownBytes.{IsAtEnd};
ghost use Rattle.trace_model.specs.declared.limits.TheConstants.{MAX_CPUS};
ghost use Rattle.capture.specs.Pages.{Page};
ghost use Rattle.capture.specs.Captures.{IsCapture};
ghost use Rattle.capture.specs.Reading.{IsRead, IsReadPast, IsReadSmaller};
ghost use Rattle.capture.specs.Reading.{IsReadOn, IsReadOnPast, IsReadOnSmaller};
ghost use Rattle.capture.specs.declared.pages.CaptureFault.{CaptureFault};
ghost use Rattle.capture.specs.declared.pages.CaptureFault.TheVariants.{NoMemory as MemoryIs};
ghost use Rattle.capture.specs.declared.read.ReadFault.TheVariants.{Capture as CaptureIs};

use crate::pages::{Capture, CaptureFault};
use crate::smaller::smaller_in;
use command_io::{Source, fill_piece};
use page_image::Missed;
use std::alloc::{AllocError, Global};
use trace_model::CpuId;

/// Why there is no capture.
#[derive(Clone, Copy, Debug, PartialEq, Eq)]
pub enum ReadFault {
    /// A read of its source failed.
    Read,
    /// What was read can't be held.
    Capture(CaptureFault),
    /// What was read as one page has several, of this many bytes each.
    SmallerPages(u32),
}

impl From<CaptureFault> for ReadFault {
    ghost from_gives = { λ f e. e ≡ CaptureIs f };

    fn from(fault: CaptureFault) -> ReadFault {
        ReadFault::Capture(fault)
    }
}

impl From<AllocError> for ReadFault {
    ghost from_gives = { λ _ e. e ≡ CaptureIs MemoryIs };

    fn from(_refused: AllocError) -> ReadFault {
        ReadFault::Capture(CaptureFault::NoMemory)
    }
}

/// How much a source had: whole pages, and bytes after them.
#[derive(Clone, Copy, Debug, PartialEq, Eq)]
pub struct Extent {
    /// How many whole pages.
    pub whole: u64,
    /// How many bytes after them, fewer than a page has.
    pub rest: usize,
}

/// Reads on in a source of whose first page `filled` bytes are read already, into `piece`: fewer than there is room
/// for only if it is at its end. Each page of it, which is as long as `piece` but for the last one, is read after those
/// that the capture has. Where there is no answer, the capture is of no use; and nothing is read after a fault, or
/// after a page that has several smaller ones.
pub fn read_on<R: Source>(
    alloc: Global,
    capture: &mut Capture,
    piece: &mut [u8],
    filled: usize,
    reader: &mut R,
) -> Result<Extent, ReadFault>
    requires cpu { capture.old.cpu.0 < MAX_CPUS }
    requires some { 0 < length piece.old }
    requires filled { filled ≤ length piece.old }
    requires at_end { filled < length piece.old → IsAtEnd (R.remaining reader.old) }
    requires known { (before : List Page) × IsCapture capture.old before }
    requires sound { R.failed reader.old ≡ false }
    ensures cpu { capture.new.cpu ≡ capture.old.cpu }
    ensures read { (before : List Page) → IsCapture capture.old before → IfOk result (λ extent.
        IsReadOn (length piece.old) (take filled piece.old) (R.remaining reader.old) (R.remaining reader.new)
        before capture.new extent) }
    ensures end { OnOk result (IsAtEnd (R.remaining reader.new)) }
    ensures read_fault { (R.failed reader.new ≡ true) ↔ (result ≡ Err ReadFault.Read) }
    ensures numbers { (before : List Page) → IsCapture capture.old before
        → result ≡ Err (ReadFault.Capture CaptureFault.Numbers)
        → IsReadOnPast (length piece.old) (take filled piece.old) (R.remaining reader.old) (R.remaining reader.new)
        before }
    ensures smaller { (bytes : ℕ) → result ≡ Err (ReadFault.SmallerPages bytes)
        → IsReadOnSmaller (length piece.old) (take filled piece.old) (R.remaining reader.old)
        (R.remaining reader.new) bytes }
{
    let before = capture.pages;
    let mut filled = filled;
    while filled == piece.len() {
        if let Some(bytes) = smaller_in(piece) {
            return Err(ReadFault::SmallerPages(bytes));
        }
        capture.add_page(alloc, piece, Missed::Unknown)?;
        let Ok(count) = fill_piece(reader, piece) else {
            return Err(ReadFault::Read);
        };
        filled = count;
    }
    let whole = capture.pages - before;
    let rest = &mut piece[..filled];
    if let Some(bytes) = smaller_in(rest) {
        return Err(ReadFault::SmallerPages(bytes));
    }
    capture.add_rest(alloc, rest, Missed::Unknown)?;
    Ok(Extent {
        whole,
        rest: filled,
    })
}

/// Reads all of a CPU's capture, whose pages have `size` bytes each, but for the last one, which may be shorter. At
/// most one page is held besides what is answered, and nothing is read after a fault.
pub fn read_capture<R: Source>(
    alloc: Global,
    cpu: CpuId,
    size: usize,
    reader: &mut R,
) -> Result<Capture, ReadFault>
    requires cpu { cpu.0 < MAX_CPUS }
    requires some { 0 < size }
    requires sound { R.failed reader.old ≡ false }
    ensures cpu { IfOk result (λ capture. capture.cpu ≡ cpu) }
    ensures read { IfOk result (λ capture. IsRead size (R.remaining reader.old) (R.remaining reader.new) capture) }
    ensures end { IfOk result (λ capture. IsAtEnd (R.remaining reader.new)) }
    ensures read_fault { (R.failed reader.new ≡ true) ↔ (result ≡ Err ReadFault.Read) }
    ensures numbers { result ≡ Err (ReadFault.Capture CaptureFault.Numbers)
        → IsReadPast size (R.remaining reader.old) (R.remaining reader.new) }
    ensures smaller { (bytes : ℕ) → result ≡ Err (ReadFault.SmallerPages bytes)
        → IsReadSmaller size (R.remaining reader.old) (R.remaining reader.new) bytes }
{
    let mut piece = vec![in alloc; 0u8; size]?;
    let mut capture = Capture::new(alloc, cpu);
    let Ok(filled) = fill_piece(reader, piece.as_mut_slice()) else {
        return Err(ReadFault::Read);
    };
    read_on(alloc, &mut capture, piece.as_mut_slice(), filled, reader)?;
    Ok(capture)
}
