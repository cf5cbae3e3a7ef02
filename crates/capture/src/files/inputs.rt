//! All files, one after the other.
ghost use Rattle.std.specs.Prelude.{◌≡◌, ◌<◌, ◌≤◌, ℕ, false, true, List, [], take, length, All, IfOk, IfErr};
ghost use Rattle.std.specs.Prelude.{OnOk};
ghost use Rattle.std.specs.Io.KnownBytes.{IsAtEnd};
ghost use Rattle.trace_model.specs.declared.limits.TheConstants.{MAX_CPUS};
ghost use Rattle.capture.specs.files.Files.{File, is_dat};
ghost use Rattle.capture.specs.files.Captures.{AreFilesRead, AreCaptured, unsaid};
ghost use Rattle.capture.specs.files.FilesRead.{IsAlone, AddsRestOf, IsRestFault};
ghost use Rattle.capture.specs.files.Inputs.{AreRead, IsUnread};

use crate::files::captured::{Captured, Input, Wanted};
use crate::files::cpus::new_cpus;
use crate::files::dat::{Losses, add_dat};
use crate::files::fault::{InputFault, Unread};
use crate::files::first::read_rest;
use crate::files::raw::add_raw;
use command_io::{Source, fill_piece};
use kernel_names::{SymbolNames, TaskNames};
use std::alloc::{AllocError, Global};
use trace_dat::kernel_texts::EventNames;
use trace_dat::resembles_trace_dat;
use trace_model::CpuId;

/// Reads a file of trace-cmd, which has this index, and of which the first bytes are read already.
fn read_dat<R: Source>(
    alloc: Global,
    name: &[u8],
    first: &[u8],
    reader: &mut R,
    index: usize,
    losses: Losses,
    captured: &mut Captured,
) -> Result<(), InputFault>
    requires dat { is_dat name.now first.now ≡ true }
    requires sound { R.failed reader.old ≡ false }
    requires known { (page : ℕ) × (files : List File) × IsAlone losses files
        × AreFilesRead unsaid page name.now files captured.old }
    ensures read { (page cpu : ℕ) (files : List File) → IsAlone losses files → length files ≡ index
        → AreFilesRead unsaid page name.now files captured.old → OnOk result
        (AddsRestOf losses page name.now cpu first.now (R.remaining reader.old) (R.remaining reader.new) files
        captured.new) }
    ensures wanted { captured.new.wanted ≡ captured.old.wanted }
    ensures end { OnOk result (IsAtEnd (R.remaining reader.new)) }
    ensures sound { OnOk result (R.failed reader.new ≡ false) }
    ensures fault { (page cpu : ℕ) (files : List File) → IsAlone losses files
        → AreFilesRead unsaid page name.now files captured.old → IfErr result (λ fault.
        IsRestFault losses page name.now cpu first.now (R.remaining reader.old) (R.remaining reader.new)
        (R.failed reader.new) files fault) }
{
    let file = read_rest(alloc, first, reader)?;
    add_dat(alloc, captured, name, file.as_slice(), index, losses)
}

/// Reads a file of raw pages of a CPU, of whose first page `filled` bytes are read already, into `piece`.
fn read_raw<R: Source>(
    alloc: Global,
    cpu: CpuId,
    piece: &mut [u8],
    filled: usize,
    reader: &mut R,
    captured: &mut Captured,
) -> Result<(), InputFault>
    requires cpu { cpu.0 < MAX_CPUS }
    requires some { 48 ≤ length piece.old }
    requires filled { filled ≤ length piece.old }
    requires at_end { filled < length piece.old → IsAtEnd (R.remaining reader.old) }
    requires sound { R.failed reader.old ≡ false }
    requires known { (page : ℕ) × (name : List ℕ) × (files : List File)
        × AreFilesRead unsaid page name files captured.old }
    ensures read { (losses : Losses) (name : List ℕ) (files : List File) → is_dat name (take filled piece.old) ≡ false
        → AreFilesRead unsaid (length piece.old) name files captured.old
        → OnOk result (AddsRestOf losses (length piece.old) name cpu.0 (take filled piece.old) (R.remaining reader.old)
        (R.remaining reader.new) files captured.new) }
    ensures wanted { captured.new.wanted ≡ captured.old.wanted }
    ensures end { OnOk result (IsAtEnd (R.remaining reader.new)) }
    ensures sound { OnOk result (R.failed reader.new ≡ false) }
    ensures fault { (losses : Losses) (name : List ℕ) (files : List File) → is_dat name (take filled piece.old) ≡ false
        → AreFilesRead unsaid (length piece.old) name files captured.old
        → IfErr result (λ fault. IsRestFault losses (length piece.old) name cpu.0 (take filled piece.old)
        (R.remaining reader.old) (R.remaining reader.new) (R.failed reader.new) files fault) }
{
    add_raw(
        alloc,
        &mut captured.cpus[cpu.0 as usize],
        piece,
        filled,
        reader,
    )?;
    Ok(())
}

/// Whether a file that begins with these bytes is read as one of trace-cmd.
fn is_dat(name: &[u8], first: &[u8]) -> bool
    ensures { result ≡ is_dat name.now first.now }
{
    !name.is_empty() || resembles_trace_dat(first)
}

/// Reads a file, which has raw pages of this size, in bytes, if it isn't read as one of trace-cmd: of such a file the
/// buffer of this name. The file has this index.
fn read_input<R: Source>(
    alloc: Global,
    page: usize,
    name: &[u8],
    index: usize,
    input: &mut Input<R>,
    losses: Losses,
    captured: &mut Captured,
) -> Result<(), InputFault>
    requires page { 48 ≤ page }
    requires cpu { input.old.cpu.0 < MAX_CPUS }
    requires sound { R.failed input.old.reader ≡ false }
    requires known { (files : List File) × IsAlone losses files × AreFilesRead unsaid page name.now files captured.old }
    ensures cpu { input.new.cpu ≡ input.old.cpu }
    ensures read { (files : List File) → IsAlone losses files → length files ≡ index
        → AreFilesRead unsaid page name.now files captured.old
        → OnOk result (AddsRestOf losses page name.now input.old.cpu.0 [] (R.remaining input.old.reader)
        (R.remaining input.new.reader) files captured.new) }
    ensures wanted { captured.new.wanted ≡ captured.old.wanted }
    ensures end { OnOk result (IsAtEnd (R.remaining input.new.reader)) }
    ensures sound { OnOk result (R.failed input.new.reader ≡ false) }
    ensures fault { (files : List File) → IsAlone losses files → AreFilesRead unsaid page name.now files captured.old
        → IfErr result (λ fault. IsRestFault losses page name.now input.old.cpu.0 [] (R.remaining input.old.reader)
        (R.remaining input.new.reader) (R.failed input.new.reader) files fault) }
{
    let mut piece = vec![in alloc; 0u8; page]?;
    let Ok(filled) = fill_piece(&mut input.reader, piece.as_mut_slice()) else {
        return Err(InputFault::Read);
    };
    if is_dat(name, &piece[..filled]) {
        let first = &piece[..filled];
        return read_dat(
            alloc,
            name,
            first,
            &mut input.reader,
            index,
            losses,
            captured,
        );
    }
    read_raw(
        alloc,
        input.cpu,
        piece.as_mut_slice(),
        filled,
        &mut input.reader,
        captured,
    )
}

/// Nothing is read.
fn new_captured(alloc: Global, wanted: Wanted) -> Result<Captured, AllocError>
    ensures wanted { IfOk result (λ captured. captured.wanted ≡ wanted) }
    ensures none { IfOk result (λ captured. (page : ℕ) (name : List ℕ)
        → AreFilesRead unsaid page name [] captured) }
{
    Ok(Captured {
        cpus: new_cpus(alloc)?,
        names: EventNames::new(alloc),
        others: Vec::new(alloc),
        found: false,
        wanted,
        tasks: TaskNames::new(alloc),
        symbols: SymbolNames::new(alloc),
        machine: None,
        cut: None,
    })
}

/// Reads all files, one after the other, each to its end. `page` is the size of a raw page, in bytes. Of a file of
/// trace-cmd the trace buffer of this name is read, of an instance, or, if `name` is empty, the main one; nothing of it
/// if there is none. With the name of an instance each file has to be one of trace-cmd. Of the kernel's lists of names
/// those are read that are wanted. Files that say of their machines what differs are refused. After a fault nothing
/// more is read. Of a file of trace-cmd that was cut short the pages that it has are read, and its counters aren't. A
/// file of trace-cmd is held in memory while it is read, and not longer.
pub fn read_inputs<R: Source>(
    alloc: Global,
    page: usize,
    name: &[u8],
    wanted: Wanted,
    inputs: &mut [Input<R>],
) -> Result<Captured, Unread>
    requires page { 48 ≤ page }
    requires some { 0 < length inputs.old }
    requires cpus { All (λ input. input.cpu.0 < MAX_CPUS) inputs.old }
    requires sound { All (λ input. R.failed input.reader ≡ false) inputs.old }
    ensures read { IfOk result (λ captured. (files : List File)
        × AreRead R.remaining R.failed inputs.old inputs.new files × AreCaptured page name.now files captured) }
    ensures wanted { IfOk result (λ captured. captured.wanted ≡ wanted) }
    ensures unread { IfErr result (λ unread.
        IsUnread R.remaining R.failed page name.now inputs.old inputs.new unread.input unread.fault) }
{
    let Ok(mut captured) = new_captured(alloc, wanted) else {
        return Err(Unread {
            input: 0,
            fault: InputFault::NoMemory,
        });
    };
    let losses = if inputs.len() == 1 {
        Losses::Settled
    } else {
        Losses::Kept
    };
    for at in 0..inputs.len() {
        let input = &mut inputs[at];
        if let Err(fault) = read_input(alloc, page, name, at, input, losses, &mut captured) {
            return Err(Unread { input: at, fault });
        }
    }
    Ok(captured)
}
