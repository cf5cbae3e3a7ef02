//! A file of trace-cmd.
ghost use Rattle.std.specs.Prelude.{◌≡◌, ◌<◌, ◌^◌, ◌||◌, ℕ, true, List, ◌++◌, length, map, Err, Ok, IfErr, IsOk, OnOk};
ghost use Rattle.std.specs.Prelude.{if◌then◌else◌};
ghost use Rattle.std.specs.Option.{option_map, option_or};
ghost use Rattle.kernel_names.specs.Tasks.{HasTasks};
ghost use Rattle.kernel_names.specs.SymbolNames.{HasSymbols};
ghost use Rattle.trace_model.specs.Image.{unknown};
ghost use Rattle.trace_dat.specs.Contents.{EventFormat, format_seen, buffer_seen, contents_seen};
ghost use Rattle.trace_dat.specs.Versions.{reading_of};
ghost use Rattle.trace_dat.specs.kernel_texts.Names.{HasEvents};
ghost use Rattle.capture.specs.files.Files.{File, is_dat, names_of_others, has_named, formatted, lines_of};
ghost use Rattle.capture.specs.files.Files.{cut_at};
ghost use Rattle.capture.specs.files.Losses.{cpu_counters_of, overrun_by};
ghost use Rattle.capture.specs.files.Captures.{AreCpusRead, AreCpusCaptured, IsOwnPast, AreFilesRead, texts_held};
ghost use Rattle.capture.specs.files.Captures.{unsaid};
ghost use Rattle.capture.specs.files.FilesRead.{IsAlone, AddsFile, IsFileFault};
ghost use Rattle.capture.specs.files.Giving.{Gives, part_seen};

use crate::CaptureFault;
use crate::files::captured::{Captured, CpuCapture};
use crate::files::cpu_part::CpuPart;
use crate::files::cpus::add_parts;
use crate::files::cut::{counters_unless, cut_in, keep_cut};
use crate::files::fault::{FileFault, InputFault};
use crate::files::lists::{add_symbols, add_tasks};
use crate::files::machine::{is_same_machine, keep_machine};
use crate::files::others::{add_others, has_named};
use crate::files::parts::parts_of;
use crate::files::settle::settle;
use std::alloc::Global;
use trace_dat::{Fault, ReadError, TraceDat, read_trace_dat};
use trace_model::NoMemory;

/// Whether a CPU's loss of unknown number is settled by the counters of the file, which then are kept.
#[derive(Clone, Copy, Debug, PartialEq, Eq)]
pub(crate) enum Losses {
    /// It stays unknown.
    Kept,
    /// It is settled, if it can be.
    Settled,
}

/// What a file holds.
fn parsed(alloc: Global, file: &[u8]) -> Result<TraceDat<'_>, InputFault>
    ensures { Gives contents_seen result (formatted (reading_of file.now)) }
{
    match read_trace_dat(alloc, file) {
        Ok(dat) => Ok(dat),
        Err(ReadError::NoMemory) => Err(InputFault::NoMemory),
        Err(ReadError::Fault(fault)) => Err(InputFault::File(FileFault::Format(fault))),
    }
}

/// Adds what a file holds beside the pages that are listed: the formats of events, the names of the instances that
/// aren't listed, whether it has the buffer of this name, which is, the lists of names that are wanted, what its
/// machine is, and whether it, which has this index, was cut short.
fn add_texts(
    alloc: Global,
    captured: &mut Captured,
    name: &[u8],
    index: usize,
    cut: Option<Fault>,
    dat: &TraceDat<'_>,
) -> Result<(), NoMemory>
    ensures cpus { captured.new.cpus ≡ captured.old.cpus }
    ensures names { (known : List EventFormat) → HasEvents captured.old.names known
        → OnOk result (HasEvents captured.new.names (known ++ map format_seen dat.now.formats.items)) }
    ensures others { OnOk result (texts_held captured.new.others.items
        ≡ texts_held captured.old.others.items ++ names_of_others name.now (map buffer_seen dat.now.buffers.items)) }
    ensures found { OnOk result (captured.new.found
        ≡ captured.old.found || has_named name.now (map buffer_seen dat.now.buffers.items)) }
    ensures wanted { captured.new.wanted ≡ captured.old.wanted }
    ensures tasks { (known : List (List ℕ)) → HasTasks captured.old.tasks known
        → OnOk result (HasTasks captured.new.tasks (if captured.old.wanted.tasks
        then known ++ lines_of (map (λ text. text.now) dat.now.tasks.items) else known)) }
    ensures symbols { (known : List (List ℕ)) → HasSymbols captured.old.symbols known
        → OnOk result (HasSymbols captured.new.symbols (if captured.old.wanted.symbols
        then known ++ lines_of (map (λ text. text.now) dat.now.symbols.items) else known)) }
    ensures machine { OnOk result (option_map (λ text. text.items) captured.new.machine
        ≡ option_or (option_map (λ text. text.items) captured.old.machine)
        (option_map (λ text. text.now) dat.now.machine)) }
    ensures cut { OnOk result (captured.new.cut ≡ option_or captured.old.cut (option_map (cut_at index) cut)) }
{
    captured.names.add(dat.formats.as_slice())?;
    add_others(alloc, &mut captured.others, name, dat.buffers.as_slice())?;
    captured.found = captured.found || has_named(name, dat.buffers.as_slice());
    let wanted = captured.wanted;
    add_tasks(&mut captured.tasks, wanted.tasks, dat.tasks.as_slice())?;
    add_symbols(
        &mut captured.symbols,
        wanted.symbols,
        dat.symbols.as_slice(),
    )?;
    keep_machine(alloc, &mut captured.machine, dat.machine)?;
    keep_cut(&mut captured.cut, index, cut);
    Ok(())
}

/// Settles losses by texts of counters, if that is wanted.
fn settle_by(
    alloc: Global,
    cpus: &mut [CpuCapture],
    parts: &[CpuPart<'_>],
    texts: &[&[u8]],
    losses: Losses,
) -> Result<(), CaptureFault>
    requires { losses ≡ Losses.Settled → AreCpusRead unknown (map part_seen parts.now) cpus.old }
    ensures kept { losses ≡ Losses.Kept → (cpus.new ≡ cpus.old) × (IsOk result) }
    ensures settled { losses ≡ Losses.Settled
        → OnOk result (AreCpusCaptured (λ cpu. cpu_counters_of cpu (map (λ text. text.now) texts.now))
        (map part_seen parts.now) cpus.new) }
    ensures past { losses ≡ Losses.Settled → result ≡ Err CaptureFault.Numbers → (cpu : ℕ)
        × IsOwnPast (overrun_by (cpu_counters_of cpu (map (λ text. text.now) texts.now))) cpu
        (map part_seen parts.now) }
{
    match losses {
        Losses::Kept => Ok(()),
        Losses::Settled => settle(alloc, cpus, parts, texts),
    }
}

/// Reads the buffer of this name of a file of trace-cmd, all of which is in memory. The file has this index.
pub(crate) fn add_dat(
    alloc: Global,
    captured: &mut Captured,
    name: &[u8],
    file: &[u8],
    index: usize,
    losses: Losses,
) -> Result<(), InputFault>
    requires dat { is_dat name.now file.now ≡ true }
    requires known { (page : ℕ) × (files : List File) × IsAlone losses files
        × AreFilesRead unsaid page name.now files captured.old }
    ensures read { (page cpu : ℕ) (files : List File) → IsAlone losses files → length files ≡ index
        → AreFilesRead unsaid page name.now files captured.old
        → OnOk result (AddsFile losses page name.now files (record { cpu = cpu; bytes = file.now }) captured.new) }
    ensures wanted { captured.new.wanted ≡ captured.old.wanted }
    ensures fault { (page cpu : ℕ) (files : List File) → IsAlone losses files
        → AreFilesRead unsaid page name.now files captured.old → IfErr result (λ fault.
        IsFileFault losses page name.now files (record { cpu = cpu; bytes = file.now }) fault) }
{
    let dat = parsed(alloc, file)?;
    let parts = parts_of(alloc, &dat, name, file.len())?;
    if !is_same_machine(&captured.machine, dat.machine) {
        return Err(InputFault::File(FileFault::OtherHost));
    }
    let cut = cut_in(name, &dat.buffers);
    let counters = counters_unless(alloc, cut, name, dat.counters.as_slice())?;
    let cpus = captured.cpus.as_mut_slice();
    add_parts(alloc, cpus, parts.as_slice())?;
    settle_by(alloc, cpus, parts.as_slice(), counters.as_slice(), losses)?;
    add_texts(alloc, captured, name, index, cut, &dat)?;
    Ok(())
}
