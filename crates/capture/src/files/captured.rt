//! What is read, and what it is read from.
ghost use Rattle.std.specs.Prelude.{◌≡◌, ℕ, ◌+◌, ◌^◌, ◌<◌, ◌≤◌, List, [], ◌∷◌, ◌++◌, length, Err, OnOk};

use crate::{Capture, CaptureFault, Part};
use kernel_names::{SymbolNames, TaskNames};
use page_image::Missed;
use std::alloc::Global;
use trace_dat::Fault;
use trace_dat::kernel_texts::{Counters, EventNames};
use trace_model::CpuId;

/// A file that is to be read.
#[derive(Debug, Drop)]
pub struct Input<R> {
    /// The CPU whose pages it has, if they are raw. A file of trace-cmd says itself which CPUs it has.
    pub cpu: CpuId,
    /// The file.
    pub reader: R,
}

/// What is read of a CPU.
#[derive(Debug, Drop)]
pub struct CpuCapture {
    /// Its pages, of all parts.
    pub capture: Capture,
    /// Its parts, in the order of the files.
    pub parts: Vec<Part>,
    /// How many bytes its parts have.
    pub bytes: u64,
    /// What the kernel counted of its ring since the trace began, if one file alone is read, and has that.
    pub counters: Option<Counters>,
}

impl CpuCapture {
    ghost use Rattle.trace_model.specs.declared.limits.TheConstants.{MAX_CPUS};
    ghost use Rattle.trace_model.specs.Image.{Missed as ModelMissed};
    ghost use Rattle.page_image.specs.Images.{missed_of};
    ghost use Rattle.capture.specs.files.Files.{ModelPart};
    ghost use Rattle.capture.specs.files.Captures.{CountsPart, IsCpuRead, IsPartPast};

    /// A CPU of which nothing is read.
    pub(crate) fn new(alloc: Global, cpu: CpuId) -> CpuCapture
        ensures cpu { result.capture.cpu ≡ cpu }
        ensures none { (known : ModelMissed) → IsCpuRead known cpu.0 [] result }
    {
        CpuCapture {
            capture: Capture::new(alloc, cpu),
            parts: Vec::new(alloc),
            bytes: 0,
            counters: None,
        }
    }

    /// Counts a part that was read.
    pub(crate) fn count_part(&mut self, part: Part) -> Result<(), CaptureFault>
        ensures capture { self.new.capture ≡ self.old.capture }
        ensures counted { OnOk result (CountsPart self.old self.new part) }
        ensures past { result ≡ Err CaptureFault.Numbers → 2 ^ 64 ≤ self.old.bytes + part.length }
    {
        self.bytes = self
            .bytes
            .checked_add(part.length)
            .ok_or(CaptureFault::Numbers)?;
        self.parts.push(part)?;
        Ok(())
    }

    /// Reads a part more, which is in memory, in pages of `size` bytes. A loss of unknown number is taken as
    /// `unknown`.
    pub(crate) fn add_part(
        &mut self,
        alloc: Global,
        size: usize,
        pages: &[u8],
        unknown: Missed,
    ) -> Result<(), CaptureFault>
        requires cpu { self.old.capture.cpu.0 < MAX_CPUS }
        requires some { 0 < size }
        ensures cpu { self.new.capture.cpu ≡ self.old.capture.cpu }
        ensures read { (cpu : ℕ) (parts : List ModelPart) → IsCpuRead (missed_of unknown) cpu parts self.old
            → OnOk result (IsCpuRead (missed_of unknown) cpu
            (parts ++ record { cpu = cpu; size = size; bytes = pages.now } ∷ []) self.new) }
        ensures past { (cpu : ℕ) (parts : List ModelPart) → IsCpuRead (missed_of unknown) cpu parts self.old
            → result ≡ Err CaptureFault.Numbers
            → IsPartPast (missed_of unknown) parts (record { cpu = cpu; size = size; bytes = pages.now }) }
    {
        self.capture.add_bytes(alloc, size, pages, unknown)?;
        self.count_part(Part {
            size: size as u64,
            length: pages.len() as u64,
        })
    }
}

/// Which of the kernel's lists of names are wanted.
#[derive(Clone, Copy, Debug, PartialEq, Eq)]
pub struct Wanted {
    /// That of processes.
    pub tasks: bool,
    /// That of its symbols.
    pub symbols: bool,
}

/// A file of trace-cmd that was cut short: it ends before a range of it that has pages.
#[derive(Clone, Copy, Debug, PartialEq, Eq)]
pub struct CutFile {
    /// How many files are before it.
    pub input: usize,
    /// What is wrong with the first such range.
    pub fault: Fault,
}

/// What is read of files.
#[derive(Debug, Drop)]
pub struct Captured {
    /// What is read of each CPU, in the order of their numbers, from 0 to the highest that there can be.
    pub cpus: Vec<CpuCapture>,
    /// The events whose formats the files have.
    pub names: EventNames,
    /// The names of the instances that the files have and that aren't listed, one for each, in the order of the files:
    /// trace buffers with another name. Their pages aren't read.
    pub others: Vec<Vec<u8>>,
    /// Whether a file of trace-cmd has the trace buffer that is listed.
    pub found: bool,
    /// Which lists of names are wanted. The others are empty here.
    pub wanted: Wanted,
    /// The names of processes, by the lists of the files, one after the other.
    pub tasks: TaskNames,
    /// The functions of the kernel, by the lists of its symbols that the files have, one after the other.
    pub symbols: SymbolNames,
    /// What the traced machine is, if a file says it. All files that do say the same.
    pub machine: Option<Vec<u8>>,
    /// The first file that was cut short within the pages that are listed, if one was. The pages that it has are read.
    pub cut: Option<CutFile>,
}
