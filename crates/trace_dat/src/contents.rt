//! What a file of trace-cmd holds.

use crate::fault::Fault;

/// The format of an event, as the kernel prints it, and the event's system.
#[derive(Clone, Copy, Debug)]
pub struct Format<'a> {
    /// The name of the system, as `sched`. The ring's own events, as `print`, are of the system `ftrace`.
    pub system: &'a [u8],
    /// The text of the event's file `format`.
    pub text: &'a [u8],
}

/// What was recorded of a CPU's ring.
#[derive(Clone, Copy, Debug)]
pub struct CpuPages<'a> {
    /// The number of the CPU.
    pub cpu: u32,
    /// Its pages, one after the other: those of their bytes that the file has, which may end within a page.
    pub pages: &'a [u8],
    /// What is wrong if the file ends before the pages do: `OutsideFile`, where their range is stated.
    pub fault: Option<Fault>,
}

/// A trace buffer: the main one, whose name is empty, or an instance.
#[derive(Debug, Drop)]
pub struct Buffer<'a> {
    /// The instance's name.
    pub name: &'a [u8],
    /// The size of a page, in bytes.
    pub page_size: u32,
    /// The pages of each CPU, in the order of the file.
    pub cpus: Vec<CpuPages<'a>>,
}

/// What a file of trace-cmd holds.
#[derive(Debug, Drop)]
pub struct TraceDat<'a> {
    /// The formats of the events, in the order of the file.
    pub formats: Vec<Format<'a>>,
    /// The trace buffers, in the order of the file.
    pub buffers: Vec<Buffer<'a>>,
    /// The counters of rings, a text for each CPU, in the order of the file.
    pub counters: Vec<&'a [u8]>,
    /// The kernel's symbols, as it lists them in `/proc/kallsyms`: one text in version 6, and in version 7 one for each
    /// option that points to such a section, in the order of the file. A text may be empty.
    pub symbols: Vec<&'a [u8]>,
    /// The names of processes, as the kernel lists them in `saved_cmdlines`, in texts as those of the symbols.
    pub tasks: Vec<&'a [u8]>,
    /// What the traced machine is, if an option says it: the names of its system, its host, its kernel's release and
    /// its processor, with spaces between them. Of several such options the last counts.
    pub machine: Option<&'a [u8]>,
}
