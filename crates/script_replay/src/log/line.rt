//! A line of the log.
use nested_writer::WriteFault;
use trace_model::{CpuId, FillNo, RecordNo};

/// A line of the log, with the number of the script's line that met it. Small fields come first, so that a line takes
/// at most 40 bytes.
#[derive(Clone, Copy, Debug, PartialEq, Eq)]
pub enum LogLine {
    /// A writer of this CPU was refused.
    Refused {
        fault: WriteFault,
        cpu: CpuId,
        line: u64,
    },
    /// A page of this CPU was taken: which fill it was, the number of its first record, how many records it has, and
    /// how many records were missed before them.
    Taken {
        count: u16,
        cpu: CpuId,
        line: u64,
        fill: FillNo,
        first: RecordNo,
        missed: u64,
    },
    /// No page of this CPU is closed and unread.
    Empty {
        cpu: CpuId,
        line: u64,
    },
    /// A writer of this CPU moves the head; all fills below this one are taken or lost.
    Moving {
        cpu: CpuId,
        line: u64,
        fill: FillNo,
    },
    /// The reader of this CPU asks for the page of this fill.
    Asks {
        cpu: CpuId,
        line: u64,
        fill: FillNo,
    },
    /// A fill of this CPU was delivered to a collector that hadn't all of its page.
    New {
        cpu: CpuId,
        line: u64,
        collector: usize,
        fill: FillNo,
    },
    /// A fill of this CPU was delivered to a collector that had its page.
    Known {
        cpu: CpuId,
        line: u64,
        collector: usize,
        fill: FillNo,
    },
    /// No page of this fill of this CPU was taken so far, so nothing was delivered.
    NotTaken {
        cpu: CpuId,
        line: u64,
        collector: usize,
        fill: FillNo,
    },
}
