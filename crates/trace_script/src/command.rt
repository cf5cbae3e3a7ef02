//! The commands of a script, as they are lent.

use trace_model::{CpuId, FillNo, Moment};

/// What a line of a script asks for, of a CPU's ring or of a collector.
#[derive(Clone, Copy, Debug, PartialEq, Eq)]
pub enum Command<'a> {
    /// Push a record frame of this moment and payload.
    Begin {
        cpu: CpuId,
        moment: Moment,
        payload: &'a [u8],
    },
    /// Let the frame on top make `count` steps, from 1 to 1,000,000, or fewer if it is gone before.
    Step {
        cpu: CpuId,
        count: u64,
    },
    /// Let the frame on top make steps until it is gone.
    Finish {
        cpu: CpuId,
    },
    /// Push a record frame of this moment and payload, and let it make steps until it is gone.
    Write {
        cpu: CpuId,
        moment: Moment,
        payload: &'a [u8],
    },
    /// Push a close frame, and let it make steps until it is gone.
    Close {
        cpu: CpuId,
    },
    /// Let the reader make `count` steps, from 1 to 1,000,000, or fewer if its take ends before.
    StepReader {
        cpu: CpuId,
        count: u64,
    },
    /// Let the reader make steps until it answers.
    Take {
        cpu: CpuId,
    },
    /// Let the reader ask for the tail.
    Wish {
        cpu: CpuId,
    },
    /// Deliver a fill of the CPU to a collector, if it was taken.
    Deliver {
        collector: usize,
        cpu: CpuId,
        fill: FillNo,
    },
}

/// A command of a script, with its place in the text.
#[derive(Clone, Copy, Debug, PartialEq, Eq)]
pub struct ScriptLine<'a> {
    /// The number of its line among all lines of the text, from 1.
    pub number: u64,
    /// What it asks for.
    pub command: Command<'a>,
}
