//! A frame of the writer's stack, and how far it has come.
use record_words::Place;

/// What a frame was pushed for.
#[derive(Clone, Copy, Debug)]
pub enum Purpose {
    /// To write one record.
    Record {
        /// The moment that it was pushed with.
        moment: u64,
        /// The payload's length in bytes.
        len: usize,
    },
    /// To leave the tail page if that holds a record.
    Close,
}

/// What a record frame was pushed with.
#[derive(Clone, Copy, Debug)]
pub struct Pushed {
    /// The moment.
    pub moment: u64,
    /// The payload's length in bytes.
    pub len: usize,
}

/// A reserved record: its number, its fill, and the place of its slot. (The slot itself is the bytes there.)
#[derive(Clone, Copy, Debug)]
pub struct Slot {
    /// The record's number.
    pub number: u64,
    /// The fill in whose page it is.
    pub fill: u64,
    /// The place of its payload in that page.
    pub place: Place,
}

/// How far a frame has come. The number of begun fills is noted when a page is found to be needed: as long as it is
/// the number of begun fills, no page was added since.
#[derive(Clone, Copy, Debug)]
pub enum Progress {
    /// It has no record. Of a close frame the number of fills begun at its first `allot`, of a record frame that at
    /// the last one that needed a page.
    Waiting(Option<u64>),
    /// A close frame for which no page is needed, with the number of fills begun at its first `allot`.
    Through(u64),
    /// Its record is reserved.
    Reserved(Slot),
    /// It was ended or refused, and stays at the bottom. With the number of fills begun when the tail was last asked
    /// to be closed.
    Left(Option<u64>),
}

/// A frame on the stack.
#[derive(Clone, Copy, Debug)]
pub struct Frame {
    /// What it was pushed for.
    pub purpose: Purpose,
    /// How far it has come.
    pub progress: Progress,
}
