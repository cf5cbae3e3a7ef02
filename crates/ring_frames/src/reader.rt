//! How far the reader of a ring has come with its take.

/// How far a take has come: the head that the reader has seen, on this page as this fill.
#[derive(Clone, Copy, Debug, PartialEq, Eq)]
pub enum ReaderPhase {
    /// It looks for the head.
    LoadingHead,
    /// It looks whether the head is closed.
    LoadingDone { page: u16, fill: u64 },
    /// It sets the link of its own page.
    StoringSpareLink { page: u16, fill: u64 },
    /// It swaps its page for the head.
    Swapping { page: u16, fill: u64 },
}

/// What the reader of a ring keeps of its takes.
#[derive(Clone, Copy, Debug)]
pub struct TakeState {
    /// How far its take has come.
    pub phase: ReaderPhase,
    /// The least fill that it doesn't know to be taken or lost.
    pub hint: u64,
    /// The greatest number of closed fills that it has seen.
    pub seen: u64,
    /// The number after the last record that it took.
    pub expected: u64,
}
