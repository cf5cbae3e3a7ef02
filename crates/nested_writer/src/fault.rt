//! Why a write is refused.

/// Why a write, or a step of its frame, is refused. Where several hold, the first of these is answered.
#[derive(Clone, Copy, Debug, PartialEq, Eq)]
pub enum WriteFault {
    /// The writer's stack is full: it has `MAX_FRAMES` frames.
    TooDeep,
    /// The record has no room on an empty page.
    TooLong,
    /// The moment is not below `MOMENT_LIMIT`.
    LateMoment,
    /// A page is needed, and as many fills are begun and not closed as the ring has pages.
    Crowded,
    /// A page is needed, and the tail is the last fill that may be begun, so that links can state their fills.
    Worn,
    /// The stack is empty.
    NoFrame,
    /// The frame has reserved nothing, or was ended or refused.
    NotReserved,
}
