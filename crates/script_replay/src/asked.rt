//! What was asked of a ring at a step.

/// What was asked of a ring at a step.
#[derive(Clone, Copy, Debug)]
pub enum Asked<'a> {
    /// A frame is pushed for a record.
    Push,
    /// A close frame is pushed.
    PushClose,
    /// The frame on top makes a step, which is the end of its record if that is reserved: then it has this payload.
    Top(&'a [u8]),
    /// The reader makes a step.
    Read,
    /// The reader wishes for the tail page.
    Wish,
}
