//! What happens to a ring; what it answers is in `ring_frames`.
use page_image::Body;
pub use ring_frames::Answer;

/// What happens to a ring. An event that reads brings the body of the take, and gets it back with every answer but the
/// page: so a ring keeps no body for a reader that finds nothing.
#[derive(Debug, Drop)]
pub enum Event {
    /// A writer begins: a frame is pushed for a record.
    Push {
        /// The record's moment; one that isn't below `MOMENT_LIMIT` is refused.
        moment: u64,
        /// The payload's length in bytes.
        len: usize,
    },
    /// A close frame is pushed: it begins the next fill, if the tail page holds a record.
    PushClose,
    /// The frame on top makes one step.
    Step,
    /// The frame on top, whose record is reserved, ends with the payload that is in its slot.
    End,
    /// The reader makes one step, which begins a take if none is under way. Its body, of the ring's data size, is the
    /// page that goes into the ring for the one that is taken.
    Read(Body),
    /// The reader wishes for the tail page.
    Wish,
}
