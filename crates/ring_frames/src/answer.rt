//! What a ring answers.
use nested_writer::{Ended, WriteFault};
use page_image::{Body, Page};
use trace_model::{FillNo, RecordNo};

/// What a ring answers.
#[derive(Debug, Drop)]
pub enum Answer {
    /// The frame is on top.
    Pushed,
    /// The frame is on the stack, and has reserved nothing, or has left and has more to do.
    Going,
    /// Its record is reserved, under this number.
    Reserved(RecordNo),
    /// It was ended.
    Ended(Ended),
    /// It has left the stack, other than by its end or a refusal.
    Gone,
    /// The event is refused. By `Crowded` and `Worn` the frame leaves without a record, and a bottom one still has to
    /// be finished; any other refusal changes nothing.
    Refused(WriteFault),
    /// The take continues: `reading` in the model. (`Phase::Looking` is a writer's.)
    Looking(Body),
    /// No closed fill is unread: the number is that of the oldest fill that isn't closed.
    Empty(u64, Body),
    /// A move of the head isn't finished; each fill below this one is taken or lost.
    Moving(FillNo, Body),
    /// The page that is taken, and how many numbers are missing before its first record since the last page taken.
    Taken(Page, u64),
    /// The reader wished for this fill to be closed.
    Wished(FillNo),
}
