//! What a take answers.
use page_image::{Body, Page};
use trace_model::FillNo;

/// What a take answers.
#[derive(Debug, Drop)]
pub enum Take {
    /// The oldest page that was closed and unread, and how many numbers are missing before its first record since the
    /// last page taken.
    Page(Page, u64),
    /// No closed fill is unread: the number is that of the oldest fill that isn't closed. The body is returned.
    Empty(u64, Body),
    /// A move of the head isn't finished, or the take has made as many steps as it may: each fill below this one is
    /// taken or lost. The body is returned.
    Moving(FillNo, Body),
}

/// What a look at one word of the ring answers: it takes nothing, so it needs no body.
#[derive(Clone, Copy)]
pub(crate) enum Look {
    /// The take continues.
    Continues,
    /// No closed fill is unread: the number is that of the oldest fill that isn't closed.
    Empty(u64),
    /// A move of the head isn't finished: each fill below this one is taken or lost.
    Moving(FillNo),
    /// No look is left: the head, this page as this fill, is closed, and the swap is the next step.
    Found { page: u16, fill: u64 },
}
