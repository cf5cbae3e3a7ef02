//! What is reported of a page that is given to C.

use page_image::Page;

/// What is reported of a page that is given.
#[repr(C)]
#[derive(Clone, Copy)]
pub struct Taken {
    /// Which fill of its ring it was.
    pub fill: u64,
    /// The number of its first record.
    pub first: u64,
    /// How many records were lost before it, since the page taken before.
    pub missed: u64,
    /// How many records it has.
    pub count: u64,
    /// How many bytes its parcel takes, without the room that its page has left.
    pub len: usize,
}

impl Taken {
    ghost use Rattle.tracering_c.specs.Calls.{AreNumbersOf};

    /// What is reported of this page, whose parcel takes `len` bytes.
    pub(crate) fn of(page: &Page, missed: u64, len: usize) -> Taken
        ensures { AreNumbersOf page.now missed len result }
    {
        Taken {
            fill: page.fill().0,
            first: page.first().0,
            missed,
            count: page.count(),
            len,
        }
    }
}
