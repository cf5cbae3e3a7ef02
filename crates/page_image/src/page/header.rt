//! What a page states of itself.
use crate::page::Page;
use trace_model::{FillNo, RecordNo};

impl Page {
    ghost use Rattle.std.specs.Prelude.{◌≡◌, ◌*◌, ◌≤◌, length};
    ghost use Rattle.trace_model.specs.declared.limits.TheConstants.{MAX_SIZE};

    /// The time from which the moments of the records are counted. In a page filled by `put` it is the first
    /// record's moment, and 0 before there is one.
    pub fn time(&self) -> u64
        ensures { result ≡ self.now.time }
    {
        self.time
    }

    /// How many bytes of the body are data.
    #[inline(always)]
    pub fn end(&self) -> usize
        ensures { result ≡ length self.now.bytes }
    {
        self.end
    }

    /// The number of the first record.
    #[inline(always)]
    pub fn first(&self) -> RecordNo
        ensures { result.0 ≡ self.now.first }
    {
        self.first
    }

    /// How many records the page holds.
    #[inline(always)]
    pub fn count(&self) -> u64
        ensures count { result ≡ self.now.count }
        ensures few { 4 * result ≤ MAX_SIZE }
    {
        self.count
    }

    /// Which fill of its ring the page is.
    #[inline(always)]
    pub fn fill(&self) -> FillNo
        ensures { result.0 ≡ self.now.fill }
    {
        self.fill
    }

    /// How many bytes the page has for records.
    #[inline(always)]
    pub fn size(&self) -> usize
        ensures { result ≡ self.now.size }
    {
        self.body.size()
    }

    /// The bytes of data: the words that were put, or as much as an image states.
    pub fn data(&self) -> &[u8]
        ensures { result.now ≡ self.now.bytes }
    {
        self.body.front(self.end)
    }
}
