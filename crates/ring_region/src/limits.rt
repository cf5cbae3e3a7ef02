//! Where the parts of a region are, in bytes. Each number takes eight bytes, the lowest byte first.
use page_image::SLOT_HEADER;

/// The bytes before the first slot.
pub(crate) const START: usize = 128;

/// The bytes of a slot before its page's data: a parcel's numbers, and the header of the page's image.
pub(crate) const HEAD: usize = SLOT_HEADER;

/// Each slot begins at a multiple of this.
pub(crate) const ALIGN: usize = 64;

/// Where a region has its version.
pub(crate) const VERSION_AT: usize = 8;

/// Where a region has the number of its ring's pages.
pub(crate) const PAGES_AT: usize = 16;

/// Where a region has the size of a page's data.
pub(crate) const SIZE_AT: usize = 24;

/// Where a region has its CPU.
pub(crate) const CPU_AT: usize = 32;

/// Where a region has the stream of its parcels.
pub(crate) const STREAM_AT: usize = 40;

/// Where a region has the number after the last record that was taken.
pub(crate) const TAKEN_AT: usize = 48;

/// Where a region has whether its ring ended.
pub(crate) const ENDED_AT: usize = 56;

/// Where a slot has its CPU.
pub(crate) const SLOT_CPU_AT: usize = 0;

/// Where a slot has its page's fill.
pub(crate) const FILL_AT: usize = 8;

/// Where a slot has the number of its page's first record.
pub(crate) const FIRST_AT: usize = 16;

/// Where a slot has how many numbers are missing before its page's records.
pub(crate) const MISSED_AT: usize = 24;

/// Where the page's image begins in a slot.
pub(crate) const IMAGE_AT: usize = 32;

/// Where a slot has its commit.
pub(crate) const COMMIT_AT: usize = 40;
