//! The calls by which a page lends its records and its payloads.
ghost use Rattle.std.specs.Prelude.{◌≡◌, ℕ, ◌+◌, ◌<◌, ◌^◌, List, length, slice_range};
ghost use Rattle.std.specs.Borrow.{sem};
ghost use Rattle.trace_model.specs.Reading.{IsPlaceIn};
ghost use Rattle.page_image.specs.Contents.{IsPage};
ghost use Rattle.page_image.specs.Lending.{LendsPayload, PayloadWritten, StaysPage};
ghost use Rattle.page_borrow.specs.Entries.{entries_of, AllStandInPage};

use crate::entries::Records;
use page_image::{Page, Place};

/// The records of a page in their order, numbered from its first number on, each with its bytes in place.
/// The number after the last record that the page counts must fit 64 bits.
pub fn records(page: &Page) -> Records<'_>
    requires { page.now.first + page.now.count < 2 ^ 64 }
    ensures records { IsPage page.now → result ≡ entries_of page.now }
    ensures own_bytes { IsPage page.now → AllStandInPage page.now result }
{
    let first = page.first().0;
    Records::new(page.data(), page.begin_walk(), first, first + page.count())
}

/// The payload of one record of the page, to be written: the one at this place, for which [`Page::is_place`] must
/// hold. All other bytes of the page stay as they are.
pub fn slot_mut(page: &mut Page, place: Place) -> &mut [u8]
    requires { IsPlaceIn page.old.bytes place.start place.len }
    ensures* lends { sem 𝓛 (LendsPayload page.entry place.start result) }
    ensures payload { result.now ≡ slice_range page.old.bytes place.start (place.start + place.len) }
    ensures len { length result.now ≡ place.len }
    ensures written { (part : List ℕ) → length part ≡ place.len → PayloadWritten page.old place.start part }
    ensures stays { StaysPage page.old place.start (length result.now) }
{
    page.payload_mut(place)
}
