//! An open page. It is lent whole, and acts as the bytes of one payload in it.
ghost use Rattle.std.specs.Prelude.{◌≡◌, ◌+◌, ◌-◌, ◌*◌, ◌≤◌, ◌<◌, true, false, length, replicate, if◌then◌else◌};
ghost use Rattle.std.specs.Prelude.{IfSome};
ghost use Rattle.trace_model.specs.declared.limits.TheConstants.{MOMENT_LIMIT, MAX_SIZE};
ghost use Rattle.trace_model.specs.Words.{padded, slot_len};
ghost use Rattle.trace_model.specs.Reading.{EndsInRecord};
ghost use Rattle.trace_model.specs.Order.{moment_of_last};
ghost use Rattle.page_image.specs.Contents.{records_of_page, is_blank};
ghost use Rattle.page_image.specs.Plain.{IsPlainIn};
ghost use Rattle.page_image.specs.Putting.{CanPut, HasPut};
ghost use Rattle.nested_writer.specs.Lent.{lent_bytes};

use page_image::Page;
use record_words::Place;
use std::marker::Model;
use std::ops::{DerefSlice, DerefSliceMut};
use trace_model::{FillNo, MOMENT_LIMIT, RecordNo};

/// The first moment that is too late for a short record in this page.
#[inline(always)]
fn late_in(page: &Page) -> u64
    ensures { result ≡ (if is_blank page.now.bytes then 0 else MOMENT_LIMIT) }
{
    if page.end() == 0 { 0 } else { MOMENT_LIMIT }
}

/// An open page. Lent to a caller it is the payload of a reserved record, to be written in the page: it acts as the
/// slice of that payload's bytes.
#[derive(Debug, Drop)]
pub struct Payload {
    page: Page,
    /// Its place in the page; in a page that lends none, any place.
    place: Place,
    /// The first moment that is too late for a short record (`docs/GLOSSARY.md`) in the page: `MOMENT_LIMIT`, or 0 if
    /// the page holds no record before it.
    late: u64,
}

impl Model for Payload {
    ghost use Rattle.std.specs.Prelude.{◌≡◌, ◌+◌, ◌≤◌, length, if◌then◌else◌};
    ghost use Rattle.trace_model.specs.declared.limits.TheConstants.{MOMENT_LIMIT};
    ghost use Rattle.page_image.specs.Contents.{is_blank};
    ghost use Rattle.nested_writer.specs.Lent.{Lent};

    ghost Value = { Lent };

    ghost view = { λ p. record { page = p.page; place = p.place } };

    ghost invariant = { λ p. (p.place.start + p.place.len ≤ length p.page.bytes)
        × (p.late ≡ (if is_blank p.page.bytes then 0 else MOMENT_LIMIT)) };
}

impl DerefSlice for Payload {
    ghost use Rattle.std.specs.Prelude.{◌≡◌};
    ghost use Rattle.nested_writer.specs.Lent.{lent_bytes};

    type Elem = u8;

    ghost deref_gives = { λ p xs. xs ≡ lent_bytes p };

    #[inline(always)]
    fn deref(&self) -> &[u8] {
        &self.page.data()[self.place.start..self.place.start + self.place.len]
    }
}

impl DerefSliceMut for Payload {
    ghost use Rattle.std.specs.Prelude.{◌≡◌, length};
    ghost use Rattle.std.specs.Borrow.{sem};
    ghost use Rattle.nested_writer.specs.Lent.{lent_bytes};
    ghost use Rattle.nested_writer.specs.Lending.{LendsBytes};

    #[inline(always)]
    fn deref_mut(&mut self) -> &mut [u8]
        ensures* lends { sem 𝓛 (LendsBytes self.entry result) }
        ensures value { result.now ≡ lent_bytes self.old }
        ensures len { length result.now ≡ self.old.place.len }
    {
        self.page.part_mut(self.place)
    }
}

impl Payload {
    /// How many bytes it has: the record's payload, up to the end of its last word.
    #[inline(always)]
    pub fn len(&self) -> usize
        ensures bytes { result ≡ length (lent_bytes self.now) }
        ensures len { result ≡ self.now.place.len }
    {
        self.place.len
    }

    /// The page, of which nothing is lent.
    #[inline(always)]
    pub(crate) fn of(page: Page) -> Payload
        ensures { result.page ≡ page }
    {
        let late = late_in(&page);
        Payload {
            page,
            place: Place { start: 0, len: 0 },
            late,
        }
    }

    /// The page.
    #[inline(always)]
    pub(crate) fn into_page(self) -> Page
        ensures { result ≡ self.page }
    {
        let Payload { page, .. } = self;
        page
    }

    /// The page, to be read.
    #[inline(always)]
    pub(crate) fn page(&self) -> &Page
        ensures { result.now ≡ self.now.page }
    {
        &self.page
    }

    /// Whether a record of this moment may be a short one: the page holds a record before it, and it isn't too late.
    #[inline(always)]
    pub(crate) fn may_follow(&self, moment: u64) -> bool
        ensures follows { result ≡ true → (is_blank self.now.page.bytes ≡ false) × (moment < MOMENT_LIMIT) }
        ensures late { result ≡ false → is_blank self.now.page.bytes ≡ false → MOMENT_LIMIT ≤ moment }
    {
        moment < self.late
    }

    /// Lends the payload at this place.
    #[inline(always)]
    pub(crate) fn lend(&mut self, place: Place)
        requires within { place.start + place.len ≤ length self.old.page.bytes }
        ensures { self.new ≡ record self.old { place = place } }
    {
        self.place = place;
    }

    /// How many bytes the page's records take.
    #[inline(always)]
    pub(crate) fn end(&self) -> usize
        ensures { result ≡ length self.now.page.bytes }
    {
        self.page.end()
    }

    /// The number of the page's first record.
    #[inline(always)]
    pub(crate) fn first_number(&self) -> RecordNo
        ensures { result.0 ≡ self.now.page.first }
    {
        self.page.first()
    }

    /// How many records the page holds.
    #[inline(always)]
    pub(crate) fn count(&self) -> u64
        ensures count { result ≡ self.now.page.count }
        ensures few { 4 * result ≤ MAX_SIZE }
    {
        self.page.count()
    }

    /// Which fill of its ring the page is.
    #[inline(always)]
    pub(crate) fn fill_number(&self) -> FillNo
        ensures { result.0 ≡ self.now.page.fill }
    {
        self.page.fill()
    }

    /// `Page::put`.
    #[inline(always)]
    pub(crate) fn put(&mut self, prev: u64, moment: u64, len: usize) -> Place
        requires { CanPut self.old.page prev moment len }
        ensures { HasPut self.old.page self.new.page prev moment len (replicate (slot_len len) 0) result }
    {
        self.late = MOMENT_LIMIT;
        self.page.put(prev, moment, len)
    }

    /// `Page::put_plain`.
    #[inline(always)]
    pub(crate) fn put_plain(&mut self, prev: u64, moment: u64, len: usize) -> Place
        requires plain { IsPlainIn self.old.page.size (length self.old.page.bytes) (moment - prev)
            (is_blank self.old.page.bytes) len }
        requires order { prev ≤ moment }
        requires moment { moment < MOMENT_LIMIT }
        requires last { IfSome (moment_of_last (records_of_page self.old.page)) (λ last. last ≡ prev) }
        requires open { EndsInRecord self.old.page.bytes }
        ensures { HasPut self.old.page self.new.page prev moment len (replicate (slot_len len) 0) result }
    {
        self.page.put_plain(prev, moment, len)
    }

    /// `Page::put_payload`, or `Page::put_next_payload` if the page is known to hold a record.
    #[inline(always)]
    pub(crate) fn put_payload(
        &mut self,
        holds_record: bool,
        prev: u64,
        moment: u64,
        payload: &[u8],
    ) -> Place
        requires can { CanPut self.old.page prev moment (length payload.now) }
        requires behind { holds_record ≡ true → is_blank self.old.page.bytes ≡ false }
        ensures { HasPut self.old.page self.new.page prev moment (length payload.now) (padded payload.now) result }
    {
        if holds_record {
            return self.page.put_next_payload(prev, moment, payload);
        }
        self.late = MOMENT_LIMIT;
        self.page.put_payload(prev, moment, payload)
    }

    /// `Page::store_commit`.
    #[inline(always)]
    pub(crate) fn store_commit(&mut self)
        ensures { self.new ≡ self.old }
    {
        self.page.store_commit();
    }
}
