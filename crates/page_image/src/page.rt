//! A page: the records of one fill, as they are in its body.
mod alike;
mod fitted;
mod header;
mod read;
mod write;

use crate::body::Body;
use crate::put::PutKind;
use record_words::{Place, size_of};
use std::marker::Model;
use trace_model::{FillNo, RecordNo};

/// The records of one fill of a ring, in the layout of the kernel's pages.
///
/// ```
/// let mut page = Page::fresh(Body::new(rt.alloc(), 32)?, RecordNo(7), FillNo(3));
/// let place = page.put(0, 100, 4);
/// page.payload_mut(place).copy_from_slice(b"next");
/// let image = page.write_image(rt.alloc(), 0)?;
/// ```
#[derive(Debug, Drop)]
pub struct Page {
    body: Body,
    time: u64,
    end: usize,
    first: RecordNo,
    count: u64,
    fill: FillNo,
}

impl Model for Page {
    ghost use Rattle.std.specs.Prelude.{◌*◌, ◌≤◌, length, take};
    ghost use Rattle.trace_model.specs.declared.limits.TheConstants.{MAX_SIZE};
    ghost use Rattle.page_image.specs.Contents.{Contents};

    ghost Value = { Contents };

    ghost view = { λ p. record {
      time = p.time;
      first = p.first.0;
      count = p.count;
      fill = p.fill.0;
      size = length p.body;
      bytes = take p.end p.body;
    } };

    ghost invariant = { λ p. (p.end ≤ length p.body)
        × (length p.body ≤ MAX_SIZE)
        × (4 * p.count ≤ p.end) };
}

impl Page {
    ghost use Rattle.std.specs.Prelude.{◌≡◌, ◌+◌, ◌-◌, ◌≤◌, ◌<◌, false, [], length, replicate, IfSome, slice_range, ℕ};
    ghost use Rattle.std.specs.Prelude.{List};
    ghost use Rattle.page_image.specs.declared.put.PutKind.TheVariants.{Plain};
    ghost use Rattle.page_image.specs.Plain.{IsPlainIn};
    ghost use Rattle.std.specs.Borrow.{sem};
    ghost use Rattle.page_image.specs.Lending.{LendsPayload, PayloadWritten, StaysPage};
    ghost use Rattle.page_image.specs.Putting.{CanPut, HasPut};
    ghost use Rattle.trace_model.specs.Words.{padded, slot_len};
    ghost use Rattle.trace_model.specs.Reading.{EndsInRecord, IsPlaceIn};
    ghost use Rattle.trace_model.specs.Order.{moment_of_last};
    ghost use Rattle.page_image.specs.Contents.{records_of_page, is_blank, IsPage};
    ghost use Rattle.trace_model.specs.declared.limits.TheConstants.{MOMENT_LIMIT};

    /// A page without a record, its time 0, in this body.
    pub fn fresh(mut body: Body, first: RecordNo, fill: FillNo) -> Page
        ensures page { IsPage result }
        ensures blank { result ≡ record {
          time = 0;
          first = first.0;
          count = 0;
          fill = fill.0;
          size = length body;
          bytes = [];
        } }
    {
        body.store_begin(fill, first);
        Page {
            body,
            time: 0,
            end: 0,
            first,
            count: 0,
            fill,
        }
    }

    /// Adds a record of this moment with a zeroed payload after the others; it must fit. The answer is where
    /// its payload is: `len` bytes, rounded up to a multiple of 4 and at least 4. `prev` is the moment of the
    /// last record, if there is one, and not above `moment`; the caller knows it, and the page would have to be walked.
    #[inline(always)]
    pub fn put(&mut self, prev: u64, moment: u64, len: usize) -> Place
        requires { CanPut self.old prev moment len }
        ensures { HasPut self.old self.new prev moment len (replicate (slot_len len) 0) result }
    {
        self.put_as(PutKind::Any, prev, moment, len)
    }

    /// `put`, for a record as nearly all are: of 1 to `SHORT_LIMIT` bytes, less than `EXTEND_FROM` after the one before
    /// it on the page, and so far from the page's end that the longest such record would have room.
    #[inline(always)]
    pub fn put_plain(&mut self, prev: u64, moment: u64, len: usize) -> Place
        requires plain { IsPlainIn self.old.size (length self.old.bytes) (moment - prev)
            (is_blank self.old.bytes) len }
        requires order { prev ≤ moment }
        requires moment { moment < MOMENT_LIMIT }
        requires last { IfSome (moment_of_last (records_of_page self.old)) (λ last. last ≡ prev) }
        requires open { EndsInRecord self.old.bytes }
        ensures { HasPut self.old self.new prev moment len (replicate (slot_len len) 0) result }
    {
        self.put_as(PutKind::Plain, prev, moment, len)
    }

    /// Whether the page is empty; no records of the kind `Plain` may be put into an empty page.
    #[inline(always)]
    fn is_first(&self, records: PutKind) -> bool
        requires behind { records ≡ Plain → is_blank self.now.bytes ≡ false }
        ensures { result ≡ is_blank self.now.bytes }
    {
        match records {
            PutKind::Any => self.end == 0,
            PutKind::Plain => false,
        }
    }

    /// `put`, for these records.
    #[inline(always)]
    fn put_as(&mut self, records: PutKind, prev: u64, moment: u64, len: usize) -> Place
        requires plain { records ≡ Plain → IsPlainIn self.old.size (length self.old.bytes) (moment - prev)
            (is_blank self.old.bytes) len }
        requires can { CanPut self.old prev moment len }
        ensures { HasPut self.old self.new prev moment len (replicate (slot_len len) 0) result }
    {
        let is_first = self.is_first(records);
        let place = self
            .body
            .put_as(records, self.end, moment - prev, is_first, len);
        self.time = self.body.time_with(is_first, moment, self.time);
        self.end = place.start + place.len;
        self.count += 1;
        place
    }

    /// Adds a record of this moment and payload after the others; it must fit. The answer is where its payload
    /// is. This is what `put` does, and then the payload written at the front of its place. `prev` is that of `put`.
    #[inline(always)]
    pub fn put_payload(&mut self, prev: u64, moment: u64, payload: &[u8]) -> Place
        requires { CanPut self.old prev moment (length payload.now) }
        ensures { HasPut self.old self.new prev moment (length payload.now) (padded payload.now) result }
    {
        let is_first = self.is_first(PutKind::Any);
        self.put_payload_as(is_first, prev, moment, payload)
    }

    /// `put_payload`, into a page that holds a record.
    #[inline(always)]
    pub fn put_next_payload(&mut self, prev: u64, moment: u64, payload: &[u8]) -> Place
        requires can { CanPut self.old prev moment (length payload.now) }
        requires behind { is_blank self.old.bytes ≡ false }
        ensures { HasPut self.old self.new prev moment (length payload.now) (padded payload.now) result }
    {
        self.put_payload_as(false, prev, moment, payload)
    }

    /// `put_payload`, for a record that is the page's first one or not.
    #[inline(always)]
    fn put_payload_as(&mut self, is_first: bool, prev: u64, moment: u64, payload: &[u8]) -> Place
        requires can { CanPut self.old prev moment (length payload.now) }
        requires first { is_first ≡ is_blank self.old.bytes }
        ensures { HasPut self.old self.new prev moment (length payload.now) (padded payload.now) result }
    {
        let end = self.end;
        let delta = moment - prev;
        self.time = self.body.time_with(is_first, moment, self.time);
        let place = self.body.put_payload(end, delta, is_first, payload);
        self.end = end + size_of(payload.len(), delta, is_first);
        self.count += 1;
        place
    }

    /// The payload at this place, to be written. All other bytes of the page stay as they are.
    #[inline(always)]
    pub fn payload_mut(&mut self, place: Place) -> &mut [u8]
        requires { IsPlaceIn self.old.bytes place.start place.len }
        ensures* lends { sem 𝓛 (LendsPayload self.entry place.start result) }
        ensures payload { result.now ≡ slice_range self.old.bytes place.start (place.start + place.len) }
        ensures len { length result.now ≡ place.len }
        ensures written { (part : List ℕ) → length part ≡ place.len → PayloadWritten self.old place.start part }
        ensures stays { StaysPage self.old place.start (length result.now) }
    {
        self.part_mut(place)
    }

    /// The bytes at this place, which is within the data, to be written. All other bytes of the page stay as they
    /// are.
    #[inline(always)]
    pub fn part_mut(&mut self, place: Place) -> &mut [u8]
        requires { place.start + place.len ≤ length self.old.bytes }
        ensures* lends { sem 𝓛 (LendsPayload self.entry place.start result) }
        ensures part { result.now ≡ slice_range self.old.bytes place.start (place.start + place.len) }
        ensures len { length result.now ≡ place.len }
    {
        let body = &mut self.body;
        body.part_mut(place)
    }

    /// Stores how many bytes of data there are as commit in the header of the body's slot, for whoever reads the memory
    /// of a ring that is in use, or whose process was killed: the records in them are committed from here on. So it is
    /// called when none of the page's records is still to be written. What the page is doesn't change.
    #[inline(always)]
    pub fn store_commit(&mut self)
        ensures { self.new ≡ self.old }
    {
        self.body.store_commit(self.end);
    }

    /// This page under another first number and fill. The header of the body's slot keeps those that it was begun
    /// with.
    pub fn numbered(self, first: RecordNo, fill: FillNo) -> Page
        ensures { result ≡ record self { first = first.0; fill = fill.0 } }
    {
        Page {
            first,
            fill,
            ..self
        }
    }

    /// The page's body, of the page's size.
    pub fn into_body(self) -> Body
        ensures { length result ≡ self.size }
    {
        let Page { body, .. } = self;
        body
    }
}
