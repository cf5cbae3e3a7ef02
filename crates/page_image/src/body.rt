//! The bytes of a page.
use crate::put::{PutKind, put_behind_as, put_payload_behind};
use crate::slot::{SLOT_HEADER, blank_slot, put_begin, put_commit, put_time, slot_of};
use record_words::Place;
use std::alloc::Global;
use std::marker::Model;
use trace_model::{FillNo, NoMemory, RecordNo};

/// The bytes in which a page keeps its data. A body goes from page to page.
///
/// In memory they are a slot: a header of `SLOT_HEADER` bytes comes before them, in the same allocation. Contracts see
/// the bytes alone.
#[derive(Debug, Drop)]
pub struct Body {
    slot: Vec<u8>,
}

impl Model for Body {
    ghost use Rattle.std.specs.Prelude.{ℕ, ◌+◌, ◌≤◌, List, length, drop};
    ghost use Rattle.trace_model.specs.declared.limits.TheConstants.{MAX_SIZE};
    ghost use Rattle.page_image.specs.declared.slot.TheConstants.{SLOT_HEADER};

    ghost Value = { List ℕ };

    ghost view = { λ b. drop SLOT_HEADER b.slot.items };

    ghost invariant = { λ b. (SLOT_HEADER ≤ length b.slot.items)
        × (length b.slot.items ≤ SLOT_HEADER + MAX_SIZE) };
}

impl Body {
    ghost use Rattle.std.specs.Prelude.{◌≡◌, ◌+◌, ◌≤◌, ◌<◌, ◌%◌, length, replicate, take, slice_range, if◌then◌else◌};
    ghost use Rattle.std.specs.Prelude.{IfOk};
    ghost use Rattle.std.specs.Borrow.{sem};
    ghost use Rattle.trace_model.specs.declared.limits.TheConstants.{MIN_SIZE, MAX_SIZE};
    ghost use Rattle.trace_model.specs.Words.{padded, slot_len};
    ghost use Rattle.page_image.specs.declared.put.PutKind.TheVariants.{Plain};
    ghost use Rattle.page_image.specs.Lending.{LendsPart};
    ghost use Rattle.page_image.specs.Plain.{IsPlainIn};
    ghost use Rattle.page_image.specs.Putting.{HasRoomAfter, PutsBehind};

    /// A body of `size` zero bytes.
    pub fn new(alloc: Global, size: usize) -> Result<Body, NoMemory>
        requires at_least { MIN_SIZE ≤ size }
        requires at_most { size ≤ MAX_SIZE }
        requires words { size % 4 ≡ 0 }
        ensures { IfOk result (λ body. body ≡ replicate size 0) }
    {
        let slot = blank_slot(alloc, size)?;
        Ok(Body { slot })
    }

    /// A body of these bytes.
    pub(crate) fn of(alloc: Global, contents: &[u8]) -> Result<Body, NoMemory>
        requires { length contents.now ≤ MAX_SIZE }
        ensures { IfOk result (λ body. body ≡ contents.now) }
    {
        let slot = slot_of(alloc, contents)?;
        Ok(Body { slot })
    }

    /// How many bytes it has.
    #[inline(always)]
    pub fn size(&self) -> usize
        ensures size { result ≡ length self.now }
        ensures limit { result ≤ MAX_SIZE }
    {
        self.slot.len() - SLOT_HEADER
    }

    /// The first `end` bytes.
    #[inline(always)]
    pub(crate) fn front(&self, end: usize) -> &[u8]
        requires { end ≤ length self.now }
        ensures { result.now ≡ take end self.now }
    {
        &self.slot[SLOT_HEADER..SLOT_HEADER + end]
    }

    /// The bytes at this place, to be written.
    #[inline(always)]
    pub(crate) fn part_mut(&mut self, place: Place) -> &mut [u8]
        requires { place.start + place.len ≤ length self.old }
        ensures* lends { sem 𝓛 (LendsPart self.entry place.start result) }
        ensures part { result.now ≡ slice_range self.old place.start (place.start + place.len) }
        ensures len { length result.now ≡ place.len }
    {
        let slot = &mut self.slot;
        let start = SLOT_HEADER + place.start;
        slot.slice_mut(start..start + place.len)
    }

    /// `put_behind_as`.
    #[inline(always)]
    pub(crate) fn put_as(
        &mut self,
        records: PutKind,
        end: usize,
        delta: u64,
        first: bool,
        len: usize,
    ) -> Place
        requires plain { records ≡ Plain → IsPlainIn (length self.old) end delta first len }
        requires fits { HasRoomAfter (length self.old) end delta first len }
        ensures put { PutsBehind self.old self.new end delta first len (replicate (slot_len len) 0) result }
        ensures size { length self.new ≡ length self.old }
    {
        let place = put_behind_as(
            records,
            &mut self.slot,
            SLOT_HEADER + end,
            delta,
            first,
            len,
        );
        Place {
            start: place.start - SLOT_HEADER,
            len: place.len,
        }
    }

    /// `put_payload_behind`.
    #[inline(always)]
    pub(crate) fn put_payload(
        &mut self,
        end: usize,
        delta: u64,
        first: bool,
        payload: &[u8],
    ) -> Place
        requires fits { HasRoomAfter (length self.old) end delta first (length payload.now) }
        ensures put { PutsBehind self.old self.new end delta first (length payload.now) (padded payload.now) result }
        ensures size { length self.new ≡ length self.old }
    {
        let place = put_payload_behind(&mut self.slot, SLOT_HEADER + end, delta, first, payload);
        Place {
            start: place.start - SLOT_HEADER,
            len: place.len,
        }
    }

    /// Stores in the header that a page is begun, of this fill and from the record of this number on, of which nothing
    /// is committed.
    pub(crate) fn store_begin(&mut self, fill: FillNo, first: RecordNo)
        ensures stays { self.new ≡ self.old }
        ensures limit { length self.new ≤ MAX_SIZE }
    {
        put_begin(&mut self.slot, fill, first);
    }

    /// The time of a page once a record of this moment is put: that moment, which is stored in the header too, if the
    /// record is the first one, and else the time as it was.
    #[inline(always)]
    pub(crate) fn time_with(&mut self, is_first: bool, moment: u64, time: u64) -> u64
        ensures time { result ≡ (if is_first then moment else time) }
        ensures stays { self.new ≡ self.old }
    {
        if is_first {
            put_time(&mut self.slot, moment);
            moment
        } else {
            time
        }
    }

    /// Stores in the header how many bytes of data are committed.
    #[inline(always)]
    pub(crate) fn store_commit(&mut self, commit: usize)
        ensures { self.new ≡ self.old }
    {
        put_commit(&mut self.slot, commit as u64);
    }
}
