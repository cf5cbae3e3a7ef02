//! A record written after others.
ghost use Rattle.std.specs.Prelude.{◌≡◌, ◌+◌, ◌≤◌, ◌<◌, false, length, replicate, if◌then◌else◌};
ghost use Rattle.trace_model.specs.Words.{padded, slot_len};
ghost use Rattle.record_words.specs.declared.format.TheConstants.{EXTEND_FROM, SHORT_LIMIT};
ghost use Rattle.page_image.specs.Putting.{HasRoomAfter, PutsBehind};
ghost use Rattle.page_image.specs.declared.put.PutKind.TheVariants.{Plain};
ghost use Rattle.page_image.specs.Plain.{IsPlainIn};

use record_words::{EXTEND_FROM, Place, SHORT_LIMIT, put_payload, put_record, put_short, slot_len};

/// The delta that a record's words state: the first record of a page has none.
#[inline(always)]
fn delta_in_words(delta: u64, first: bool) -> u64
    ensures { result ≡ (if first then 0 else delta) }
{
    if first { 0 } else { delta }
}

/// `put_behind`, whatever the record's form, and however little room is left after it.
#[inline(never)]
fn put_any(body: &mut [u8], end: usize, delta: u64, first: bool, len: usize) -> Place
    requires { HasRoomAfter (length body.old) end delta first len }
    ensures { PutsBehind body.old body.new end delta first len (replicate (slot_len len) 0) result }
{
    let place = put_record(&mut body[end..], delta, first, len);
    Place {
        start: end + place.start,
        len: place.len,
    }
}

/// Writes a record with a zeroed payload after the first `end` bytes, and answers where the payload is. The
/// record ends where its payload does. What follows it may be lost.
#[inline(always)]
pub(crate) fn put_behind(body: &mut [u8], end: usize, delta: u64, first: bool, len: usize) -> Place
    requires { HasRoomAfter (length body.old) end delta first len }
    ensures { PutsBehind body.old body.new end delta first len (replicate (slot_len len) 0) result }
{
    let word_delta = delta_in_words(delta, first);
    if len <= SHORT_LIMIT && word_delta < EXTEND_FROM && end + (4 + SHORT_LIMIT) <= body.len() {
        let slot = slot_len(len);
        put_short(&mut body[end..], word_delta as u32, slot);
        return Place {
            start: end + 4,
            len: slot,
        };
    }
    put_any(body, end, delta, first, len)
}

/// Which records a call is for.
#[derive(Clone, Copy, PartialEq)]
pub(crate) enum PutKind {
    /// Any that have room.
    Any,
    /// Plain ones (`docs/GLOSSARY.md`): short, and far enough from the page's end for any short record.
    Plain,
}

/// How many bytes a payload of `len` bytes, at least one, takes in a page.
#[inline(always)]
fn plain_slot_len(len: usize) -> usize
    requires some { 1 ≤ len }
    requires limit { len ≤ SHORT_LIMIT }
    ensures slot { result ≡ slot_len len }
    ensures limit { result ≤ SHORT_LIMIT }
{
    len.next_multiple_of(4)
}

/// `put_behind`, for a plain record.
#[inline(always)]
fn put_plain_behind(body: &mut [u8], end: usize, delta: u64, len: usize) -> Place
    requires some { 1 ≤ len }
    requires short { len ≤ SHORT_LIMIT }
    requires near { delta < EXTEND_FROM }
    requires far { end + (4 + SHORT_LIMIT) ≤ length body.old }
    ensures { PutsBehind body.old body.new end delta false len (replicate (slot_len len) 0) result }
{
    let slot = plain_slot_len(len);
    put_short(&mut body[end..], delta as u32, slot);
    Place {
        start: end + 4,
        len: slot,
    }
}

/// `put_behind`, for these records.
#[inline(always)]
pub(crate) fn put_behind_as(
    records: PutKind,
    body: &mut [u8],
    end: usize,
    delta: u64,
    first: bool,
    len: usize,
) -> Place
    requires plain { records ≡ Plain → IsPlainIn (length body.old) end delta first len }
    requires fits { HasRoomAfter (length body.old) end delta first len }
    ensures { PutsBehind body.old body.new end delta first len (replicate (slot_len len) 0) result }
{
    match records {
        PutKind::Any => put_behind(body, end, delta, first, len),
        PutKind::Plain => put_plain_behind(body, end, delta, len),
    }
}

/// Writes a record with this payload after the first `end` bytes, and answers where the payload is. The record
/// ends where its payload does.
#[inline(always)]
pub(crate) fn put_payload_behind(
    body: &mut [u8],
    end: usize,
    delta: u64,
    first: bool,
    payload: &[u8],
) -> Place
    requires { HasRoomAfter (length body.old) end delta first (length payload.now) }
    ensures { PutsBehind body.old body.new end delta first (length payload.now) (padded payload.now) result }
{
    let size = put_payload(&mut body[end..], delta, first, payload);
    let len = slot_len(payload.len());
    Place {
        start: end + size - len,
        len,
    }
}
