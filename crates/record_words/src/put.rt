//! A record written in place.
ghost use Rattle.std.specs.Prelude.{◌≡◌, ◌+◌, ◌≤◌, ◌<◌, length, replicate, take};
ghost use Rattle.trace_model.specs.Words.{le32, first_word, slot_len, padded, encoded_len, encoding, data_word};
ghost use Rattle.trace_model.specs.Words.{bytes_of_word, time_extend};
ghost use Rattle.trace_model.specs.declared.limits.TheConstants.{MOMENT_LIMIT};
ghost use Rattle.record_words.specs.Puts.{Puts, FitsIn, data_header, header_len};

use crate::copy::copy_to_front;
use crate::format::{EXTEND_FROM, MAX_PAYLOAD, SHORT_LIMIT, TIME_EXTEND};
use crate::size::slot_len;
use byteorder::{ByteOrder, LittleEndian};

/// Where a payload is in the data of a page: its first byte and its length, in bytes.
#[derive(Clone, Copy, Debug, PartialEq, Eq)]
pub struct Place {
    /// The offset of its first byte in the data.
    pub start: usize,
    /// How many bytes it takes.
    pub len: usize,
}

/// Puts a 32-bit word of this type and delta at the front.
#[tactic(auto, unfolding(trace_model::specs::Words::le32))]
#[inline(always)]
fn put_word(out: &mut [u8], type_len: u32, delta: u32)
    requires type_fits { type_len < 32 }
    requires delta_fits { delta < EXTEND_FROM }
    requires room { 4 ≤ length out.old }
    ensures { Puts out.old out.new (first_word type_len delta) }
{
    LittleEndian::write_u32(out, type_len + 32 * delta);
}

/// Puts a 32-bit number at the front, which follows a first word.
#[tactic(auto, unfolding(trace_model::specs::Words::le32))]
#[inline(always)]
fn put_number(out: &mut [u8], number: u32)
    requires { 4 ≤ length out.old }
    ensures { Puts out.old out.new (le32 number) }
{
    LittleEndian::write_u32(out, number);
}

/// Puts the time extend of this delta at the front, eight bytes. All bytes after it stay as they were.
pub fn put_extend(out: &mut [u8], delta: u64)
    requires time { delta < MOMENT_LIMIT }
    requires room { 8 ≤ length out.old }
    ensures { Puts out.old out.new (bytes_of_word (time_extend delta)) }
{
    put_word(out, TIME_EXTEND, (delta % EXTEND_FROM) as u32);
    put_number(&mut out[4..], (delta / EXTEND_FROM) as u32);
}

/// Puts what comes before a payload of `slot` bytes at the front, and answers how many bytes that takes.
fn put_header(out: &mut [u8], delta: u32, slot: usize) -> usize
    requires delta_fits { delta < EXTEND_FROM }
    requires limit { slot ≤ MAX_PAYLOAD }
    requires room { header_len slot ≤ length out.old }
    ensures put { Puts out.old out.new (data_header delta slot) }
    ensures len { result ≡ header_len slot }
{
    if slot <= SHORT_LIMIT {
        put_word(out, (slot / 4) as u32, delta);
        4
    } else {
        put_word(out, 0, delta);
        put_number(&mut out[4..], slot as u32 + 4);
        8
    }
}

/// Puts a data word with a zeroed payload of `slot` bytes at the front, and answers the payload's place.
fn put_data(out: &mut [u8], delta: u32, slot: usize) -> Place
    requires delta_fits { delta < EXTEND_FROM }
    requires limit { slot ≤ MAX_PAYLOAD }
    requires room { header_len slot + slot ≤ length out.old }
    ensures put { Puts out.old out.new (bytes_of_word (data_word delta (replicate slot 0))) }
    ensures len { result.len ≡ slot }
    ensures end { result.start + result.len ≡ header_len slot + slot }
{
    let start = put_header(out, delta, slot);
    out[start..start + slot].fill(0);
    Place { start, len: slot }
}

/// Writes the words of a record and a zeroed payload at the front of `out`, which must have room for them, and answers
/// where the payload is: `len` bytes, rounded up to a multiple of 4 and at least 4. All bytes after
/// the record stay as they were.
///
/// `delta` is the time since the record before it on the page. The first record of a page has none: its
/// `delta` is ignored.
pub fn put_record(out: &mut [u8], delta: u64, first: bool, len: usize) -> Place
    requires { FitsIn (length out.old) delta first len }
    ensures put { Puts out.old out.new (encoding delta first (replicate (slot_len len) 0)) }
    ensures len { result.len ≡ slot_len len }
    ensures end { result.start + result.len ≡ encoded_len len delta first }
{
    let slot = slot_len(len);
    if first {
        return put_data(out, 0, slot);
    }
    if delta < EXTEND_FROM {
        return put_data(out, delta as u32, slot);
    }
    put_extend(out, delta);
    let place = put_data(&mut out[8..], 0, slot);
    Place {
        start: place.start + 8,
        len: place.len,
    }
}

/// Writes the word of a record in the short form and a zeroed payload of `slot` bytes at the front of `out`. What
/// follows the record is lost, as far as the longest such record would reach: so few stores serve each length.
#[inline(always)]
pub fn put_short(out: &mut [u8], delta: u32, slot: usize)
    requires delta_fits { delta < EXTEND_FROM }
    requires limit { slot ≤ SHORT_LIMIT }
    requires room { 4 + SHORT_LIMIT ≤ length out.old }
    ensures put { take (4 + slot) out.new ≡ bytes_of_word (data_word delta (replicate slot 0)) }
{
    put_word(out, (slot / 4) as u32, delta);
    out[4..4 + SHORT_LIMIT].fill(0);
}

/// Puts a payload at the front, and the zeros that fill its slot of `slot` bytes.
#[inline(always)]
fn put_padded(out: &mut [u8], slot: usize, payload: &[u8])
    requires limit { length payload.now ≤ MAX_PAYLOAD }
    requires slot { slot ≡ slot_len (length payload.now) }
    requires room { slot ≤ length out.old }
    ensures { Puts out.old out.new (padded payload.now) }
{
    put_number(&mut out[slot - 4..], 0);
    copy_to_front(out, payload);
}

/// Puts a data word with this payload at the front, and answers how many bytes that takes.
fn put_padded_data(out: &mut [u8], delta: u32, payload: &[u8]) -> usize
    requires delta_fits { delta < EXTEND_FROM }
    requires limit { length payload.now ≤ MAX_PAYLOAD }
    requires room { header_len (slot_len (length payload.now)) + slot_len (length payload.now) ≤ length out.old }
    ensures put { Puts out.old out.new (bytes_of_word (data_word delta (padded payload.now))) }
    ensures len { result ≡ header_len (slot_len (length payload.now)) + slot_len (length payload.now) }
{
    let slot = slot_len(payload.len());
    let start = put_header(out, delta, slot);
    put_padded(&mut out[start..], slot, payload);
    start + slot
}

/// Puts a word of the short form with this payload at the front, and answers how many bytes that takes.
#[inline(always)]
fn put_short_payload(out: &mut [u8], delta: u32, payload: &[u8]) -> usize
    requires delta_fits { delta < EXTEND_FROM }
    requires limit { length payload.now ≤ SHORT_LIMIT }
    requires room { 4 + slot_len (length payload.now) ≤ length out.old }
    ensures put { Puts out.old out.new (bytes_of_word (data_word delta (padded payload.now))) }
    ensures len { result ≡ 4 + slot_len (length payload.now) }
{
    let len = payload.len().max(1);
    let words = (len + 3) / 4;
    let size = (4 + len).next_multiple_of(4);
    put_word(out, words as u32, delta);
    put_padded(&mut out[4..], size - 4, payload);
    size
}

/// `put_payload`, whatever the record's form.
#[inline(never)]
fn put_any_payload(out: &mut [u8], delta: u64, first: bool, payload: &[u8]) -> usize
    requires { FitsIn (length out.old) delta first (length payload.now) }
    ensures put { Puts out.old out.new (encoding delta first (padded payload.now)) }
    ensures len { result ≡ encoded_len (length payload.now) delta first }
{
    let delta = if first { 0 } else { delta };
    if delta < EXTEND_FROM {
        return put_padded_data(out, delta as u32, payload);
    }
    put_extend(out, delta);
    8 + put_padded_data(&mut out[8..], 0, payload)
}

/// Writes the words of a record, its payload and the zeros that fill its slot at the front of `out`, which must have
/// room for them, and answers how many bytes that takes. All bytes after the record stay as they were.
///
/// `delta` is that of `put_record`.
#[inline(always)]
pub fn put_payload(out: &mut [u8], delta: u64, first: bool, payload: &[u8]) -> usize
    requires { FitsIn (length out.old) delta first (length payload.now) }
    ensures put { Puts out.old out.new (encoding delta first (padded payload.now)) }
    ensures len { result ≡ encoded_len (length payload.now) delta first }
{
    let word_delta = if first { 0 } else { delta };
    if payload.len() <= SHORT_LIMIT && word_delta < EXTEND_FROM {
        return put_short_payload(out, word_delta as u32, payload);
    }
    put_any_payload(out, delta, first, payload)
}
