//! One word of the data of a page, read.
ghost use Rattle.std.specs.Prelude.{◌≡◌, ◌+◌, ◌-◌, ◌*◌, ◌≤◌, ◌<◌, ◌⊎◌, ◌↔◌, length, drop, IsOk, IfOk, IfErr};
ghost use Rattle.trace_model.specs.Reading.{from_le32};
ghost use Rattle.trace_model.specs.Faults.{cut, bad_length, IsWordFault, HasWord, HasEnding, HasGoodLength};
ghost use Rattle.trace_model.specs.Faults.{StatesLength, CountsWords, HasHighBits, number_behind, type_at_front};
ghost use Rattle.trace_model.specs.Faults.{delta_at_front};
ghost use Rattle.record_words.specs.Next.{IsWordRead, IsFaultAt};

use crate::format::{EXTEND_FROM, LEAST_LENGTH, PADDING, TIME_EXTEND, TIME_STAMP};
use crate::put::Place;
use byteorder::{ByteOrder, LittleEndian};

/// A word of the data of a page. `next` is the offset after it, in bytes.
#[derive(Clone, Copy, Debug, PartialEq, Eq)]
pub enum Word {
    /// A record: by how much it moves the time, and where its payload is.
    Data {
        delta: u64,
        place: Place,
        next: usize,
    },
    /// Padding to be skipped.
    Pad {
        next: usize,
    },
    /// Padding that ends the data, whatever follows.
    End,
    /// The time moves by this much.
    Extend {
        delta: u64,
        next: usize,
    },
    /// The time is set to this value.
    Stamp {
        time: u64,
        next: usize,
    },
}

/// Why a word can't be read, or the time after it doesn't fit. The argument is the offset of that word, in bytes.
#[derive(Clone, Copy, Debug, PartialEq, Eq)]
pub enum WordFault {
    /// The data ends within the word.
    Cut(usize),
    /// No word has the length that this one states.
    BadLength(usize),
    /// The time after the word doesn't fit 64 bits. `next_word`, which knows no time, never answers it.
    TimeOverflow(usize),
}

/// The number in the four bytes at `at`.
#[tactic(auto, unfolding(trace_model::specs::Reading::from_le32))]
fn number_at(data: &[u8], at: usize) -> u32
    requires { at + 4 ≤ length «data».now }
    ensures { result ≡ from_le32 (drop at «data».now) }
{
    LittleEndian::read_u32(&data[at..])
}

/// The number after the first four bytes of the word at `at`.
fn number_behind(data: &[u8], at: usize) -> Result<u32, WordFault>
    requires { at + 4 ≤ length «data».now }
    ensures number { IfOk result (λ n. n ≡ number_behind (drop at «data».now)) }
    ensures head { IsOk result ↔ (at + 8 ≤ length «data».now) }
    ensures fault { IfErr result (λ f. f ≡ WordFault.Cut at) }
{
    if data.len() - at < 8 {
        return Err(WordFault::Cut(at));
    }
    Ok(number_at(data, at + 4))
}

/// The offset after the word at `at`, which states its length.
fn end_of_stated(data: &[u8], at: usize) -> Result<usize, WordFault>
    requires head { at + 4 ≤ length «data».now }
    requires states { StatesLength (drop at «data».now) }
    ensures end { IfOk result (λ next. next ≡ at + 4 + number_behind (drop at «data».now)) }
    ensures good { IfOk result (λ next. HasGoodLength (drop at «data».now)) }
    ensures fault { IfErr result (λ f. IsFaultAt «data».now at f) }
{
    let len = number_behind(data, at)? as usize;
    let whole = len.is_multiple_of(4);
    if len < LEAST_LENGTH || !whole {
        return Err(WordFault::BadLength(at));
    }
    if data.len() - at - 4 < len {
        return Err(WordFault::Cut(at));
    }
    Ok(at + 4 + len)
}

/// The record whose payload is between these offsets.
fn record_between(delta: u32, start: usize, next: usize) -> Word
    requires { start ≤ next }
    ensures { result ≡ Word.Data delta (record { start = start; len = next - start }) next }
{
    Word::Data {
        delta: u64::from(delta),
        place: Place {
            start,
            len: next - start,
        },
        next,
    }
}

/// The record at `at`, whose length is after its first four bytes.
fn long_record(data: &[u8], at: usize, delta: u32) -> Result<Word, WordFault>
    requires head { at + 4 ≤ length «data».now }
    requires type_is { type_at_front (drop at «data».now) ≡ 0 }
    requires delta_is { delta ≡ delta_at_front (drop at «data».now) }
    ensures read { IfOk result (λ w. IsWordRead «data».now at w) }
    ensures fault { IfErr result (λ f. IsFaultAt «data».now at f) }
{
    let next = end_of_stated(data, at)?;
    Ok(record_between(delta, at + 8, next))
}

/// The record at `at`, whose type counts the words of its payload.
fn short_record(data: &[u8], at: usize, words: u32, delta: u32) -> Result<Word, WordFault>
    requires head { at + 4 ≤ length «data».now }
    requires counts { CountsWords (drop at «data».now) }
    requires type_is { words ≡ type_at_front (drop at «data».now) }
    requires delta_is { delta ≡ delta_at_front (drop at «data».now) }
    ensures read { IfOk result (λ w. IsWordRead «data».now at w) }
    ensures fault { IfErr result (λ f. IsFaultAt «data».now at f) }
{
    let len = 4 * words as usize;
    let start = at + 4;
    if data.len() - start < len {
        return Err(WordFault::Cut(at));
    }
    Ok(record_between(delta, start, start + len))
}

/// The padding at `at`, whose length is after its first four bytes.
fn padding(data: &[u8], at: usize) -> Result<Word, WordFault>
    requires head { at + 4 ≤ length «data».now }
    requires type_is { type_at_front (drop at «data».now) ≡ PADDING }
    requires delta_is { 1 ≤ delta_at_front (drop at «data».now) }
    ensures read { IfOk result (λ w. IsWordRead «data».now at w) }
    ensures fault { IfErr result (λ f. IsFaultAt «data».now at f) }
{
    let next = end_of_stated(data, at)?;
    Ok(Word::Pad { next })
}

/// The time of the extend or stamp at `at`, whose low 27 bits these are.
fn time_at(data: &[u8], at: usize, low: u32) -> Result<u64, WordFault>
    requires head { at + 4 ≤ length «data».now }
    requires high { HasHighBits (drop at «data».now) }
    ensures time { IfOk result (λ t. t ≡ number_behind (drop at «data».now) * EXTEND_FROM + low) }
    ensures whole { IfOk result (λ t. at + 8 ≤ length «data».now) }
    ensures fault { IfErr result (λ f. IsFaultAt «data».now at f) }
{
    let high = number_behind(data, at)?;
    Ok(u64::from(high) * EXTEND_FROM + u64::from(low))
}

/// The time extend at `at`, whose low 27 bits these are.
fn extend(data: &[u8], at: usize, low: u32) -> Result<Word, WordFault>
    requires head { at + 4 ≤ length «data».now }
    requires type_is { type_at_front (drop at «data».now) ≡ TIME_EXTEND }
    requires low_is { low ≡ delta_at_front (drop at «data».now) }
    ensures read { IfOk result (λ w. IsWordRead «data».now at w) }
    ensures fault { IfErr result (λ f. IsFaultAt «data».now at f) }
{
    let delta = time_at(data, at, low)?;
    Ok(Word::Extend {
        delta,
        next: at + 8,
    })
}

/// The time stamp at `at`, whose low 27 bits these are.
fn stamp(data: &[u8], at: usize, low: u32) -> Result<Word, WordFault>
    requires head { at + 4 ≤ length «data».now }
    requires type_is { type_at_front (drop at «data».now) ≡ TIME_STAMP }
    requires low_is { low ≡ delta_at_front (drop at «data».now) }
    ensures read { IfOk result (λ w. IsWordRead «data».now at w) }
    ensures fault { IfErr result (λ f. IsFaultAt «data».now at f) }
{
    let time = time_at(data, at, low)?;
    Ok(Word::Stamp { time, next: at + 8 })
}

/// The word at `at`, whose first four bytes are this number.
#[inline(always)]
fn word_at(data: &[u8], at: usize, first: u32) -> Result<Word, WordFault>
    requires head { at + 4 ≤ length «data».now }
    requires first_is { first ≡ from_le32 (drop at «data».now) }
    ensures read { IfOk result (λ w. IsWordRead «data».now at w) }
    ensures fault { IfErr result (λ f. IsFaultAt «data».now at f) }
{
    let delta = first / 32;
    match first % 32 {
        0 => long_record(data, at, delta),
        PADDING if delta == 0 => Ok(Word::End),
        PADDING => padding(data, at),
        TIME_EXTEND => extend(data, at, delta),
        TIME_STAMP => stamp(data, at, delta),
        words => short_record(data, at, words, delta),
    }
}

/// Reads the word at offset `at` of the data of a page, in bytes. A record's payload isn't copied: its
/// place is stated.
///
/// The answer is `Cut` if the data ends within the word, and `BadLength` if the word states a
/// length that none can have. A word with both faults is `BadLength`, unless the data ends within its
/// first four bytes or within the four that state the length.
#[inline(always)]
pub fn next_word(data: &[u8], at: usize) -> Result<Word, WordFault>
    requires { at < length «data».now }
    ensures ok { IsOk result ↔ (HasWord (drop at «data».now) ⊎ HasEnding (drop at «data».now)) }
    ensures word { IfOk result (λ w. IsWordRead «data».now at w) }
    ensures is_cut { (result ≡ Err (WordFault.Cut at)) ↔ IsWordFault (drop at «data».now) cut }
    ensures has_bad_length { (result ≡ Err (WordFault.BadLength at))
        ↔ IsWordFault (drop at «data».now) bad_length }
    ensures fault { IfErr result (λ f. IsFaultAt «data».now at f) }
{
    if data.len() - at < 4 {
        return Err(WordFault::Cut(at));
    }
    word_at(data, at, number_at(data, at))
}
