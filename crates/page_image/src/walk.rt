//! The words of a page's data, stepped over one by one from the front, with the time.
//!
//! It is the one walk that keeps the time: by it an image's records are counted, and a page's records are lent.
//! `places.rt` looks for a payload's place by `next_word` alone.
ghost use Rattle.std.specs.Prelude.{◌≡◌, ℕ, ◌+◌, ◌*◌, ◌≤◌, ◌<◌, ◌^◌, List, [], ◌++◌, IfOk, IfErr, IfSome, MatchOption};
ghost use Rattle.std.specs.Prelude.{length};
ghost use Rattle.trace_model.specs.Words.{Word as OneWord, Decodes, records_of};
ghost use Rattle.page_image.specs.Counting.{IsFirstWordFault};
ghost use Rattle.page_image.specs.Walk.{HasRead, HasPassed, records_at_place, records_left};

use crate::page::Page;
use record_words::{Place, Word, WordFault, next_word};

/// How far the words are read: up to this offset in bytes, with the moment there and how many records are
/// before it.
#[derive(Clone, Copy, Debug)]
pub struct Reached {
    /// How many bytes of the data were read.
    pub at: usize,
    /// The moment after the last word that was read.
    pub moment: u64,
    /// How many records were read.
    pub count: u64,
}

/// A word that was stepped over: its payload's place, if it is a record's, and how far the words are read then.
/// The record's moment is the one reached.
#[derive(Clone, Copy, Debug)]
pub struct Passed {
    /// Where the payload of a record is; padding and times have none.
    pub payload: Option<Place>,
    /// How far the words are read after it.
    pub behind: Reached,
}

/// Where a walk begins: before the first word of a page with this time.
pub(crate) fn start(time: u64) -> Reached
    ensures at { result.at ≡ 0 }
    ensures moment { result.moment ≡ time }
    ensures count { result.count ≡ 0 }
{
    Reached {
        at: 0,
        moment: time,
        count: 0,
    }
}

/// The moment to which the word at `at` moves the time.
fn later_moment(moment: u64, delta: u64, at: usize) -> Result<u64, WordFault>
    ensures ok { IfOk result (λ later. later ≡ moment + delta) }
    ensures fits { IfOk result (λ later. moment + delta < 2 ^ 64) }
    ensures fault { IfErr result (λ f. f ≡ WordFault.TimeOverflow at) }
    ensures past { IfErr result (λ f. 2 ^ 64 ≤ moment + delta) }
{
    moment.checked_add(delta).ok_or(WordFault::TimeOverflow(at))
}

/// Steps over one word more of the data of a page. `None` if that is an ending padding, whatever follows it; if the
/// word or the time after it has a fault, that is reported.
#[inline(always)]
pub fn step_over_word(data: &[u8], reached: Reached) -> Result<Option<Passed>, WordFault>
    requires inside { reached.at < length «data».now }
    requires few { 4 * reached.count ≤ reached.at }
    ensures forward { IfOk result (λ found. IfSome found (λ passed. reached.at < passed.behind.at)) }
    ensures within { IfOk result (λ found. IfSome found (λ passed. passed.behind.at ≤ length «data».now)) }
    ensures few { IfOk result (λ found. IfSome found (λ passed. 4 * passed.behind.count ≤ passed.behind.at)) }
    ensures payload { IfOk result (λ found. IfSome found (λ passed. IfSome passed.payload
        (λ place. place.start + place.len ≤ length «data».now))) }
    ensures read { (time : ℕ) (words : List OneWord)
        → HasRead «data».now time words reached
        → IfOk result (λ found. MatchOption found (Decodes «data».now time (records_of time words))
        (HasPassed «data».now time words)) }
    ensures fault { (time : ℕ) (words : List OneWord)
        → HasRead «data».now time words reached
        → IfErr result (λ f. IsFirstWordFault «data».now time f) }
    ensures left { IfOk result (λ found. MatchOption found (records_left «data».now reached ≡ [])
        (λ passed. records_left «data».now reached
        ≡ records_at_place «data».now passed.behind.moment passed.payload
        ++ records_left «data».now passed.behind)) }
    ensures none_left { IfErr result (λ f. records_left «data».now reached ≡ []) }
{
    let from = reached.at;
    let (payload, at, moment, count) = match next_word(data, from)? {
        Word::Data { delta, place, next } => (
            Some(place),
            next,
            later_moment(reached.moment, delta, from)?,
            reached.count + 1,
        ),
        Word::Extend { delta, next } => (
            None,
            next,
            later_moment(reached.moment, delta, from)?,
            reached.count,
        ),
        Word::Stamp { time: stamp, next } => (None, next, stamp, reached.count),
        Word::Pad { next } => (None, next, reached.moment, reached.count),
        Word::End => return Ok(None),
    };
    Ok(Some(Passed {
        payload,
        behind: Reached { at, moment, count },
    }))
}

impl Page {
    ghost use Rattle.std.specs.Prelude.{◌≡◌, ◌*◌, ◌≤◌};
    ghost use Rattle.page_image.specs.Contents.{IsPage, records_of_page};
    ghost use Rattle.page_image.specs.Walk.{records_left};

    /// Where a walk over the words of [`Page::data`] begins.
    pub fn begin_walk(&self) -> Reached
        ensures left { IsPage self.now → records_left self.now.bytes result ≡ records_of_page self.now }
        ensures few { 4 * result.count ≤ result.at }
    {
        start(self.time())
    }
}
