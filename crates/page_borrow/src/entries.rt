//! The records of a page, one by one, as they are in it.
use page_image::{Reached, step_over_word};
use std::iter::FusedIterator;
use std::marker::Model;
use trace_model::{Moment, RecordNo};

/// A record of a page: its number among its CPU's records, its moment, and its bytes, which are the page's own,
/// with those that fill the record's slot.
#[derive(Clone, Copy, Debug, PartialEq, Eq)]
pub struct Entry<'a> {
    /// Its number among the records of its CPU, from 0.
    pub number: RecordNo,
    /// When it was made.
    pub moment: Moment,
    /// Its slot: the payload, and what fills it up to whole words (zeros, unless its writer put others there).
    pub bytes: &'a [u8],
}

/// The records of a page in their order, as entries. Padding, time extends and time stamps are none.
#[derive(Debug, Drop)]
pub struct Records<'a> {
    data: &'a [u8],
    /// How far the data is read.
    reached: Reached,
    /// The number of the next record.
    number: u64,
    /// The number after the last record's.
    end: u64,
}

impl<'a> Model for Records<'a> {
    ghost use Rattle.std.specs.Prelude.{ℕ, ◌*◌, ◌≤◌, List};
    ghost use Rattle.trace_model.specs.Record.{Record};
    ghost use Rattle.page_borrow.specs.Entries.{entries_left};

    ghost Value = { List (ℕ × Record) };

    ghost view = { λ r. entries_left r.data.now r.reached r.number r.end };

    ghost invariant = { λ r. 4 * r.reached.count ≤ r.reached.at };
}

impl<'a> Records<'a> {
    ghost use Rattle.std.specs.Prelude.{◌≡◌, ◌*◌, ◌≤◌};
    ghost use Rattle.page_borrow.specs.Entries.{entries_left};

    /// The records of these bytes from where a walk over them has got to, numbered from `number` to `end - 1`.
    pub(crate) fn new(bytes: &'a [u8], reached: Reached, number: u64, end: u64) -> Records<'a>
        requires { 4 * reached.count ≤ reached.at }
        ensures { result ≡ entries_left bytes.now reached number end }
    {
        Records {
            data: bytes,
            reached,
            number,
            end,
        }
    }
}

impl<'a> Iterator for Records<'a> {
    ghost use Rattle.std.specs.Iterator.{YieldsFirstBy, item_count};
    ghost use Rattle.page_borrow.specs.Entries.{numbered_record};

    type Item = Entry<'a>;

    // Each call gives the first of the entries that are left.
    ghost next_gives = { YieldsFirstBy numbered_record (λ left. left) };

    ghost remaining = { item_count (λ left. left) };

    #[inline(always)]
    fn next(&mut self) -> Option<Entry<'a>> {
        while self.number < self.end && self.reached.at < self.data.len() {
            let Ok(Some(passed)) = step_over_word(self.data, self.reached) else {
                return None;
            };
            self.reached = passed.behind;
            if let Some(place) = passed.payload {
                let number = RecordNo(self.number);
                self.number += 1;
                return Some(Entry {
                    number,
                    moment: Moment(passed.behind.moment),
                    bytes: &self.data[place.start..place.start + place.len],
                });
            }
        }
        None
    }
}

impl<'a> FusedIterator for Records<'a> {}
