//! Which places of a page are payloads.
ghost use Rattle.std.specs.Prelude.{ℕ, List, IsTrue, ◌↔◌};
ghost use Rattle.trace_model.specs.Record.{Record};
ghost use Rattle.trace_model.specs.Words.{Decodes};
ghost use Rattle.trace_model.specs.Reading.{IsPlaceIn};

use crate::page::Page;
use record_words::{Place, Word, next_word};

/// Whether a record's payload is at this place of the data. The words are read from the front, up to the
/// place, an ending padding or a fault.
fn is_payload(data: &[u8], place: Place) -> bool
    ensures every { IsPlaceIn «data».now place.start place.len → IsTrue result }
    ensures only { IsTrue result → (time : ℕ) (records : List Record) → Decodes «data».now time records
        → IsPlaceIn «data».now place.start place.len }
{
    let mut at = 0;
    while at < data.len() && at < place.start {
        let Ok(word) = next_word(data, at) else {
            return false;
        };
        at = match word {
            Word::Data {
                place: found,
                next,
                ..
            } => {
                if found == place {
                    return true;
                }
                next
            }
            Word::Pad { next } => next,
            Word::Extend { next, .. } => next,
            Word::Stamp { next, .. } => next,
            Word::End => return false,
        };
    }
    false
}

impl Page {
    ghost use Rattle.page_image.specs.Contents.{IsPage};

    /// Whether a record's payload is at this place.
    pub fn is_place(&self, place: Place) -> bool
        ensures every { IsPlaceIn self.now.bytes place.start place.len → IsTrue result }
        ensures exact { IsPage self.now
            → (IsTrue result ↔ IsPlaceIn self.now.bytes place.start place.len) }
    {
        is_payload(self.data(), place)
    }
}
