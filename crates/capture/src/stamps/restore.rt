//! Stamps replaced by extends, in place.
ghost use Rattle.std.specs.Prelude.{◌≡◌, ◌+◌, ◌<◌, ◌++◌, length, take, drop, IfSome, None};
ghost use Rattle.trace_model.specs.Words.{bytes_of_word, time_stamp, word_time_limit};
ghost use Rattle.trace_model.specs.Reading.{word_at_front};
ghost use Rattle.record_words.specs.Next.{StandsAt};
ghost use Rattle.capture.specs.stamps.Restored.{time_until, restored_word, restored_time, restored_data};
ghost use Rattle.capture.specs.stamps.Restored.{restored_image};
ghost use Rattle.capture.specs.stamps.Walk.{RestoresWord};

use crate::head::{HEADER, stated_size};
use page_image::number_at;
use record_words::{Word, next_word, put_extend};

/// The times of stamps and extends are below this: 2^59.
const TIME_LIMIT: u64 = 1 << 59;

/// How far the words of data are restored.
#[derive(Clone, Copy)]
struct Reached {
    /// The offset of the next word, in bytes.
    at: usize,
    /// The time before it.
    before: u64,
}

impl Reached {
    ghost use Rattle.std.specs.Prelude.{◌≡◌, ◌+◌, ◌%◌, ◌^◌};

    /// Past a word that moves the time by this much. The next one is at `next`.
    fn past(self, next: usize, delta: u64) -> Reached
        ensures next { result.at ≡ next }
        ensures time { result.before ≡ (self.before + delta) % 2 ^ 64 }
    {
        Reached {
            at: next,
            before: self.before.wrapping_add(delta),
        }
    }
}

/// How long after the time before it a stamp is: until the next time with its 59 bits.
fn time_until(before: u64, stamp: u64) -> u64
    requires { stamp < word_time_limit }
    ensures { result ≡ time_until before stamp }
{
    (stamp + TIME_LIMIT - before % TIME_LIMIT) % TIME_LIMIT
}

/// Restores the stamp at `at`, if the time before it has bits to be taken, and answers the time after it.
fn restore_stamp(data: &mut [u8], at: usize, before: u64, stamp: u64) -> u64
    requires { StandsAt «data».old at (at + 8) (time_stamp stamp) }
    ensures front { take at «data».new ≡ take at «data».old }
    ensures word { drop at «data».new
        ≡ bytes_of_word (restored_word before (time_stamp stamp)) ++ drop (at + 8) «data».old }
    ensures time { result ≡ restored_time before (time_stamp stamp) }
{
    if before < TIME_LIMIT {
        return stamp;
    }
    let delta = time_until(before, stamp);
    put_extend(&mut data[at..], delta);
    before.wrapping_add(delta)
}

/// Restores the word that is reached, and goes past it. `None` if no word is there.
fn restore_word(data: &mut [u8], reached: Reached) -> Option<Reached>
    requires { reached.at < length «data».old }
    ensures word { IfSome result (λ behind. RestoresWord «data».old «data».new reached behind) }
    ensures end { result ≡ None → word_at_front (drop reached.at «data».old) ≡ None }
    ensures kept { result ≡ None → «data».new ≡ «data».old }
{
    let Reached { at, before } = reached;
    match next_word(data, at) {
        Ok(Word::Data { delta, next, .. }) => Some(reached.past(next, delta)),
        Ok(Word::Extend { delta, next }) => Some(reached.past(next, delta)),
        Ok(Word::Pad { next }) => Some(reached.past(next, 0)),
        Ok(Word::Stamp { time, next }) => Some(Reached {
            at: next,
            before: restore_stamp(data, at, before, time),
        }),
        Ok(Word::End) => None,
        Err(_) => None,
    }
}

/// Restores the stamps in the data of a page with this time.
fn restore_data(data: &mut [u8], time: u64)
    ensures { «data».new ≡ restored_data time «data».old }
{
    let mut reached = Reached {
        at: 0,
        before: time,
    };
    while reached.at < data.len() {
        let Some(behind) = restore_word(data, reached) else {
            return;
        };
        reached = behind;
    }
}

/// Restores the stamps of a page image, up to the first fault of its data.
pub fn restore_stamps(image: &mut [u8])
    ensures { image.new ≡ restored_image image.old }
{
    if image.len() < HEADER {
        return;
    }
    let time = number_at(image, 0);
    let size = stated_size(image);
    if image.len() - HEADER < size {
        return;
    }
    restore_data(&mut image[HEADER..HEADER + size], time);
}
