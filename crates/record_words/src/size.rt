//! How many bytes a record takes.
ghost use Rattle.std.specs.Prelude.{◌≡◌, ◌≤◌, ◌<◌, ◌⊎◌, true};
ghost use Rattle.trace_model.specs.Words.{slot_len, encoded_len};
ghost use Rattle.trace_model.specs.declared.limits.TheConstants.{MOMENT_LIMIT};

use crate::format::{EXTEND_FROM, MAX_PAYLOAD, SHORT_LIMIT};

/// How many bytes a payload of `len` bytes takes in a page: at least 4, and whole words.
#[inline(always)]
pub fn slot_len(len: usize) -> usize
    requires { len ≤ MAX_PAYLOAD }
    ensures { result ≡ slot_len len }
{
    len.max(1).next_multiple_of(4)
}

/// The number of bytes that a record takes, a time extend included, whose payload has `len` bytes
/// and which comes `delta` after the record before it, or is the first of its page.
#[inline(always)]
pub fn size_of(len: usize, delta: u64, first: bool) -> usize
    requires length { len ≤ MAX_PAYLOAD }
    requires time { (first ≡ true) ⊎ (delta < MOMENT_LIMIT) }
    ensures { result ≡ encoded_len len delta first }
{
    let extend = if first || delta < EXTEND_FROM { 0 } else { 8 };
    let word = if len <= SHORT_LIMIT { 4 } else { 8 };
    extend + (word + len.max(1)).next_multiple_of(4)
}
