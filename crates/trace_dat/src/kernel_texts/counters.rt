//! The counters of a CPU's ring, as the kernel prints them.
ghost use Rattle.std.specs.Prelude.{◌≡◌, map, IfOk};
ghost use Rattle.trace_dat.specs.kernel_texts.Counters.{count_in, counters_in, buffer_from, texts_of};

use crate::kernel_texts::lines::{number_of, value_of};
use std::alloc::{AllocError, Global};

/// What the kernel counts of a CPU's ring.
#[derive(Clone, Copy, Debug, PartialEq, Eq)]
pub struct Counters {
    /// The number of the CPU.
    pub cpu: u64,
    /// How many records were overwritten before anyone read them.
    pub overrun: u64,
    /// How many records weren't written as interrupts had filled the ring meanwhile. 0 if the text doesn't say it.
    pub commit_overrun: u64,
    /// How many records weren't written as the ring was full, and doesn't overwrite. 0 if the text doesn't say it.
    pub dropped: u64,
}

/// The number behind this beginning of a line, or 0 if there is none.
#[tactic(auto, unfolding(crate::specs::kernel_texts::Counters::count_in))]
fn count_of(text: &[u8], key: &[u8]) -> u64
    ensures { result ≡ count_in key.now text.now }
{
    match value_of(text, key) {
        Some(value) => number_of(value).unwrap_or(0),
        None => 0,
    }
}

/// The counters that a text states: a line `CPU: N` and a line `overrun: N`, among others, and perhaps a line `commit
/// overrun: N` and a line `dropped events: N`. None if one of the first two is missing or has no number.
#[tactic(auto, unfolding(crate::specs::kernel_texts::Counters::counters_in))]
pub fn ring_counters(text: &[u8]) -> Option<Counters>
    ensures { result ≡ counters_in text.now }
{
    let cpu = number_of(value_of(text, b"CPU: ")?)?;
    let overrun = number_of(value_of(text, b"overrun: ")?)?;
    Some(Counters {
        cpu,
        overrun,
        commit_overrun: count_of(text, b"commit overrun: "),
        dropped: count_of(text, b"dropped events: "),
    })
}

/// The buffer whose counters are in the texts from this one on, if `before` was the buffer before it.
fn buffer_from<'a>(before: &'a [u8], text: &'a [u8]) -> &'a [u8]
    ensures { result.now ≡ buffer_from before.now text.now }
{
    value_of(text, b"Buffer: ").unwrap_or(before)
}

/// Of the texts of counters in a file those that are of the buffer of this name, which is empty for the main one.
/// Before the texts of an instance is one with its name in a line `Buffer: NAME`; those before the first such text are
/// of the main buffer.
pub fn counters_of<'a>(
    alloc: Global,
    name: &[u8],
    texts: &[&'a [u8]],
) -> Result<Vec<&'a [u8]>, AllocError>
    ensures { IfOk result (λ own.
        map (λ text. text.now) own.items ≡ texts_of name.now (map (λ text. text.now) texts.now)) }
{
    let mut own = Vec::new(alloc);
    let mut buffer: &'a [u8] = &[];
    for text in texts {
        buffer = buffer_from(buffer, text);
        if buffer == name {
            own.push(*text)?;
        }
    }
    Ok(own)
}
