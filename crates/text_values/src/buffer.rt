//! The memory before a writer, in which a text waits.
ghost use Rattle.std.specs.Prelude.{◌≡◌, ◌≤◌, ◌*◌, length};
ghost use Rattle.text_values.specs.Digits.{pairs_of};
ghost use Rattle.text_values.specs.declared.buffer.TheConstants.{BUFFER_BYTES};

use command_io::{Sink, write_all};
use hex::encode_to_slice;
use std::alloc::Global;
use trace_model::NoMemory;

/// How many bytes a buffer holds.
pub(crate) const BUFFER_BYTES: usize = 65536;

/// Writes the digits of bytes, which fill the place for them.
fn write_pairs(bytes: &[u8], place: &mut [u8])
    requires { length place.old ≡ 2 * length bytes.now }
    ensures { place.new ≡ pairs_of bytes.now }
{
    let _fits = encode_to_slice(bytes, place);
}

/// The memory in which a text waits, and whether a write of it has failed. After a write that failed nothing more is
/// written.
#[derive(Debug, Drop)]
pub struct TextBuffer {
    bytes: Vec<u8>,
    filled: usize,
    failed: bool,
    ghost sized: { length bytes.items ≡ BUFFER_BYTES },
    ghost within: { filled ≤ BUFFER_BYTES },
}

impl TextBuffer {
    ghost use Rattle.std.specs.Prelude.{◌≡◌, ◌≤◌, ◌+◌, ◌*◌, ◌++◌, ℕ, List, [], Option, false, length};
    ghost use Rattle.text_values.specs.Digits.{pairs_of};
    ghost use Rattle.text_values.specs.Waiting.{waiting, has_failed, HasSent};

    /// A buffer. No other call takes memory.
    pub fn new(alloc: Global) -> Result<TextBuffer, NoMemory> {
        Ok(TextBuffer {
            bytes: vec![in alloc; 0u8; BUFFER_BYTES]?,
            filled: 0,
            failed: false,
        })
    }

    /// Forgets what it had.
    pub(crate) fn clear(&mut self)
        ensures empty { waiting self.new ≡ [] }
        ensures sound { has_failed self.new ≡ false }
    {
        self.filled = 0;
        self.failed = false;
    }

    /// Whether a write has failed.
    pub(crate) fn has_failed(&self) -> bool
        ensures { result ≡ has_failed self.now }
    {
        self.failed
    }

    /// How many bytes more it holds.
    pub(crate) fn room(&self) -> usize
        ensures { result + self.now.filled ≡ BUFFER_BYTES }
    {
        BUFFER_BYTES - self.filled
    }

    /// What waits.
    fn text(&self) -> &[u8]
        ensures { result.now ≡ waiting self.now }
    {
        &self.bytes[..self.filled]
    }

    /// Puts bytes that there is room for.
    pub(crate) fn add(&mut self, bytes: &[u8])
        requires { self.old.filled + length bytes.now ≤ BUFFER_BYTES }
        ensures waits { waiting self.new ≡ waiting self.old ++ bytes.now }
        ensures failed { has_failed self.new ≡ has_failed self.old }
    {
        let end = self.filled + bytes.len();
        self.bytes[self.filled..end].copy_from_slice(bytes);
        self.filled = end;
    }

    /// Puts the digits of bytes, for which there is room.
    pub(crate) fn add_hex(&mut self, bytes: &[u8])
        requires { self.old.filled + 2 * length bytes.now ≤ BUFFER_BYTES }
        ensures waits { waiting self.new ≡ waiting self.old ++ pairs_of bytes.now }
        ensures failed { has_failed self.new ≡ has_failed self.old }
    {
        let end = self.filled + 2 * bytes.len();
        write_pairs(bytes, &mut self.bytes[self.filled..end]);
        self.filled = end;
    }

    /// Writes what waits, and empties the buffer.
    pub(crate) fn write_out<W: Sink>(&mut self, writer: &mut W)
        requires { has_failed self.old ≡ W.failed writer.old }
        ensures tied { has_failed self.new ≡ W.failed writer.new }
        ensures empty { self.new.filled ≡ 0 }
        ensures put { (start : Option (List ℕ)) (text : List ℕ) →
            HasSent start (W.contents writer.old) (W.failed writer.old) text self.old →
            HasSent start (W.contents writer.new) (W.failed writer.new) text self.new }
    {
        if !self.failed {
            self.failed = write_all(writer, self.text()).is_err();
        }
        self.filled = 0;
    }
}
