//! A writer with a buffer before it.
ghost use Rattle.std.specs.Prelude.{◌≡◌};

use crate::buffer::{BUFFER_BYTES, TextBuffer};
use crate::values::{HEX_DIGITS, write_hexadecimal};
use command_io::{OutputFault, Sink};
use itoa::{Buffer, write_digits};

/// How many bytes have digits that fill the buffer.
const HEX_PIECE: usize = BUFFER_BYTES / 2;

/// How many digits a number of 64 bits has at most.
const MAX_DIGITS: usize = 20;

/// A writer with a buffer before it, through which a text is put piece by piece. The buffer has failed exactly if the
/// writer has, and after a write that failed nothing more is written.
#[derive(Drop)]
pub struct Out<'w, W: Sink> {
    writer: &'w mut W,
    buffer: &'w mut TextBuffer,
    ghost tied: { buffer.now.failed ≡ W.failed writer.now },
}

impl<'w, W: Sink> Out<'w, W> {
    ghost use Rattle.std.specs.Prelude.{◌≡◌, ◌≤◌, ◌*◌, ◌++◌, ◌↔◌, ℕ, List, [], true, false, length, OnOk, OnErr, IsErr};
    ghost use Rattle.std.specs.Io.KnownBytes.{Appends};
    ghost use Rattle.std.specs.Fmt.{decimal, signed_decimal};
    ghost use Rattle.command_io.specs.CommandRun.{AppendsPrefix};
    ghost use Rattle.text_values.specs.declared.buffer.TheConstants.{BUFFER_BYTES};
    ghost use Rattle.text_model.specs.Text.{hex_text};
    ghost use Rattle.text_values.specs.Digits.{pairs_of, hexadecimal};
    ghost use Rattle.text_values.specs.Putting.{Start, writer_of, contents_of, has_failed, start_of};
    ghost use Rattle.text_values.specs.Putting.{HasPut, Puts, KeepsWriter};

    /// Nothing is put yet, and what the buffer had is forgotten.
    pub fn new(buffer: &'w mut TextBuffer, writer: &'w mut W) -> Out<'w, W>
        requires { W.failed writer.old ≡ false }
        ensures same_writer { result.writer.ghost_name ≡ writer.entry.ghost_name }
        ensures writer { writer_of result ≡ writer.old }
        ensures empty { HasPut (start_of result) [] result }
    {
        buffer.clear();
        Out { writer, buffer }
    }

    /// Writes what waits, and empties the buffer.
    fn write_out(&mut self)
        ensures empty { self.new.buffer.now.filled ≡ 0 }
        ensures put { (start : Start) (text : List ℕ) → HasPut start text self.old → HasPut start text self.new }
    {
        self.buffer.write_out(self.writer);
    }

    /// Puts bytes that an empty buffer has room for, after what waits is written.
    fn put_piece(&mut self, bytes: &[u8])
        requires { length bytes.now ≤ BUFFER_BYTES }
        ensures { Puts bytes.now self.old self.new }
    {
        self.write_out();
        self.buffer.add(bytes);
    }

    /// Puts bytes that there is no room for.
    fn put_more(&mut self, bytes: &[u8])
        ensures { Puts bytes.now self.old self.new }
    {
        let mut rest = bytes;
        while !rest.is_empty() {
            let (piece, more) = rest.split_at(rest.len().min(BUFFER_BYTES));
            self.put_piece(piece);
            rest = more;
        }
    }

    /// Puts bytes.
    pub fn put(&mut self, bytes: &[u8])
        ensures { Puts bytes.now self.old self.new }
    {
        if bytes.len() <= self.buffer.room() {
            self.buffer.add(bytes);
        } else {
            self.put_more(bytes);
        }
    }

    /// Puts a number in decimal.
    pub fn put_number(&mut self, number: u64)
        ensures { Puts (decimal number) self.old self.new }
    {
        let mut digits = [0; MAX_DIGITS];
        let start = write_digits(number, &mut digits, MAX_DIGITS);
        self.put(&digits[start..]);
    }

    /// Puts a number after a text.
    pub fn put_numbered(&mut self, before: &[u8], number: u64)
        ensures { Puts (before.now ++ decimal number) self.old self.new }
    {
        self.put(before);
        self.put_number(number);
    }

    /// Puts a number that may be negative.
    pub fn put_signed(&mut self, number: i64)
        ensures { Puts (signed_decimal number) self.old self.new }
    {
        let mut digits = Buffer::new();
        self.put(digits.format(number).as_bytes());
    }

    /// Puts a number in hexadecimal, after `0x`.
    pub fn put_hexadecimal(&mut self, number: u64)
        ensures { Puts (hexadecimal number) self.old self.new }
    {
        let mut digits = [0; HEX_DIGITS];
        let start = write_hexadecimal(number, &mut digits);
        self.put(b"0x");
        self.put(&digits[start..]);
    }

    /// Puts the digits of bytes, for which an empty buffer has room, after what waits is written.
    fn put_hex_piece(&mut self, bytes: &[u8])
        requires { 2 * length bytes.now ≤ BUFFER_BYTES }
        ensures { Puts (pairs_of bytes.now) self.old self.new }
    {
        self.write_out();
        self.buffer.add_hex(bytes);
    }

    /// Puts the digits of bytes that there is no room for.
    fn put_more_hex(&mut self, bytes: &[u8])
        ensures { Puts (pairs_of bytes.now) self.old self.new }
    {
        let mut rest = bytes;
        while !rest.is_empty() {
            let (piece, more) = rest.split_at(rest.len().min(HEX_PIECE));
            self.put_hex_piece(piece);
            rest = more;
        }
    }

    /// Puts two lower-case hexadecimal digits for each byte.
    pub fn put_hex(&mut self, bytes: &[u8])
        ensures { Puts (pairs_of bytes.now) self.old self.new }
    {
        if bytes.len() <= self.buffer.room() / 2 {
            self.buffer.add_hex(bytes);
        } else {
            self.put_more_hex(bytes);
        }
    }

    /// Puts a payload in lower-case hexadecimal, `-` if it is empty.
    pub fn put_payload(&mut self, bytes: &[u8])
        ensures { Puts (hex_text bytes.now) self.old self.new }
    {
        if bytes.is_empty() {
            self.put(b"-");
        } else {
            self.put_hex(bytes);
        }
    }

    /// Writes what waits. After a write that failed a beginning of what was put is written, and not all.
    pub fn finish(&mut self) -> Result<(), OutputFault>
        ensures writer { KeepsWriter self.old self.new }
        ensures all { (start : Start) (text : List ℕ) → HasPut start text self.old →
            OnOk result (Appends start.contents (contents_of self.new) text) }
        ensures prefix { (start : Start) (text : List ℕ) → HasPut start text self.old →
            OnErr result (AppendsPrefix start.contents (contents_of self.new) text) }
        ensures fault { (has_failed self.new ≡ true) ↔ IsErr result }
    {
        let buffer = &mut *self.buffer;
        buffer.write_out(self.writer);
        if buffer.has_failed() {
            return Err(OutputFault);
        }
        Ok(())
    }
}
