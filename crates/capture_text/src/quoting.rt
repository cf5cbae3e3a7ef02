//! Names that are shown, and texts between quotation marks.
ghost use Rattle.std.specs.Prelude.{◌≡◌, ◌<◌, ◌≤◌, ◌↔◌, ◌++◌, IsTrue, codes, length, slice_index, take};
ghost use Rattle.text_values.specs.Digits.{pair_of};
ghost use Rattle.std.specs.Str.{is_utf8};
ghost use Rattle.text_values.specs.Putting.{Puts};
ghost use Rattle.capture_text.specs.Quoting.{shown_byte, shown_name, escaped_ascii, escaped, escaped_text, IsPlain};
ghost use Rattle.capture_text.specs.Quoting.{marked, quoted};

use command_io::Sink;
use std::str::from_utf8;
use text_values::Out;

/// A byte of a name as it is shown: a byte that isn't printable, a space, a quotation mark and a backslash are `?`.
pub fn shown_byte(byte: u8) -> u8
    ensures { result ≡ shown_byte byte }
{
    if byte > b' ' && byte < 127 && byte != b'"' && byte != b'\\' {
        return byte;
    }
    b'?'
}

/// Whether all bytes of a name are shown as they are.
fn is_shown(name: &[u8]) -> bool
    ensures { IsTrue result ↔ (shown_name name.now ≡ name.now) }
{
    for byte in name {
        if shown_byte(*byte) != *byte {
            return false;
        }
    }
    true
}

/// Puts a name: at once, if all of it is shown as it is.
pub(crate) fn put_name<W: Sink>(out: &mut Out<'_, W>, name: &[u8])
    ensures { Puts (shown_name name.now) out.old out.new }
{
    if is_shown(name) {
        out.put(name);
        return;
    }
    for byte in name {
        out.put(&[shown_byte(*byte)]);
    }
}

/// Puts a byte of ASCII as it is between quotation marks.
fn put_escaped_ascii<W: Sink>(out: &mut Out<'_, W>, byte: u8)
    ensures { Puts (escaped_ascii byte) out.old out.new }
{
    match byte {
        b'"' | b'\\' => out.put(&[b'\\', byte]),
        b'\n' => out.put(b"\\n"),
        b'\t' => out.put(b"\\t"),
        b'\r' => out.put(b"\\r"),
        0..=31 | 127 => put_control(out, byte),
        _ => out.put(&[byte]),
    }
}

/// Puts a control character by its number.
fn put_control<W: Sink>(out: &mut Out<'_, W>, byte: u8)
    ensures { Puts (codes "\\u00" ++ pair_of byte) out.old out.new }
{
    out.put(b"\\u00");
    out.put_hex(&[byte]);
}

/// Puts a byte as it is between quotation marks, in a text that is UTF-8 or not.
fn put_escaped<W: Sink>(out: &mut Out<'_, W>, is_text: bool, byte: u8)
    ensures { Puts (escaped is_text byte) out.old out.new }
{
    if byte < 128 {
        put_escaped_ascii(out, byte);
    } else if is_text {
        out.put(&[byte]);
    } else {
        out.put(b"\\ufffd");
    }
}

/// Whether a byte stays as it is between quotation marks, in a text that is UTF-8 or not.
fn is_plain(is_text: bool, byte: u8) -> bool
    ensures { IsTrue result ↔ IsPlain is_text byte }
{
    match byte {
        0..=31 | b'"' | b'\\' | 127 => false,
        128..=255 => is_text,
        _ => true,
    }
}

/// How many bytes stay as they are before the first that doesn't.
fn plain_length(is_text: bool, text: &[u8]) -> usize
    ensures within { result ≤ length text.now }
    ensures plain { escaped_text is_text (take result text.now) ≡ take result text.now }
    ensures longest { result < length text.now → ¬ IsPlain is_text (slice_index text.now result) }
{
    for (index, byte) in text.iter().enumerate() {
        if !is_plain(is_text, *byte) {
            return index;
        }
    }
    text.len()
}

/// Puts what is between the quotation marks. A run of bytes that stay as they are is put at once.
fn put_escaped_text<W: Sink>(out: &mut Out<'_, W>, is_text: bool, text: &[u8])
    ensures { Puts (escaped_text is_text text.now) out.old out.new }
{
    let mut rest = text;
    loop {
        let (plain, behind) = rest.split_at(plain_length(is_text, rest));
        out.put(plain);
        let Some((byte, more)) = behind.split_first() else {
            return;
        };
        put_escaped(out, is_text, *byte);
        rest = more;
    }
}

/// Whether bytes are UTF-8.
fn is_text(bytes: &[u8]) -> bool
    ensures { result ≡ is_utf8 bytes.now }
{
    from_utf8(bytes).is_ok()
}

/// Puts a name as it is between quotation marks.
pub(crate) fn put_escaped_name<W: Sink>(out: &mut Out<'_, W>, name: &[u8])
    ensures { Puts (escaped_text (is_utf8 name.now) name.now) out.old out.new }
{
    put_escaped_text(out, is_text(name), name);
}

/// Puts a name between quotation marks, as it is.
pub(crate) fn put_marked<W: Sink>(out: &mut Out<'_, W>, name: &[u8])
    ensures { Puts (marked name.now) out.old out.new }
{
    out.put(b"\"");
    out.put(name);
    out.put(b"\"");
}

/// Puts a text between quotation marks.
pub(crate) fn put_quoted<W: Sink>(out: &mut Out<'_, W>, text: &[u8])
    ensures { Puts (quoted text.now) out.old out.new }
{
    out.put(b"\"");
    put_escaped_text(out, is_text(text), text);
    out.put(b"\"");
}
