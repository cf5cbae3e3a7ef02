//! A text that is written as a whole, and how that ends.
ghost use Rattle.std.specs.Prelude.{◌≡◌, false};
ghost use Rattle.command_io.specs.Written.{IsTextWritten};

use crate::ends::Sink;
use crate::output::write_all;

/// Writes a text. The answer is `wanted`, or `not_written` if a write fails.
pub fn write_text<W: Sink, E: Copy>(writer: &mut W, text: &[u8], wanted: E, not_written: E) -> E
    requires { W.failed writer.old ≡ false }
    ensures { IsTextWritten not_written (W.contents writer.old) (W.contents writer.new) (W.failed writer.new) text.now
        wanted result }
{
    match write_all(writer, text) {
        Ok(()) => wanted,
        Err(_) => not_written,
    }
}
