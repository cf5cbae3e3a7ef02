//! A piece of a source, filled.
ghost use Rattle.std.specs.Prelude.{◌≡◌, ◌↔◌, ◌<◌, ◌≤◌, false, true, length, take, IfOk, IsErr};
ghost use Rattle.std.specs.Io.KnownBytes.{Consumes, IsAtEnd};

use crate::ends::Source;
use std::io;

/// Reads until the piece is full or the source is at its end, and answers how many bytes were read.
pub fn fill_piece<R: Source>(reader: &mut R, piece: &mut [u8]) -> io::Result<usize>
    requires { R.failed reader.old ≡ false }
    ensures taken { IfOk result (λ count.
        Consumes (R.remaining reader.old) (R.remaining reader.new) (take count piece.new)) }
    ensures bound { IfOk result (λ count. count ≤ length piece.new) }
    ensures end { IfOk result (λ count. count < length piece.new → IsAtEnd (R.remaining reader.new)) }
    ensures fails { (R.failed reader.new ≡ true) ↔ IsErr result }
{
    let mut filled = 0;
    while filled < piece.len() {
        let count = reader.read(&mut piece[filled..])?;
        if count == 0 {
            return Ok(filled);
        }
        filled += count;
    }
    Ok(filled)
}
