//! A file that is read into memory.
ghost use Rattle.std.specs.Prelude.{◌≡◌, ◌↔◌, ℕ, false, true, List, ◌++◌, Err, IfOk, IfErr};
ghost use Rattle.std.specs.Io.KnownBytes.{Consumes, IsAtEnd};
ghost use Rattle.capture.specs.files.Giving.{IsReadOrMemory};

use crate::files::fault::InputFault;
use command_io::{READ_CHUNK, Source, fill_piece};
use std::alloc::Global;

/// All of a file, of which the first bytes are read already.
pub(crate) fn read_rest<R: Source>(
    alloc: Global,
    first: &[u8],
    reader: &mut R,
) -> Result<Vec<u8>, InputFault>
    requires { R.failed reader.old ≡ false }
    ensures whole { IfOk result (λ file. (more : List ℕ) × (file.items ≡ first.now ++ more)
        × Consumes (R.remaining reader.old) (R.remaining reader.new) more) }
    ensures end { IfOk result (λ file. IsAtEnd (R.remaining reader.new)) }
    ensures read_fault { (R.failed reader.new ≡ true) ↔ (result ≡ Err InputFault.Read) }
    ensures fault { IfErr result (λ fault. IsReadOrMemory fault) }
{
    let mut file = Vec::new(alloc);
    file.extend_from_slice(first)?;
    let mut chunk = vec![in alloc; 0u8; READ_CHUNK]?;
    loop {
        let Ok(count) = fill_piece(reader, chunk.as_mut_slice()) else {
            return Err(InputFault::Read);
        };
        file.extend_from_slice(&chunk[..count])?;
        if count < READ_CHUNK {
            return Ok(file);
        }
    }
}
