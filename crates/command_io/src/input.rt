//! Reads all of a source, up to a limit.
ghost use Rattle.std.specs.Prelude.{◌≡◌, ◌≢◌, ◌↔◌, ◌+◌, ◌<◌, ◌≤◌, ◌++◌, false, true, vec_len, length};
ghost use Rattle.std.specs.Prelude.{IfOk, IfErr, OnOk, OnErr, Err};
ghost use Rattle.std.specs.Io.KnownBytes.{Consumes, IsAtEnd};
ghost use Rattle.command_io.specs.CommandRun.{TakesAtMost, TakesMoreThan};

use crate::ends::Source;
use std::alloc::Global;
use trace_model::MAX_INPUT;

/// How many bytes are asked for at a time, and so how many may be read past the limit.
pub const READ_CHUNK: usize = 65536;

/// Why there is no input.
#[derive(Clone, Copy, Debug, PartialEq, Eq)]
pub enum InputFault {
    /// A read failed.
    Read,
    /// More than [`MAX_INPUT`] bytes were read.
    TooLong,
    /// Memory was refused.
    NoMemory,
}

// Room for one chunk.
fn new_chunk(alloc: Global) -> Result<Vec<u8>, InputFault>
    ensures room { IfOk result (λ chunk. vec_len chunk ≡ READ_CHUNK) }
    ensures refused { IfErr result (λ fault. fault ≡ InputFault.NoMemory) }
{
    match vec![in alloc; 0u8; READ_CHUNK] {
        Ok(chunk) => Ok(chunk),
        Err(_) => Err(InputFault::NoMemory),
    }
}

// Adds what was read to the text, which stays within the limit.
fn add_chunk(text: &mut Vec<u8>, chunk: &[u8]) -> Result<(), InputFault>
    requires { vec_len text.old ≤ MAX_INPUT }
    ensures added { OnOk result (text.new.items ≡ text.old.items ++ chunk.now) }
    ensures limited { vec_len text.new ≤ MAX_INPUT }
    ensures too_long { (result ≡ Err InputFault.TooLong)
        ↔ (MAX_INPUT < vec_len text.old + length chunk.now) }
    ensures kept { OnErr result (text.new.items ≡ text.old.items) }
    ensures no_read { IfErr result (λ fault. fault ≢ InputFault.Read) }
{
    if chunk.len() > MAX_INPUT - text.len() {
        return Err(InputFault::TooLong);
    }
    match text.extend_from_slice(chunk) {
        Ok(()) => Ok(()),
        Err(_) => Err(InputFault::NoMemory),
    }
}

/// All that the reader gives, at most [`MAX_INPUT`] bytes. Nothing more is read after the first fault; of an input that
/// is too long at most [`READ_CHUNK`] bytes are read past the limit.
pub fn read_all<R: Source>(alloc: Global, reader: &mut R) -> Result<Vec<u8>, InputFault>
    requires { R.failed reader.old ≡ false }
    ensures whole { IfOk result (λ text.
        Consumes (R.remaining reader.old) (R.remaining reader.new) text.items × IsAtEnd (R.remaining reader.new)) }
    ensures limited { IfOk result (λ text. vec_len text ≤ MAX_INPUT) }
    ensures read_fault { (R.failed reader.new ≡ true) ↔ (result ≡ Err InputFault.Read) }
    ensures too_long { result ≡ Err InputFault.TooLong
        → TakesMoreThan MAX_INPUT (R.remaining reader.old) (R.remaining reader.new) (R.count reader.new) }
    ensures counted { R.count reader.old ≡ 0 → MAX_INPUT < R.count reader.new → result ≡ Err InputFault.TooLong }
    ensures no_memory { result ≡ Err InputFault.NoMemory
        → TakesAtMost MAX_INPUT (R.remaining reader.old) (R.remaining reader.new) }
    ensures bounded { R.count reader.new ≤ R.count reader.old + MAX_INPUT + READ_CHUNK }
{
    let mut chunk = new_chunk(alloc)?;
    let mut text = Vec::new(alloc);
    loop {
        match reader.read(chunk.as_mut_slice()) {
            Ok(0) => return Ok(text),
            Ok(count) => add_chunk(&mut text, &chunk[..count])?,
            Err(_) => return Err(InputFault::Read),
        }
    }
}
