//! What a command prints, and the writing of it.
ghost use Rattle.std.specs.Prelude.{◌≡◌, ◌↔◌, false, true, OnOk, OnErr, IsErr};
ghost use Rattle.std.specs.Io.KnownBytes.{Appends};
ghost use Rattle.command_io.specs.CommandRun.{AppendsPrefix};
ghost use Rattle.command_io.specs.Output.{bytes_of, status_of};

use crate::ends::Sink;
use crate::status::{DONE, END_FAILED, REFUSED};

/// The only line of a command that could not start a thread.
pub const THREAD_LINE: &[u8] = b"thread\n";

/// The bytes that a command prints, by how it ends.
#[derive(Debug, Drop)]
pub enum Output {
    /// The work is done; the exit status is 0.
    Done(Vec<u8>),
    /// The input is refused, and the bytes are the fault's line; the exit status is 1.
    Refused(Vec<u8>),
    /// A thread that the work needs could not be started, and the bytes are [`THREAD_LINE`]; the exit status is 4.
    NoThread,
}

impl Output {
    /// What is printed.
    pub fn bytes(&self) -> &[u8]
        ensures { result.now ≡ bytes_of self.now }
    {
        match self {
            Output::Done(bytes) => bytes.as_slice(),
            Output::Refused(line) => line.as_slice(),
            Output::NoThread => THREAD_LINE,
        }
    }

    /// The exit status, 0, 1 or 4.
    pub fn status(&self) -> u8
        ensures { result ≡ status_of self.now }
    {
        match self {
            Output::Done(_) => DONE,
            Output::Refused(_) => REFUSED,
            Output::NoThread => END_FAILED,
        }
    }
}

/// A write failed.
#[derive(Clone, Copy, Debug, PartialEq, Eq)]
pub struct OutputFault;

/// Writes the whole text, in order. After a fault a beginning of it is written, and not all; nothing more is written
/// after the first fault.
pub fn write_all<W: Sink>(writer: &mut W, text: &[u8]) -> Result<(), OutputFault>
    requires { W.failed writer.old ≡ false }
    ensures all { OnOk result (Appends (W.contents writer.old) (W.contents writer.new) text.now) }
    ensures prefix { OnErr result (AppendsPrefix (W.contents writer.old) (W.contents writer.new) text.now) }
    ensures fault { (W.failed writer.new ≡ true) ↔ IsErr result }
{
    let mut written = 0;
    while written < text.len() {
        match writer.write(&text[written..]) {
            Ok(0) => return Err(OutputFault),
            Ok(count) => written += count,
            Err(_) => return Err(OutputFault),
        }
    }
    Ok(())
}
