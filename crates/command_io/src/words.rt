//! The words of a program's command line, as the process was given them.
ghost use Rattle.std.specs.Prelude.{◌≡◌, ◌≢◌};

use std::env;
use std::io::ErrorKind;
use std::rt::Env;

/// Why the words of a command line can't be given.
#[derive(Clone, Copy, Debug, PartialEq, Eq)]
pub enum WordsFault {
    /// A word is no text: it isn't UTF-8.
    Unreadable,
    /// Memory was refused.
    NoMemory,
}

/// The fault for an error of this kind.
fn fault_of(kind: ErrorKind) -> WordsFault
    ensures memory { kind ≡ ErrorKind.OutOfMemory → result ≡ WordsFault.NoMemory }
    ensures unreadable { kind ≢ ErrorKind.OutOfMemory → result ≡ WordsFault.Unreadable }
{
    match kind {
        ErrorKind::OutOfMemory => WordsFault::NoMemory,
        _ => WordsFault::Unreadable,
    }
}

/// The words of the command line, the program's own name first. No contract can say which words they are.
pub fn given_words<R: Env + AllocGlobal>(rt: &R) -> Result<Vec<String>, WordsFault> {
    match env::args(rt) {
        Ok(words) => words
            .collect(rt.alloc())
            .map_err(|_refused| WordsFault::NoMemory),
        Err(error) => Err(fault_of(error.kind())),
    }
}
