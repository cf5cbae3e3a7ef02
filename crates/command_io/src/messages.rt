//! The lines that the program writes to standard error.
ghost use Rattle.std.specs.Prelude.{◌≡◌, ◌≢◌, ◌<◌, ◌≤◌, true, false, MatchOption};
ghost use Rattle.command_io.specs.Ends.{count_of, has_failed, has_no_reader};

use crate::ends::Std;
use crate::status::{END_FAILED, USAGE};
use std::io::{Read, Write};
use trace_model::MAX_INPUT;

/// The input couldn't be read to its end.
pub const READ_FAILED: &str = "tracering: reading failed";

/// The output couldn't be written, or only a beginning of it.
pub const WRITE_FAILED: &str = "tracering: writing failed";

/// The input is longer than `MAX_INPUT`.
pub const INPUT_TOO_LONG: &str = "tracering: the input is longer than 268435456 bytes";

/// Why a command gives the exit status 4, if it isn't for its output.
#[derive(Clone, Copy, Debug, PartialEq, Eq)]
pub enum EndFault {
    /// A read failed.
    Read,
    /// A write failed, and not as for [`EndFault::NoReader`].
    Write,
    /// A write failed since nobody reads any more what is written.
    NoReader,
    /// No read and no write failed: more was read than may be.
    TooLong,
}

impl EndFault {
    /// The fault of this output, if a write of it has failed.
    pub fn of_output<W: Write>(output: &Std<W>) -> Option<EndFault>
        ensures no_reader { has_no_reader output.now ≡ true → result ≡ Some EndFault.NoReader }
        ensures write { has_failed output.now ≡ true → has_no_reader output.now ≡ false
            → result ≡ Some EndFault.Write }
        ensures none { has_failed output.now ≡ false → result ≡ None }
    {
        if output.has_no_reader() {
            Some(EndFault::NoReader)
        } else if output.has_failed() {
            Some(EndFault::Write)
        } else {
            None
        }
    }

    /// The fault of a command over these two ends, which gave the exit status 4. There is none if neither end failed
    /// and no more was read than may be: then the command printed the line of its fault.
    pub fn of_ends<R: Read, W: Write>(input: &Std<R>, output: &Std<W>) -> Option<EndFault>
        ensures read { has_failed input.now ≡ true → result ≡ Some EndFault.Read }
        ensures write { has_failed input.now ≡ false → has_failed output.now ≡ true → has_no_reader output.now ≡ false
            → result ≡ Some EndFault.Write }
        ensures no_reader { has_failed input.now ≡ false → has_no_reader output.now ≡ true
            → result ≡ Some EndFault.NoReader }
        ensures too_long { has_failed input.now ≡ false → has_failed output.now ≡ false
            → MAX_INPUT < count_of input.now → result ≡ Some EndFault.TooLong }
        ensures none { has_failed input.now ≡ false → has_failed output.now ≡ false
            → count_of input.now ≤ MAX_INPUT → result ≡ None }
    {
        if input.has_failed() {
            return Some(EndFault::Read);
        }
        if let Some(fault) = EndFault::of_output(output) {
            return Some(fault);
        }
        if input.count() > MAX_INPUT as u64 {
            Some(EndFault::TooLong)
        } else {
            None
        }
    }

    /// The line that states it. There is none for [`EndFault::NoReader`]: who reads no more of a listing has what was
    /// wanted.
    pub fn message(self) -> Option<&'static str>
        ensures read { self ≡ EndFault.Read → MatchOption result ⊥ (λ line. line.now ≡ READ_FAILED.now) }
        ensures write { self ≡ EndFault.Write → MatchOption result ⊥ (λ line. line.now ≡ WRITE_FAILED.now) }
        ensures no_reader { self ≡ EndFault.NoReader → result ≡ None }
        ensures too_long { self ≡ EndFault.TooLong → MatchOption result ⊥ (λ line. line.now ≡ INPUT_TOO_LONG.now) }
    {
        match self {
            EndFault::Read => Some(READ_FAILED),
            EndFault::Write => Some(WRITE_FAILED),
            EndFault::NoReader => None,
            EndFault::TooLong => Some(INPUT_TOO_LONG),
        }
    }
}

/// The line of standard error for an exit status and the ends of the command that gave it: for [`USAGE`] the program's
/// usage line. There is none if the work is done, if what is wrong was printed, or if nobody reads any more what is
/// written.
pub fn message_for<R: Read, W: Write>(
    usage: &'static str,
    status: u8,
    input: &Std<R>,
    output: &Std<W>,
) -> Option<&'static str>
    ensures usage { status ≡ USAGE → MatchOption result ⊥ (λ line. line.now ≡ usage.now) }
    ensures read { status ≡ END_FAILED → has_failed input.now ≡ true
        → MatchOption result ⊥ (λ line. line.now ≡ READ_FAILED.now) }
    ensures write { status ≡ END_FAILED → has_failed input.now ≡ false → has_failed output.now ≡ true
        → has_no_reader output.now ≡ false → MatchOption result ⊥ (λ line. line.now ≡ WRITE_FAILED.now) }
    ensures no_reader { status ≡ END_FAILED → has_failed input.now ≡ false → has_no_reader output.now ≡ true
        → result ≡ None }
    ensures too_long { status ≡ END_FAILED → has_failed input.now ≡ false → has_failed output.now ≡ false
        → MAX_INPUT < count_of input.now → MatchOption result ⊥ (λ line. line.now ≡ INPUT_TOO_LONG.now) }
    ensures printed { status ≡ END_FAILED → has_failed input.now ≡ false → has_failed output.now ≡ false
        → count_of input.now ≤ MAX_INPUT → result ≡ None }
    ensures none { status ≢ USAGE → status ≢ END_FAILED → result ≡ None }
{
    match status {
        USAGE => Some(usage),
        END_FAILED => EndFault::of_ends(input, output).and_then(|fault| fault.message()),
        _ => None,
    }
}
