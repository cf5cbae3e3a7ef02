//! What the process's command line asks for.
ghost use Rattle.std.specs.Prelude.{◌≡◌, Err, Ok, IfOk, IfSome, Some, map, string_bytes};
ghost use Rattle.command_line.specs.Causes.{IsCauseOf};
ghost use Rattle.command_line.specs.Calls.{IsInRange};
ghost use Rattle.command_line.specs.CommandLine.{IsCallOf};
ghost use Rattle.command_line.specs.declared.call.CollectCall.{CollectCall};

use crate::call::{Call, CallFault};
use crate::cause::Cause;
use crate::misuse::cause_of;
use crate::parse::call_of;
use command_io::WordsFault;
use std::alloc::Global;

/// What these words ask for, by [`call_of`], if they could be given.
pub fn given_call<'a>(
    alloc: Global,
    words: &'a Result<Vec<String>, WordsFault>,
) -> Result<Call<'a>, CallFault>
    ensures words { IfOk words.now (λ given. IsCallOf (map string_bytes given.items) result) }
    ensures in_range { (asked : CollectCall) → result ≡ Ok (Call.Collect asked) → IsInRange asked }
    ensures unreadable { words.now ≡ Err WordsFault.Unreadable → result ≡ Err CallFault.Usage }
    ensures no_memory { words.now ≡ Err WordsFault.NoMemory → result ≡ Err CallFault.NoMemory }
{
    match words {
        Ok(words) => call_of(alloc, words.as_slice()),
        Err(WordsFault::Unreadable) => Err(CallFault::Usage),
        Err(WordsFault::NoMemory) => Err(CallFault::NoMemory),
    }
}

/// Why these words, which [`given_call`] refuses, are refused; there is no cause if the program's name is alone.
pub fn given_cause(words: &Result<Vec<String>, WordsFault>) -> Option<Cause<'_>>
    ensures words { IfOk words.now (λ given. IfSome result (λ cause.
        IsCauseOf (map string_bytes given.items) cause)) }
    ensures unreadable { words.now ≡ Err WordsFault.Unreadable → result ≡ Some Cause.Unreadable }
{
    match words {
        Ok(words) => cause_of(words.as_slice()),
        Err(_) => Some(Cause::Unreadable),
    }
}
