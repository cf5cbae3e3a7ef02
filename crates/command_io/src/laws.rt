//! The values of the constants.
ghost use Rattle.std.specs.Prelude.{◌≡◌, ◌∷◌, ◌++◌, [], codes};
ghost use Rattle.std.specs.Fmt.{decimal};

use crate::command::MEMORY_LINE;
use crate::input::READ_CHUNK;
use crate::messages::{INPUT_TOO_LONG, READ_FAILED, WRITE_FAILED};
use crate::output::THREAD_LINE;
use crate::status::{DONE, END_FAILED, NO_MEMORY, REFUSED, USAGE};
use trace_model::MAX_INPUT;

/// The exit statuses, the number of bytes that are read at a time, the lines of a command that ran out of memory or
/// couldn't start a thread, and the lines of standard error are those that are stated here.
pub fn constants_are()
    ensures done { DONE ≡ 0 }
    ensures refused { REFUSED ≡ 1 }
    ensures usage { USAGE ≡ 2 }
    ensures no_memory { NO_MEMORY ≡ 3 }
    ensures end_failed { END_FAILED ≡ 4 }
    ensures read_chunk { READ_CHUNK ≡ 65536 }
    ensures memory_line { MEMORY_LINE ≡ codes "memory" ++ 10 ∷ [] }
    ensures thread_line { THREAD_LINE.now ≡ codes "thread" ++ 10 ∷ [] }
    ensures read_failed { READ_FAILED.now ≡ codes "tracering: reading failed" }
    ensures write_failed { WRITE_FAILED.now ≡ codes "tracering: writing failed" }
    ensures input_too_long { INPUT_TOO_LONG.now
        ≡ codes "tracering: the input is longer than " ++ decimal MAX_INPUT ++ codes " bytes" }
{}
