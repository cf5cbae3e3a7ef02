//! The program `tracering`: replays scripts of writers, readers and collectors of a trace ring, lists their steps, runs
//! them by threads, prints page images, and lists what a kernel wrote, streams of parcels say, or rings left in files.
#![tactic(auto)]

mod answer;
mod laws;
mod told;
mod version;

use crate::answer::answer_to;
use command_io::{Std, given_words, message_for};
use command_line::{Call, CallFault, USAGE_LINE, given_call, given_cause};
use host_commands::{collect, recover};
use std::process::ExitCode;

// What is chosen here, `answer_to`, `given_cause` and `message_for` say, and of `collect` and `recover` the functions
// that these call. The rest has no contract: that the lines go to standard error, and that the process ends with the
// status.
fn main(rt: HostRuntime) -> ExitCode {
    let words = given_words(&rt);
    let call = given_call(rt.alloc(), &words);
    if let Ok(Call::Collect(asked)) = &call {
        return ExitCode::from(collect(&rt, &rt, asked));
    }
    if let Ok(Call::Recover(asked)) = &call {
        return ExitCode::from(recover(&rt, asked));
    }
    if let Err(CallFault::Usage) = &call {
        if let Some(cause) = given_cause(&words) {
            let _ = eprintln!(rt; "{cause}");
        }
    }
    let mut input = Std::new(rt.stdin());
    let mut output = Std::new(rt.stdout());
    let status = answer_to(&rt, rt.alloc(), call, &mut input, &mut output);
    if let Some(line) = message_for(USAGE_LINE, status, &input, &output) {
        let _ = eprintln!(rt; "{line}");
    }
    ExitCode::from(status)
}
