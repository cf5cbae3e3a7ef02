//! The program `tracering` with the command `replay` alone. What asks for `replay` is answered as by the whole program,
//! and fewer crates have to be proved for it; each other command line is refused by the usage line alone.
#![tactic(auto)]

mod answer;
mod words;

use crate::answer::answer_to;
use crate::words::USAGE_LINE;
use command_io::{Std, given_words, message_for};
use std::process::ExitCode;

// What is chosen here, `answer_to` and `message_for` say. The rest has no contract: that the line goes to standard
// error, and that the process ends with the status.
fn main(rt: HostRuntime) -> ExitCode {
    let mut input = Std::new(rt.stdin());
    let mut output = Std::new(rt.stdout());
    let words = given_words(&rt);
    let status = answer_to(rt.alloc(), &words, &mut input, &mut output);
    if let Some(line) = message_for(USAGE_LINE, status, &input, &output) {
        let _ = eprintln!(rt; "{line}");
    }
    ExitCode::from(status)
}
