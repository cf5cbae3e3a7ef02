//! The program `rows`: reads worked exchanges with rings, with collectors and with files of trace-cmd, and writes them
//! with what is answered.
//!
//! Standard input is a text of rows, as the file `stdout` of this crate, with or without answers. A line in brackets
//! begins a row, a line that begins with `#` is a comment, and any other asks something. The text is written line by
//! line, each line that asks with its answer. An answer may have further lines, each of which begins with two spaces;
//! such lines of the text that is read are left out, as is all after ` -> ` in its line, so that a text with its
//! answers may be read too. What a row asks is said at the head of each folder: `rings`, `collectors`, `files`.
#![tactic(auto)]

mod collectors;
mod fault;
mod files;
mod lines;
mod rings;
mod row;
mod words;

use lines::answer_input;
use std::process::ExitCode;

fn main(rt: HostRuntime) -> ExitCode {
    answer_input(&rt)
}
