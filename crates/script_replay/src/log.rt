//! The log of a replay: what the script's lines met, in their order, and its text.

mod answers;
mod line;
mod printer;

pub use answers::{At, report, report_any, report_refusal};
pub use line::LogLine;
pub use printer::{put_fault, put_front, put_log, put_log_line};
