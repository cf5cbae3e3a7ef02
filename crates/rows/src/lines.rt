//! The lines of standard input, each with its answer.
use crate::fault::RowFault;
use crate::row::{NO_REQUEST, Row};
use std::alloc::Global;
use std::io;
use std::process::ExitCode;

/// The exit status if the text was read to its end.
const DONE: u8 = 0;

/// The line of this number, with its answer if it asks something; nothing for a line of an answer.
fn answered(
    row: &mut Option<Row>,
    alloc: Global,
    number: u64,
    line: &str,
) -> Result<Option<String>, RowFault> {
    if line.starts_with("  ") {
        return Ok(None);
    }
    let begins = line.starts_with('[');
    if begins {
        *row = Some(Row::begin(alloc, number, line)?);
    }
    if begins || line.is_empty() || line.starts_with('#') {
        return Ok(Some(String::from_str(alloc, line)?));
    }
    let asked = match line.split_once(" -> ") {
        Some((asked, _)) => asked,
        None => line,
    };
    let Some(row) = row else {
        return Err(RowFault::Line(number, NO_REQUEST));
    };
    let mut out = String::from_str(alloc, asked)?;
    row.put_answer(&mut out, alloc, number, asked)?;
    Ok(Some(out))
}

/// Writes the line of this number with its answer.
fn answer_line<R: Print + AllocGlobal>(
    rt: &R,
    row: &mut Option<Row>,
    number: u64,
    line: io::Result<String>,
) -> Result<(), RowFault> {
    if let Some(out) = answered(row, rt.alloc(), number, line?.as_str())? {
        println!(rt; "{out}")?;
    }
    Ok(())
}

/// Answers each line of standard input.
fn answer_lines<R: Input + Print + AllocGlobal>(rt: &R) -> Result<(), RowFault> {
    let mut row = None;
    for (before, line) in rt.lines(rt.alloc()).enumerate() {
        answer_line(rt, &mut row, (before as u64).wrapping_add(1), line)?;
    }
    Ok(())
}

/// Answers the text of standard input, or says on standard error why it doesn't; and how the program ends.
pub fn answer_input<R: Input + Print + Eprint + AllocGlobal>(rt: &R) -> ExitCode {
    let Err(fault) = answer_lines(rt) else {
        return ExitCode::from(DONE);
    };
    let _ = eprintln!(rt; "rows: {fault}");
    ExitCode::from(fault.status())
}
