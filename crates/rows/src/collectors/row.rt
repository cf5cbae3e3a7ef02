//! A row of collectors, line by line.
use crate::collectors::answer::put_answer;
use crate::collectors::calls::{Answer, Collectors, Refusal};
use crate::collectors::request::Request;
use crate::fault::RowFault;
use crate::row::NO_REQUEST;
use std::alloc::Global;
use trace_model::NoMemory;

/// The most collectors of a row.
const MOST: usize = 16;

/// Why a line isn't answered that asks a collector that the row has not, or merges one into itself.
const NO_COLLECTOR: &str = "there is no such collector, or it is merged into itself";

/// The number of collectors of the row that this line begins: `[NAME] collectors N`.
fn count_of(line: &str) -> Option<usize> {
    let (_, count) = line.split_once("] collectors ")?;
    count.parse().ok().filter(|count| *count <= MOST)
}

/// Puts an answer, or why there is none.
fn put(out: &mut String, alloc: Global, answer: &Result<Answer, Refusal>) -> Result<(), NoMemory> {
    match answer {
        Ok(answer) => put_answer(out, alloc, answer),
        Err(refusal) => Ok(write!(out, "{refusal}")?),
    }
}

/// Puts what is answered to a request that was refused memory: what the collectors are like then, and what it is
/// answered when it is carried out once more.
fn put_again(
    out: &mut String,
    alloc: Global,
    row: &mut Collectors,
    request: &Request,
) -> Result<(), NoMemory> {
    out.push_str("memory\n  ")?;
    put_answer(out, alloc, &row.show()?)?;
    out.push_str("\n  again -> ")?;
    put(out, alloc, &row.ask(request))
}

/// Puts what is answered to a request, which is on the line of this number.
fn put_asked(
    out: &mut String,
    alloc: Global,
    row: &mut Collectors,
    number: u64,
    request: &Request,
) -> Result<(), RowFault> {
    match row.ask(request) {
        Err(Refusal::NoMemory) => put_again(out, alloc, row, request)?,
        Err(Refusal::NoCollector) => return Err(RowFault::Line(number, NO_COLLECTOR)),
        answer => put(out, alloc, &answer)?,
    }
    Ok(())
}

/// A row, with its collectors.
#[derive(Drop)]
pub struct CollectorRow {
    row: Collectors,
}

impl CollectorRow {
    /// The row that a line begins, if it is one of collectors, which are empty.
    pub fn begin(alloc: Global, line: &str) -> Result<Option<CollectorRow>, NoMemory> {
        let Some(count) = count_of(line) else {
            return Ok(None);
        };
        let row = Collectors::new(alloc, count)?;
        Ok(Some(CollectorRow { row }))
    }

    /// Puts what is answered to the line of this number, after what it asks.
    pub fn put_answer(
        &mut self,
        out: &mut String,
        alloc: Global,
        number: u64,
        asked: &str,
    ) -> Result<(), RowFault> {
        let Some(request) = Request::of(alloc, asked)? else {
            return Err(RowFault::Line(number, NO_REQUEST));
        };
        out.push_str(" -> ")?;
        put_asked(out, alloc, &mut self.row, number, &request)
    }
}
