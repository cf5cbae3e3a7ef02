//! The kinds of rows.
use crate::collectors::CollectorRow;
use crate::fault::RowFault;
use crate::files::FileRow;
use crate::rings::RingRow;
use std::alloc::Global;

/// Why a line isn't answered.
pub const NO_REQUEST: &str = "neither a request nor a row that there can be";

/// What the lines of a row ask.
#[derive(Drop)]
pub enum Row {
    Rings(RingRow),
    Collectors(CollectorRow),
    Files(FileRow),
}

impl Row {
    /// The row that the line of this number begins.
    pub fn begin(alloc: Global, number: u64, line: &str) -> Result<Row, RowFault> {
        if let Some(row) = RingRow::begin(alloc, line)? {
            return Ok(Row::Rings(row));
        }
        if let Some(row) = CollectorRow::begin(alloc, line)? {
            return Ok(Row::Collectors(row));
        }
        match FileRow::begin(line) {
            Some(row) => Ok(Row::Files(row)),
            None => Err(RowFault::Line(number, NO_REQUEST)),
        }
    }

    /// Puts what is answered to the line of this number, after what it asks.
    pub fn put_answer(
        &mut self,
        out: &mut String,
        alloc: Global,
        number: u64,
        asked: &str,
    ) -> Result<(), RowFault> {
        match self {
            Row::Rings(row) => row.put_answer(out, alloc, number, asked),
            Row::Collectors(row) => row.put_answer(out, alloc, number, asked),
            Row::Files(row) => row.put_answer(out, alloc, number, asked),
        }
    }
}
