//! What a file holds, as text.
use crate::fault::RowFault;
use crate::row::NO_REQUEST;
use crate::words::{hex_bytes, put_bytes};
use std::alloc::Global;
use trace_dat::kernel_texts::{EventName, EventNames, common_fields, ring_counters};
use trace_dat::{Buffer, CpuPages, Fault, Format, ReadError, TraceDat, read_trace_dat};
use trace_model::NoMemory;

/// Puts the number of an event, and its names.
fn put_event(
    out: &mut String,
    alloc: Global,
    id: u16,
    event: EventName<'_>,
) -> Result<(), NoMemory> {
    write!(out, "\n  event {id} ")?;
    put_bytes(out, alloc, event.system)?;
    out.push(' ')?;
    put_bytes(out, alloc, event.name)
}

/// Puts a format.
fn put_format(out: &mut String, alloc: Global, format: &Format<'_>) -> Result<(), NoMemory> {
    out.push_str("\n  format ")?;
    put_bytes(out, alloc, format.system)?;
    out.push(' ')?;
    put_bytes(out, alloc, format.text)
}

/// Puts the formats, and which events they describe.
fn put_formats(out: &mut String, alloc: Global, formats: &[Format<'_>]) -> Result<(), NoMemory> {
    for format in formats {
        put_format(out, alloc, format)?;
    }
    let mut names = EventNames::new(alloc);
    names.add(formats)?;
    for id in 0..=u16::MAX {
        if let Some(event) = names.event(id) {
            put_event(out, alloc, id, event)?;
        }
    }
    Ok(())
}

/// Puts a fault, and where it is.
fn put_fault(out: &mut String, fault: Fault) -> Result<(), NoMemory> {
    let Fault { cause, at } = fault;
    write!(out, "fault {cause:?} {at}")?;
    Ok(())
}

/// Puts the pages of a CPU, and their fault if the file ends before they do.
fn put_pages(out: &mut String, alloc: Global, pages: &CpuPages<'_>) -> Result<(), NoMemory> {
    write!(out, "\n  pages {} ", pages.cpu)?;
    put_bytes(out, alloc, pages.pages)?;
    if let Some(fault) = pages.fault {
        out.push(' ')?;
        put_fault(out, fault)?;
    }
    Ok(())
}

/// Puts a buffer, and the pages of each CPU.
fn put_buffer(out: &mut String, alloc: Global, buffer: &Buffer<'_>) -> Result<(), NoMemory> {
    out.push_str("\n  buffer ")?;
    put_bytes(out, alloc, buffer.name)?;
    write!(out, " {}", buffer.page_size)?;
    for cpu in &buffer.cpus {
        put_pages(out, alloc, cpu)?;
    }
    Ok(())
}

/// Puts the counters of a ring, and what is read of them.
fn put_counters(out: &mut String, alloc: Global, text: &[u8]) -> Result<(), NoMemory> {
    out.push_str("\n  counters ")?;
    put_bytes(out, alloc, text)?;
    match ring_counters(text) {
        Some(counters) => write!(out, " {} {}", counters.cpu, counters.overrun)?,
        None => out.push_str(" none")?,
    }
    Ok(())
}

/// Puts what a file holds.
fn put_contents(out: &mut String, alloc: Global, contents: &TraceDat<'_>) -> Result<(), NoMemory> {
    put_formats(out, alloc, &contents.formats)?;
    for buffer in &contents.buffers {
        put_buffer(out, alloc, buffer)?;
    }
    for text in &contents.counters {
        put_counters(out, alloc, text)?;
    }
    Ok(())
}

/// Puts what a file holds, or its first fault.
fn put_file(out: &mut String, alloc: Global, file: &[u8]) -> Result<(), NoMemory> {
    match read_trace_dat(alloc, file) {
        Ok(contents) => put_contents(out, alloc, &contents),
        Err(ReadError::Fault(fault)) => {
            out.push_str("\n  ")?;
            put_fault(out, fault)
        }
        Err(ReadError::NoMemory) => Err(NoMemory),
    }
}

/// Puts the fields that a record of these bytes begins with.
fn put_fields(out: &mut String, payload: &[u8]) -> Result<(), NoMemory> {
    match common_fields(payload) {
        Some(fields) => write!(out, "\n  event {} pid {}", fields.event, fields.pid)?,
        None => out.push_str("\n  none")?,
    }
    Ok(())
}

/// A row of files, none of which is kept.
#[derive(Drop)]
pub struct FileRow;

impl FileRow {
    /// The row that a line begins, if it is one of files.
    pub fn begin(line: &str) -> Option<FileRow> {
        line.ends_with("] files").then_some(FileRow)
    }

    /// Puts what is answered to the line of this number, after what it asks.
    pub fn put_answer(
        &mut self,
        out: &mut String,
        alloc: Global,
        number: u64,
        asked: &str,
    ) -> Result<(), RowFault> {
        let (kind, digits) = asked.split_once(' ').unwrap_or((asked, ""));
        match (kind, hex_bytes(alloc, digits)?) {
            ("file", Some(bytes)) => put_file(out, alloc, &bytes)?,
            ("record", Some(bytes)) => put_fields(out, &bytes)?,
            _ => return Err(RowFault::Line(number, NO_REQUEST)),
        }
        Ok(())
    }
}
