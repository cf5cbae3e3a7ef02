//! What is read of a capture, as text.
use crate::collectors::calls::Refusal;
use capture::{Capture, CaptureFault, Part, ReadFault, read_capture};
use capture_text::{Form, Naming, Printer, Selection, Window};
use command_io::Std;
use page_numbers::Parcel;
use std::alloc::Global;
use text_values::{Out, TextBuffer};
use trace_model::{CpuId, MAX_CPUS, NoMemory};

impl From<ReadFault> for Refusal {
    fn from(fault: ReadFault) -> Refusal {
        match fault {
            ReadFault::Capture(CaptureFault::NoMemory) => Refusal::NoMemory,
            fault => Refusal::Capture(fault),
        }
    }
}

/// Puts a line with what a parcel states, and the moments of its records.
fn put_parcel(out: &mut String, parcel: &Parcel) -> Result<(), NoMemory> {
    let (fill, first, missed) = (parcel.fill().0, parcel.first().0, parcel.missed());
    write!(out, "fill {fill} first {first} missed {missed} moments")?;
    for entry in parcel.records() {
        write!(out, " {}", entry.moment.0)?;
    }
    out.push('\n')?;
    Ok(())
}

/// Puts the lines of losses of unknown number and of damaged pages. A write to memory fails only if that is refused.
fn put_lost(
    alloc: Global,
    out: &mut Vec<u8>,
    capture: &Capture,
    part: Part,
) -> Result<(), NoMemory> {
    let mut buffer = TextBuffer::new(alloc)?;
    let mut writer = Std::new(out);
    let mut lost = Out::new(&mut buffer, &mut writer);
    let printer = Printer {
        form: Form::Text,
        naming: Naming::Payload,
        selection: Selection::all(),
        cut: 0,
        window: Window::new(),
    };
    printer.put_unknown(&mut lost, capture);
    printer.put_damaged(&mut lost, capture, &[part]);
    match lost.finish() {
        Ok(()) => Ok(()),
        Err(_) => Err(NoMemory),
    }
}

/// What was read of a capture, whose pages are those of this part.
fn text_of(alloc: Global, capture: &Capture, part: Part) -> Result<Vec<u8>, NoMemory> {
    let (pages, next) = (capture.pages, capture.next.0);
    let mut out = format!(in alloc; "pages {pages} next {next}\n")?;
    for parcel in &capture.parcels {
        put_parcel(&mut out, parcel)?;
    }
    let mut text = out.into_bytes();
    put_lost(alloc, &mut text, capture, part)?;
    Ok(text)
}

/// The text of what is read of this capture of a CPU, whose pages have this many bytes.
pub fn read(alloc: Global, cpu: CpuId, size: usize, bytes: &[u8]) -> Result<Vec<u8>, Refusal> {
    if size == 0 || cpu.0 >= MAX_CPUS {
        return Err(Refusal::NoCapture);
    }
    let capture = read_capture(alloc, cpu, size, &mut Std::new(bytes))?;
    let part = Part {
        size: size as u64,
        length: bytes.len() as u64,
    };
    Ok(text_of(alloc, &capture, part)?)
}
