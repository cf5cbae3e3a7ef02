//! What is answered, as text.
use crate::collectors::calls::Answer;
use crate::words::put_bytes;
use collector::Added;
use page_image::{Image, Missed};
use page_numbers::Parcel;
use std::alloc::Global;
use trace_model::NoMemory;

/// Puts lines, each but the first indented by two spaces.
fn put_lines(out: &mut String, lines: &[u8]) -> Result<(), NoMemory> {
    for byte in lines.strip_suffix(b"\n".as_slice()).unwrap_or(lines) {
        out.push(char::from(*byte))?;
        if *byte == b'\n' {
            out.push_str("  ")?;
        }
    }
    Ok(())
}

/// Puts what an image states.
fn put_image(out: &mut String, image: &Image) -> Result<(), NoMemory> {
    let (time, size, count) = (image.time, image.size, image.page.count());
    write!(out, "time {time} size {size} count {count} missed ")?;
    match image.missed {
        Missed::None => out.push_str("none")?,
        Missed::Unknown => out.push_str("unknown")?,
        Missed::Count(events) => write!(out, "{events}")?,
    }
    Ok(())
}

/// Puts what a parcel states.
fn put_parcel(out: &mut String, parcel: &Parcel) -> Result<(), NoMemory> {
    let (cpu, fill, first) = (parcel.cpu().0, parcel.fill().0, parcel.first().0);
    let (count, missed) = (parcel.count(), parcel.missed());
    write!(
        out,
        "cpu {cpu} fill {fill} first {first} count {count} missed {missed}"
    )?;
    Ok(())
}

/// Puts what is answered.
pub fn put_answer(out: &mut String, alloc: Global, answer: &Answer) -> Result<(), NoMemory> {
    match answer {
        Answer::Image(image) => put_image(out, image)?,
        Answer::Parcel(parcel, None) => {
            put_parcel(out, parcel)?;
            out.push_str(" same bytes")?;
        }
        Answer::Parcel(parcel, Some(bytes)) => {
            put_parcel(out, parcel)?;
            out.push_str(" bytes ")?;
            put_bytes(out, alloc, bytes)?;
        }
        Answer::Added(Added::New) => out.push_str("new")?,
        Answer::Added(Added::Known) => out.push_str("known")?,
        Answer::Merged => out.push_str("merged")?,
        Answer::Is(true) => out.push_str("yes")?,
        Answer::Is(false) => out.push_str("no")?,
        Answer::Record(moment, payload) => {
            write!(out, "{moment} ")?;
            put_bytes(out, alloc, payload)?;
        }
        Answer::Missing => out.push_str("missing")?,
        Answer::Unknown => out.push_str("unknown")?,
        Answer::Shown(text) => put_lines(out, text)?,
    }
    Ok(())
}
