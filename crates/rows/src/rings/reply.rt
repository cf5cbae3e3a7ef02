//! What is answered, as text.
use crate::words::put_hex;
use link_marks::{Link, Mark};
use nested_writer::{Ended, WriteFault};
use page_borrow::records;
use page_image::Page;
use ring_frames::Answer;
use std::alloc::Global;
use trace_model::{LINK_FILLS, LINK_PAGES, NoMemory};

/// How many bytes of an image are on a line.
const ROW: usize = 32;

/// How many are in a group.
const WORD: usize = 4;

/// Puts bytes as runs of one value each.
fn put_runs(out: &mut String, bytes: &[u8]) -> Result<(), NoMemory> {
    let mut run = 0_u32;
    for (at, byte) in bytes.iter().enumerate() {
        run = run.wrapping_add(1);
        let next = bytes.get(at.wrapping_add(1));
        if next != Some(byte) {
            write!(out, "{byte}*{run}")?;
            out.push_str(if next.is_some() { "+" } else { "" })?;
            run = 0;
        }
    }
    Ok(())
}

/// Puts a payload: a long one as runs, and 28 bytes of one value in the form in which they are read.
fn put_payload(out: &mut String, alloc: Global, bytes: &[u8]) -> Result<(), NoMemory> {
    match bytes.first() {
        Some(value) if bytes.len() == 28 && bytes.iter().all(|byte| *byte == *value) => {
            write!(out, "A{value}")?;
        }
        _ if bytes.len() > 28 => put_runs(out, bytes)?,
        _ => put_hex(out, alloc, bytes)?,
    }
    Ok(())
}

/// Puts a line for each record of a page: its moment and its payload.
fn put_records(out: &mut String, alloc: Global, page: &Page) -> Result<(), NoMemory> {
    if page.first().0.checked_add(page.count()).is_none() {
        return Ok(());
    }
    for entry in records(page) {
        write!(out, "\n  {} ", entry.moment.0)?;
        put_payload(out, alloc, entry.bytes)?;
    }
    Ok(())
}

/// Puts what a page is.
fn put_page(out: &mut String, name: &str, page: &Page) -> Result<(), NoMemory> {
    let (fill, first, count) = (page.fill().0, page.first().0, page.count());
    write!(out, "{name} fill {fill} first {first} count {count}")?;
    Ok(())
}

/// An answer as text. A page that was taken has a line for each record.
pub fn answer_text(alloc: Global, answer: &Answer) -> Result<String, NoMemory> {
    let mut out = String::new(alloc);
    put_answer(&mut out, alloc, answer)?;
    Ok(out)
}

/// Puts the text of an answer.
fn put_answer(out: &mut String, alloc: Global, answer: &Answer) -> Result<(), NoMemory> {
    match answer {
        Answer::Pushed => out.push_str("pushed")?,
        Answer::Going => out.push_str("going")?,
        Answer::Reserved(number) => write!(out, "reserved {}", number.0)?,
        Answer::Ended(Ended::Pending) => out.push_str("pending")?,
        Answer::Ended(Ended::Full) => out.push_str("full")?,
        Answer::Gone => out.push_str("gone")?,
        Answer::Refused(fault) => write!(out, "refused {fault:?}")?,
        Answer::Looking(_) => out.push_str("looking")?,
        Answer::Empty(done, _) => write!(out, "empty {done}")?,
        Answer::Moving(fill, _) => write!(out, "moving {}", fill.0)?,
        Answer::Taken(page, missed) => {
            put_page(out, "taken", page)?;
            write!(out, " missed {missed}")?;
            put_records(out, alloc, page)?;
        }
        Answer::Wished(fill) => write!(out, "wished {}", fill.0)?,
    }
    Ok(())
}

/// A refusal as text.
pub fn refused(alloc: Global, fault: WriteFault) -> Result<String, NoMemory> {
    Ok(format!(in alloc; "refused {fault:?}")?)
}

/// What is answered if the ends can't be joined.
pub fn unsettled(alloc: Global) -> Result<String, NoMemory> {
    Ok(String::from_str(alloc, "refused")?)
}

/// The page that no take has answered, of a ring whose ends were joined.
pub fn unread_text(alloc: Global, unread: Option<&Page>) -> Result<String, NoMemory> {
    let mut out = String::new(alloc);
    match unread {
        Some(page) => {
            put_page(&mut out, "unread", page)?;
            put_records(&mut out, alloc, page)?;
        }
        None => out.push_str("nothing unread")?,
    }
    Ok(out)
}

/// The image of a page, with how many numbers are missing before it: two words of eight bytes, and a line for each 32
/// bytes of its data.
pub fn image_text(alloc: Global, kept: Option<(&Page, u64)>) -> Result<String, NoMemory> {
    let mut out = String::new(alloc);
    let Some((page, missed)) = kept else {
        out.push_str("no page")?;
        return Ok(out);
    };
    let image = page.write_image(alloc, missed)?;
    for (at, word) in image.as_slice().chunks(WORD).enumerate() {
        let place = at.saturating_mul(WORD);
        if place >= 16 && place % ROW == 16 {
            out.push_str("\n ")?;
        }
        if place >= 16 || place == 8 {
            out.push_str(" ")?;
        }
        put_hex(&mut out, alloc, word)?;
    }
    Ok(out)
}

/// The word of a link, if that fits one.
pub fn packed(alloc: Global, link: Link) -> Result<String, NoMemory> {
    if u64::from(link.page) < LINK_PAGES && link.fill < LINK_FILLS {
        return Ok(format!(in alloc; "{}", link.pack())?);
    }
    Ok(String::from_str(alloc, "none")?)
}

/// The link of a word, if it has one.
pub fn unpacked(alloc: Global, word: u64) -> Result<String, NoMemory> {
    let Some(Link { mark, page, fill }) = Link::unpack(word) else {
        return Ok(String::from_str(alloc, "none")?);
    };
    let name = match mark {
        Mark::Normal => "normal",
        Mark::Header => "header",
        Mark::Update => "update",
    };
    Ok(format!(in alloc; "{name} {page} {fill}")?)
}
