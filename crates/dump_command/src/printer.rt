//! The printing of a page image.
ghost use Rattle.std.specs.Prelude.{◌≡◌, ◌≢◌, ◌+◌, ◌^◌, ◌<◌, ◌∷◌, ◌++◌, [], OnOk, IfOk, codes, flat_map};
ghost use Rattle.std.specs.Fmt.{decimal};
ghost use Rattle.text_model.specs.Printing.{missed_text, printed_image, printed_image_record};
ghost use Rattle.page_image.specs.Contents.{IsPage, records_of_page};
ghost use Rattle.page_image.specs.Images.{missed_of};
ghost use Rattle.page_borrow.specs.Entries.{numbered_record};
ghost use Rattle.dump_command.specs.ImageFaults.{reader_fault_text, word_fault_text};

use page_borrow::{Entry, records};
use page_image::{Image, ImageFault, Missed, Page};
use record_words::WordFault;
use std::alloc::Global;
use text_values::{put_number, put_payload};
use trace_model::NoMemory;

// On an error these may leave a beginning of what they put, in a text that the caller drops.

fn put_missed(out: &mut Vec<u8>, missed: Missed) -> Result<(), NoMemory>
    ensures { OnOk result (out.new.items ≡ out.old.items ++ missed_text (missed_of missed)) }
{
    match missed {
        Missed::None => out.extend_from_slice(b"none")?,
        Missed::Unknown => out.extend_from_slice(b"unknown")?,
        Missed::Count(events) => put_number(out, events)?,
    }
    Ok(())
}

/// The line of a record as it is in its page.
fn put_entry(out: &mut Vec<u8>, entry: Entry) -> Result<(), NoMemory>
    ensures { OnOk result (out.new.items ≡ out.old.items ++ printed_image_record (numbered_record entry.entry).1) }
{
    put_number(out, entry.moment.0)?;
    out.push(b' ')?;
    put_payload(out, entry.bytes)?;
    out.push(b'\n')?;
    Ok(())
}

/// A line for each record of the page.
fn put_entries(out: &mut Vec<u8>, page: &Page) -> Result<(), NoMemory>
    requires reads { IsPage page.now }
    requires numbers { page.now.first + page.now.count < 2 ^ 64 }
    ensures { OnOk result (out.new.items
        ≡ out.old.items ++ flat_map printed_image_record (records_of_page page.now)) }
{
    for entry in records(page) {
        put_entry(out, entry)?;
    }
    Ok(())
}

/// The text of this image: its head line, and a line for each record.
pub(crate) fn print_image(alloc: Global, image: &Image) -> Result<Vec<u8>, NoMemory>
    requires reads { IsPage image.now.page }
    requires numbers { image.now.page.first + image.now.page.count < 2 ^ 64 }
    ensures { IfOk result (λ text. text.items ≡ printed_image image.now.time image.now.size
        (missed_of image.now.missed) (records_of_page image.now.page)) }
{
    let mut text = Vec::from_slice(alloc, b"page ")?;
    put_number(&mut text, image.time)?;
    text.extend_from_slice(b" size ")?;
    put_number(&mut text, image.size as u64)?;
    text.extend_from_slice(b" missed ")?;
    put_missed(&mut text, image.missed)?;
    text.push(b'\n')?;
    put_entries(&mut text, &image.page)?;
    Ok(text)
}

/// What is wrong, and the offset of the word that is wrong.
fn put_with_offset(out: &mut Vec<u8>, name: &[u8], at: usize) -> Result<(), NoMemory>
    ensures { OnOk result (out.new.items ≡ out.old.items ++ (name.now ++ codes " at " ++ decimal at)) }
{
    out.extend_from_slice(name)?;
    out.extend_from_slice(b" at ")?;
    put_number(out, at as u64)?;
    Ok(())
}

fn put_word_fault(out: &mut Vec<u8>, fault: WordFault) -> Result<(), NoMemory>
    ensures { OnOk result (out.new.items ≡ out.old.items ++ word_fault_text fault) }
{
    match fault {
        WordFault::Cut(at) => put_with_offset(out, b"Cut", at)?,
        WordFault::BadLength(at) => put_with_offset(out, b"BadLength", at)?,
        WordFault::TimeOverflow(at) => put_with_offset(out, b"TimeOverflow", at)?,
    }
    Ok(())
}

/// Puts the fault of an image. The refusal of memory is none, and gives `NoMemory`. On an error a part of that may be
/// put.
pub fn put_image_fault(out: &mut Vec<u8>, fault: ImageFault) -> Result<(), NoMemory>
    ensures text { OnOk result (out.new.items ≡ out.old.items ++ reader_fault_text fault) }
    ensures no_memory { OnOk result (fault ≢ ImageFault.NoMemory) }
{
    match fault {
        ImageFault::TooShort => out.extend_from_slice(b"TooShort")?,
        ImageFault::BadSize => out.extend_from_slice(b"BadSize")?,
        ImageFault::BadCount => out.extend_from_slice(b"BadCount")?,
        ImageFault::Word(fault) => put_word_fault(out, fault)?,
        ImageFault::NoMemory => return Err(NoMemory),
    }
    Ok(())
}

/// The line that states an image's fault. There is none for refused memory, which gives `NoMemory`.
pub(crate) fn print_image_fault(alloc: Global, fault: ImageFault) -> Result<Vec<u8>, NoMemory>
    ensures text { IfOk result (λ line.
        line.items ≡ codes "image: " ++ reader_fault_text fault ++ 10 ∷ []) }
    ensures no_memory { IfOk result (λ line. fault ≢ ImageFault.NoMemory) }
{
    let mut line = Vec::from_slice(alloc, b"image: ")?;
    put_image_fault(&mut line, fault)?;
    line.push(b'\n')?;
    Ok(line)
}
