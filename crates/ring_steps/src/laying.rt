//! The words and slots of a new ring.
ghost use Rattle.std.specs.Prelude.{◌%◌, ◌<◌, IfOk, Some, None};
ghost use Rattle.ring_steps.specs.NewRings.{IsShape, IsFirstLinkWord, AreFirstWords, IsFirstSlot, AreFirstSlots};

use crate::rule::Shape;
use crate::words::Word;
use link_marks::first_link;
use page_image::{Body, Page};
use std::alloc::Global;
use trace_model::{FillNo, NoMemory, RecordNo};

/// The words of a new ring: how many fills are begun and closed, the reader's wish, and a link for each page.
pub(crate) fn first_words(alloc: Global, shape: Shape) -> Result<Vec<u64>, NoMemory>
    requires { IsShape shape }
    ensures { IfOk result (λ words. AreFirstWords shape shape.pages words.items) }
{
    let mut words = vec![in alloc; 0; Word::count(shape.pages)]?;
    words[Word::Opened.place()] = shape.start + 1;
    words[Word::Done.place()] = shape.start;
    for page in 0..shape.pages as u16 {
        words[Word::Link(page).place()] = first_link_word(page, shape);
    }
    Ok(words)
}

/// The link of a page of a new ring, into the position after its own.
fn first_link_word(page: u16, shape: Shape) -> u64
    requires shape { IsShape shape }
    requires page { page < shape.pages }
    ensures { IsFirstLinkWord shape page result }
{
    let pages = shape.pages as u64;
    let behind = (page as u64 + 1) % pages;
    first_link(behind as u16, pages, shape.start).pack()
}

/// The slots of a new ring: an empty page for each position but that of the first fill, and none for the spare.
pub(crate) fn first_slots(alloc: Global, shape: Shape) -> Result<Vec<Option<Page>>, NoMemory>
    requires { IsShape shape }
    ensures { IfOk result (λ slots. AreFirstSlots shape slots.items) }
{
    let mut slots = Vec::with_capacity(alloc, shape.pages + 1)?;
    for page in 0..shape.pages {
        slots.push_reserved(first_slot(alloc, page, shape)?);
    }
    slots.push_reserved(None);
    Ok(slots)
}

/// What is in a slot at first, but the spare's.
fn first_slot(alloc: Global, page: usize, shape: Shape) -> Result<Option<Page>, NoMemory>
    requires shape { IsShape shape }
    requires page { page < shape.pages }
    ensures { IfOk result (λ slot. IsFirstSlot shape page slot) }
{
    if page as u64 == shape.start % shape.pages as u64 {
        return Ok(None);
    }
    let body = Body::new(alloc, shape.size)?;
    Ok(Some(Page::fresh(body, RecordNo(0), FillNo(0))))
}
