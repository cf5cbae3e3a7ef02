//! Page images, read.
//!
//! An image is a page as the kernel gives it to its readers: a header of 16 bytes and the data after it, specified in
//! `docs/formats/pages.md`, "Page image".
ghost use Rattle.std.specs.Prelude.{◌≡◌, ◌≢◌, ℕ, ◌*◌, ◌≤◌, ◌↔◌, IfOk, IfErr, length};
ghost use Rattle.trace_model.specs.Faults.{Cause};
ghost use Rattle.trace_model.specs.Image.{DecodesImage, FirstImageFault, too_short, bad_size, bad_count, bad_word};
ghost use Rattle.page_image.specs.Contents.{IsPage, records_of_page};
ghost use Rattle.page_image.specs.Images.{missed_of, page_in, word_fault, IsReadable, IsImageFault, IsOutlined};
ghost use Rattle.page_image.specs.declared.image.ImageFault.TheVariants.{Word as WordIs, NoMemory as MemoryIs};

mod header;

use crate::body::Body;
use crate::count::count_records;
use crate::page::Page;
pub(crate) use header::{Commit, HEADER};
pub use header::{commit_number, number_at, stores_count};
use header::{read_header, read_missed};
use record_words::WordFault;
use std::alloc::Global;
use trace_model::NoMemory;

/// What an image states of records that were missed before its page.
#[derive(Clone, Copy, Debug, PartialEq, Eq)]
pub enum Missed {
    /// None were.
    None,
    /// Some were, and the number isn't stated.
    Unknown,
    /// This many were.
    Count(u64),
}

/// A page image, read.
#[derive(Debug, Drop)]
pub struct Image {
    /// The time of the page.
    pub time: u64,
    /// How many bytes of data there are, as commit states it. (The page's own size is that of all bytes after the
    /// header.)
    pub size: usize,
    /// The records that were missed before the page.
    pub missed: Missed,
    /// The page itself, with 0 as its first number and its fill.
    pub page: Page,
}

/// Why an image can't be read.
#[derive(Clone, Copy, Debug, PartialEq, Eq)]
pub enum ImageFault {
    /// There are fewer bytes than a header has.
    TooShort,
    /// The size that is stated is above the number of bytes after the header, or the image is too long.
    BadSize,
    /// A count of missed records is stated, and there are no eight bytes for it after the data.
    BadCount,
    /// The first fault of the data. Its offset counts from the end of the header.
    Word(WordFault),
    /// Memory was refused. The image has a reading.
    NoMemory,
}

impl From<WordFault> for ImageFault {
    ghost from_gives = { λ f e. e ≡ WordIs f };

    fn from(fault: WordFault) -> ImageFault {
        ImageFault::Word(fault)
    }
}

impl From<NoMemory> for ImageFault {
    ghost from_gives = { λ f e. e ≡ MemoryIs };

    fn from(_refused: NoMemory) -> ImageFault {
        ImageFault::NoMemory
    }
}

/// What an image says, its bytes not copied.
#[derive(Clone, Copy, Debug)]
pub struct Outline {
    /// The time of the page.
    pub time: u64,
    /// How many bytes of data there are, as commit states it.
    pub size: usize,
    /// The records that were missed before the page.
    pub missed: Missed,
    /// How many records there are.
    pub count: u64,
}

/// Reads all of a page image of at most `MAX_IMAGE` bytes in one pass, and takes no memory. The faults are looked for
/// in the order of [`ImageFault`].
pub fn read_outline(bytes: &[u8]) -> Result<Outline, ImageFault>
    ensures reads { IfOk result (λ outline. IsOutlined bytes.now outline) }
    ensures fault { IfErr result (λ f. IsImageFault bytes.now f) }
    ensures no_memory { IfErr result (λ f. f ≢ ImageFault.NoMemory) }
{
    let header = read_header(bytes)?;
    let (data, behind) = bytes[HEADER..].split_at(header.commit.size);
    let missed = read_missed(header.commit, behind)?;
    let count = count_records(data, header.time)?;
    Ok(Outline {
        time: header.time,
        size: header.commit.size,
        missed,
        count,
    })
}

impl Outline {
    ghost use Rattle.std.specs.Prelude.{◌≡◌, ◌*◌, ◌≤◌, IfOk, length};
    ghost use Rattle.page_image.specs.Contents.{IsPage};
    ghost use Rattle.page_image.specs.Images.{page_in, IsOutlined};

    /// The page of the image that has this outline, with 0 as its first number and its fill. Its body is a copy of the
    /// bytes after the header.
    pub fn page(self, alloc: Global, bytes: &[u8]) -> Result<Page, NoMemory>
        requires outline { IsOutlined bytes.now self }
        ensures page { IfOk result (λ page. IsPage page) }
        ensures contents { IfOk result (λ page. page ≡ page_in bytes.now self.time self.size) }
    {
        let body = Body::of(alloc, &bytes[HEADER..])?;
        Ok(Page::of_body(body, self.time, self.size, self.count))
    }
}

/// `read_image`, with one clause for all faults.
fn read(alloc: Global, bytes: &[u8]) -> Result<Image, ImageFault>
    ensures reads { IfOk result (λ image. DecodesImage bytes.now image.time image.size
        (missed_of image.missed) (records_of_page image.page)) }
    ensures page { IfOk result (λ image. IsPage image.page) }
    ensures contents { IfOk result (λ image. image.page ≡ page_in bytes.now image.time image.size) }
    ensures few { IfOk result (λ image. 4 * image.page.count ≤ length bytes.now) }
    ensures fault { IfErr result (λ f. IsImageFault bytes.now f) }
{
    let outline = read_outline(bytes)?;
    Ok(Image {
        time: outline.time,
        size: outline.size,
        missed: outline.missed,
        page: outline.page(alloc, bytes)?,
    })
}

/// Reads a page image of at most `MAX_IMAGE` bytes. The faults are looked for in the order of
/// [`ImageFault`], and memory is asked for once, if the image has a reading.
///
/// The page has as its size the number of bytes after the header. Bytes after the data and the count of missed records
/// are kept in its body and mean nothing.
pub fn read_image(alloc: Global, bytes: &[u8]) -> Result<Image, ImageFault>
    ensures reads { IfOk result (λ image. DecodesImage bytes.now image.time image.size
        (missed_of image.missed) (records_of_page image.page)) }
    ensures page { IfOk result (λ image. IsPage image.page) }
    ensures contents { IfOk result (λ image. image.page ≡ page_in bytes.now image.time image.size) }
    ensures few { IfOk result (λ image. 4 * image.page.count ≤ length bytes.now) }

    ensures is_too_short { (result ≡ Err ImageFault.TooShort) ↔ FirstImageFault bytes.now too_short }
    ensures has_bad_size { (result ≡ Err ImageFault.BadSize) ↔ FirstImageFault bytes.now bad_size }
    ensures has_bad_count { (result ≡ Err ImageFault.BadCount) ↔ FirstImageFault bytes.now bad_count }
    ensures has_bad_word { (cause : Cause) (at : ℕ)
        → (result ≡ Err (ImageFault.Word (word_fault cause at)))
        ↔ FirstImageFault bytes.now (bad_word cause at) }
    ensures no_memory { result ≡ Err ImageFault.NoMemory → IsReadable bytes.now }
{
    read(alloc, bytes)
}
