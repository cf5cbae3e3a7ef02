//! The lines of the text that ask something of a ring.
use crate::words::{hex_bytes, number};
use link_marks::{Link, Mark};
use std::alloc::Global;
use std::str::SplitWhitespace;
use trace_model::{LINK_FILLS, MAX_PAGES, MAX_SIZE, MIN_PAGES, MIN_SIZE, NoMemory, START_FILL};

/// What a line asks.
#[derive(Drop)]
pub enum Request {
    /// A record frame is pushed, with its moment and its payload's length in bytes.
    Push { moment: u64, len: usize },
    /// A close frame is pushed.
    PushClose,
    /// The frame on top makes one step.
    Step,
    /// The frame on top makes steps until its record is reserved or refused, or it is gone.
    Finish,
    /// The payload is put to the beginning of the slot of the frame on top, which is then ended.
    End(Vec<u8>),
    /// A record is written whole.
    Write { moment: u64, payload: Vec<u8> },
    /// The reader makes one step.
    Read,
    /// The reader makes steps until the take has an answer.
    Take,
    /// The reader wishes for the tail page.
    Wish,
    /// Both ends are joined.
    Settle,
    /// How many bytes are lent for the payload of the frame on top?
    Top,
    /// How many frames are there?
    Depth,
    /// What is the image of the page that was taken last?
    Image,
    /// Which word has this link?
    Pack(Link),
    /// Which link does this word have?
    Unpack(u64),
}

/// A ring that there can be: its pages, their data size in bytes, and its first fill.
#[derive(Clone, Copy)]
pub struct Shape {
    pub pages: usize,
    pub size: usize,
    pub start: u64,
    ghost pages_fit: { (MIN_PAGES ≤ pages) × (pages ≤ MAX_PAGES) },
    ghost size_fits: { (MIN_SIZE ≤ size) × (size ≤ MAX_SIZE) × (size % 4 ≡ 0) },
    ghost start_fits: { start + pages < LINK_FILLS },
}

/// The number after this next word.
fn named(words: &mut SplitWhitespace<'_>, name: &str) -> Option<usize> {
    if words.next()? == name {
        number(words)
    } else {
        None
    }
}

/// The mark that the next word names.
fn mark(words: &mut SplitWhitespace<'_>) -> Option<Mark> {
    match words.next()? {
        "normal" => Some(Mark::Normal),
        "header" => Some(Mark::Header),
        "update" => Some(Mark::Update),
        _ => None,
    }
}

/// `count` bytes of one value.
fn bytes_alike(alloc: Global, value: &str, count: &str) -> Result<Option<Vec<u8>>, NoMemory> {
    match (value.parse::<u8>(), count.parse::<u16>()) {
        (Ok(value), Ok(count)) => Ok(Some(vec![in alloc; value; usize::from(count)]?)),
        _ => Ok(None),
    }
}

/// A payload: hexadecimal digits, or `A7` for 28 bytes of the value 7, or `7*113` for 113 of them.
fn payload(alloc: Global, word: Option<&str>) -> Result<Option<Vec<u8>>, NoMemory> {
    let Some(text) = word else {
        return Ok(Some(Vec::new(alloc)));
    };
    if let Some(value) = text.strip_prefix('A') {
        return bytes_alike(alloc, value, "28");
    }
    if let Some((value, count)) = text.split_once('*') {
        return bytes_alike(alloc, value, count);
    }
    hex_bytes(alloc, text)
}

impl Request {
    /// The request of a line, if any.
    pub fn of(alloc: Global, line: &str) -> Result<Option<Request>, NoMemory> {
        let mut words = line.split_whitespace();
        let request = match words.next() {
            Some("end") => payload(alloc, words.next())?.map(Request::End),
            Some("write") => Request::write(alloc, &mut words)?,
            Some(name) => Request::plain(name, &mut words),
            None => None,
        };
        Ok(if words.next().is_none() {
            request
        } else {
            None
        })
    }

    /// A write of this moment and payload.
    fn write(alloc: Global, words: &mut SplitWhitespace<'_>) -> Result<Option<Request>, NoMemory> {
        let moment = number(words);
        let payload = payload(alloc, words.next())?;
        match (moment, payload) {
            (Some(moment), Some(payload)) => Ok(Some(Request::Write { moment, payload })),
            _ => Ok(None),
        }
    }

    /// A request without a payload.
    fn plain(name: &str, words: &mut SplitWhitespace<'_>) -> Option<Request> {
        let request = match name {
            "push" => Request::Push {
                moment: number(words)?,
                len: number(words)?,
            },
            "push_close" => Request::PushClose,
            "step" => Request::Step,
            "finish" => Request::Finish,
            "read" => Request::Read,
            "take" => Request::Take,
            "wish" => Request::Wish,
            "settle" => Request::Settle,
            "top" => Request::Top,
            "depth" => Request::Depth,
            "image" => Request::Image,
            "pack" => Request::Pack(Link {
                mark: mark(words)?,
                page: number(words)?,
                fill: number(words)?,
            }),
            "unpack" => Request::Unpack(number(words)?),
            _ => return None,
        };
        Some(request)
    }
}

impl Shape {
    /// The shape of the ring that a row begins with, by its line `[NAME] pages N size S`, and maybe `start F`.
    pub fn of(line: &str) -> Option<Shape> {
        let (_, rest) = line.split_once(']')?;
        let mut words = rest.split_whitespace();
        let pages = named(&mut words, "pages")?;
        let size = named(&mut words, "size")?;
        let start = match words.next() {
            None => START_FILL,
            Some("start") => number(&mut words)?,
            Some(_) => return None,
        };
        Shape::fitting(pages, size, start)
    }

    /// The shape of these numbers, if a ring can have it.
    fn fitting(pages: usize, size: usize, start: u64) -> Option<Shape> {
        let is_sized = MIN_SIZE <= size && size <= MAX_SIZE && size % 4 == 0;
        if pages < MIN_PAGES || MAX_PAGES < pages || !is_sized || LINK_FILLS <= start {
            return None;
        }
        if LINK_FILLS <= start + pages as u64 {
            return None;
        }
        Some(Shape { pages, size, start })
    }
}

ghost use Rattle.std.specs.Prelude.{◌≡◌, ◌+◌, ◌≤◌, ◌<◌, ◌%◌};
ghost use Rattle.trace_model.specs.declared.limits.TheConstants.{MIN_PAGES, MAX_PAGES, MIN_SIZE, MAX_SIZE, LINK_FILLS};
