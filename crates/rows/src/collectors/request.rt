//! The lines of the text that ask something.
use crate::words::{hex_bytes, number};
use std::alloc::Global;
use std::str::SplitWhitespace;
use trace_model::{CpuId, FillNo, NoMemory, RecordNo};

/// The numbers of a page that is to be a parcel.
#[derive(Clone, Copy)]
pub struct Numbers {
    pub cpu: CpuId,
    pub fill: FillNo,
    pub first: RecordNo,
    pub missed: u64,
}

/// What a line asks. A collector of the row is named by its number, from 0.
#[derive(Drop)]
pub enum Request {
    /// Which page has this image?
    Image(Vec<u8>),
    /// Which parcel is the page of this image, under these numbers?
    Of(Numbers, Vec<u8>),
    /// Which parcel has these bytes, and which bytes are written of it?
    Parcel(Vec<u8>),
    /// Which pages, of this many bytes each, has this capture of a CPU?
    Capture(CpuId, usize, Vec<u8>),
    /// The parcel with these bytes is added to a collector.
    Add(usize, Vec<u8>),
    /// Has a collector all that the parcel with these bytes has and misses?
    Holds(usize, Vec<u8>),
    /// The second collector is merged into the first.
    Merge(usize, usize),
    /// Have both collectors the same records and missing numbers?
    Same(usize, usize),
    /// Has a collector a record of this CPU under this number, or misses it?
    Get(usize, CpuId, RecordNo),
    /// How many parcels does each collector keep, and what is its text?
    Show,
}

/// The next word, as the number of a CPU.
fn cpu(words: &mut SplitWhitespace<'_>) -> Option<CpuId> {
    Some(CpuId(number(words)?))
}

/// The next words, as the numbers of a page.
fn numbers_in(words: &mut SplitWhitespace<'_>) -> Option<Numbers> {
    Some(Numbers {
        cpu: cpu(words)?,
        fill: FillNo(number(words)?),
        first: RecordNo(number(words)?),
        missed: number(words)?,
    })
}

/// The words that are left, each as hexadecimal digits.
fn bytes(alloc: Global, words: SplitWhitespace<'_>) -> Result<Option<Vec<u8>>, NoMemory> {
    let mut bytes = Vec::new(alloc);
    for word in words {
        let Some(part) = hex_bytes(alloc, word)? else {
            return Ok(None);
        };
        bytes.extend_from_slice(&part)?;
    }
    Ok(Some(bytes))
}

impl Request {
    /// The request of a line, if any.
    pub fn of(alloc: Global, line: &str) -> Result<Option<Request>, NoMemory> {
        let mut words = line.split_whitespace();
        match words.next() {
            Some("image") => Ok(bytes(alloc, words)?.map(Request::Image)),
            Some("parcel") => Ok(bytes(alloc, words)?.map(Request::Parcel)),
            Some("of") => Request::of_page(alloc, words),
            Some("capture") => Request::of_capture(alloc, words),
            Some("add") => Request::of_parcel(alloc, true, words),
            Some("holds") => Request::of_parcel(alloc, false, words),
            Some(name) => Ok(Request::of_collectors(name, words)),
            None => Ok(None),
        }
    }

    /// A request of a page with its numbers.
    fn of_page(alloc: Global, mut words: SplitWhitespace<'_>) -> Result<Option<Request>, NoMemory> {
        let numbers = numbers_in(&mut words);
        let image = bytes(alloc, words)?;
        Ok(match (numbers, image) {
            (Some(numbers), Some(image)) => Some(Request::Of(numbers, image)),
            _ => None,
        })
    }

    /// A request of a capture.
    fn of_capture(
        alloc: Global,
        mut words: SplitWhitespace<'_>,
    ) -> Result<Option<Request>, NoMemory> {
        let cpu = cpu(&mut words);
        let size = number(&mut words);
        let bytes = bytes(alloc, words)?;
        Ok(match (cpu, size, bytes) {
            (Some(cpu), Some(size), Some(bytes)) => Some(Request::Capture(cpu, size, bytes)),
            _ => None,
        })
    }

    /// A request of a collector and a parcel, which is added or asked for.
    fn of_parcel(
        alloc: Global,
        adds: bool,
        mut words: SplitWhitespace<'_>,
    ) -> Result<Option<Request>, NoMemory> {
        let collector = number(&mut words);
        let bytes = bytes(alloc, words)?;
        Ok(match (collector, bytes) {
            (Some(collector), Some(bytes)) if adds => Some(Request::Add(collector, bytes)),
            (Some(collector), Some(bytes)) => Some(Request::Holds(collector, bytes)),
            _ => None,
        })
    }

    /// A request of collectors alone.
    fn of_collectors(name: &str, mut words: SplitWhitespace<'_>) -> Option<Request> {
        let request = match name {
            "merge" => Request::Merge(number(&mut words)?, number(&mut words)?),
            "same" => Request::Same(number(&mut words)?, number(&mut words)?),
            "get" => Request::Get(
                number(&mut words)?,
                cpu(&mut words)?,
                RecordNo(number(&mut words)?),
            ),
            "show" => Request::Show,
            _ => return None,
        };
        if words.next().is_none() {
            Some(request)
        } else {
            None
        }
    }
}
