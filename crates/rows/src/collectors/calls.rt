//! The collectors of a row, and the calls that a request makes.
use crate::collectors::captures;
use crate::collectors::request::{Numbers, Request};
use capture::ReadFault;
use collector::{AddFault, Added, Collector};
use collector_text::put_collectors;
use page_image::{Image, ImageFault, read_image};
use page_numbers::{Parcel, ParcelFault};
use std::alloc::Global;
use std::mem;
use thiserror::Error;
use trace_model::{CpuId, NoMemory, RecordNo};

/// What a call answers that does what it is asked.
#[derive(Drop)]
pub enum Answer {
    /// The page of an image.
    Image(Image),
    /// A parcel, and the bytes that are written of it if they are others than those that were read.
    Parcel(Parcel, Option<Vec<u8>>),
    /// A parcel was added.
    Added(Added),
    /// A collector was merged into another.
    Merged,
    /// Whether it is so.
    Is(bool),
    /// A record's moment and payload.
    Record(u64, Vec<u8>),
    /// A number is missing.
    Missing,
    /// Nothing is known of a number.
    Unknown,
    /// A line, and below it others: how many parcels each collector keeps, and their text; or what a capture has.
    Shown(Vec<u8>),
}

/// Why a call doesn't.
#[derive(Debug, Drop, Error)]
pub enum Refusal {
    /// The row has no such collector, or both that are named are one.
    #[error("no collector")]
    NoCollector,
    /// Memory was refused.
    #[error("memory")]
    NoMemory,
    /// The bytes are no image.
    #[error("{0:?}")]
    Image(ImageFault),
    /// The bytes are no parcel.
    #[error("{0:?}")]
    Parcel(ParcelFault),
    /// There is no such CPU, or a page would have no byte.
    #[error("no capture")]
    NoCapture,
    /// The capture can't be held.
    #[error("{0:?}")]
    Capture(ReadFault),
    /// There are two records of this CPU and number.
    #[error("Clash({0}, {1})")]
    Clash(u32, u64),
    /// This CPU's number has a record and is missing.
    #[error("TakenAndMissing({0}, {1})")]
    TakenAndMissing(u32, u64),
}

impl From<NoMemory> for Refusal {
    fn from(_: NoMemory) -> Refusal {
        Refusal::NoMemory
    }
}

impl From<ImageFault> for Refusal {
    fn from(fault: ImageFault) -> Refusal {
        match fault {
            ImageFault::NoMemory => Refusal::NoMemory,
            fault => Refusal::Image(fault),
        }
    }
}

impl From<ParcelFault> for Refusal {
    fn from(fault: ParcelFault) -> Refusal {
        match fault {
            ParcelFault::NoMemory => Refusal::NoMemory,
            fault => Refusal::Parcel(fault),
        }
    }
}

impl From<AddFault> for Refusal {
    fn from(fault: AddFault) -> Refusal {
        match fault {
            AddFault::NoMemory => Refusal::NoMemory,
            AddFault::Clash(CpuId(cpu), RecordNo(number)) => Refusal::Clash(cpu, number),
            AddFault::TakenAndMissing(CpuId(cpu), RecordNo(number)) => {
                Refusal::TakenAndMissing(cpu, number)
            }
        }
    }
}

/// A parcel that is shared, and what is written of it if that isn't this.
fn parcel(alloc: Global, first: Parcel, read: &[u8]) -> Result<Answer, NoMemory> {
    let parcel = first.share()?;
    drop(first);
    let written = parcel.to_bytes(alloc)?;
    let is_read = written.as_slice() == read;
    Ok(Answer::Parcel(parcel, if is_read { None } else { Some(written) }))
}

/// The page of an image as a parcel with these numbers.
fn parcel_of(alloc: Global, numbers: &Numbers, image: &[u8]) -> Result<Answer, Refusal> {
    let page = read_image(alloc, image)?
        .page
        .numbered(numbers.first, numbers.fill);
    let first = Parcel::of(alloc, numbers.cpu, page, numbers.missed)?;
    Ok(parcel(alloc, first, &[])?)
}

/// The collectors of a row.
#[derive(Drop)]
pub struct Collectors {
    alloc: Global,
    collectors: Vec<Collector>,
}

impl Collectors {
    /// `count` empty collectors.
    pub fn new(alloc: Global, count: usize) -> Result<Collectors, NoMemory> {
        let mut collectors = Vec::new(alloc);
        for _ in 0..count {
            collectors.push(Collector::new(alloc))?;
        }
        Ok(Collectors { alloc, collectors })
    }

    /// What a request answers.
    pub fn ask(&mut self, request: &Request) -> Result<Answer, Refusal> {
        match request {
            Request::Image(bytes) => Ok(Answer::Image(read_image(self.alloc, bytes)?)),
            Request::Of(numbers, image) => parcel_of(self.alloc, numbers, image),
            Request::Parcel(bytes) => {
                let first = Parcel::from_bytes(self.alloc, bytes)?;
                Ok(parcel(self.alloc, first, bytes)?)
            }
            Request::Capture(cpu, size, bytes) => {
                Ok(Answer::Shown(captures::read(self.alloc, *cpu, *size, bytes)?))
            }
            Request::Add(number, bytes) => self.add(*number, bytes),
            Request::Holds(number, bytes) => {
                let parcel = Parcel::from_bytes(self.alloc, bytes)?;
                Ok(Answer::Is(self.one(*number)?.holds(&parcel)))
            }
            Request::Merge(number, other) => self.merge(*number, *other),
            Request::Same(number, other) => {
                Ok(Answer::Is(self.one(*number)?.same(self.one(*other)?)))
            }
            Request::Get(number, cpu, record) => self.get(*number, *cpu, *record),
            Request::Show => Ok(self.show()?),
        }
    }

    /// The collector of this number.
    fn one(&self, number: usize) -> Result<&Collector, Refusal> {
        self.collectors.get(number).ok_or(Refusal::NoCollector)
    }

    /// What a collector has of a CPU under this number.
    fn get(&self, number: usize, cpu: CpuId, record: RecordNo) -> Result<Answer, Refusal> {
        let collector = self.one(number)?;
        let Some(entry) = collector.get(cpu, record) else {
            let is_missing = collector.is_missing(cpu, record);
            return Ok(if is_missing {
                Answer::Missing
            } else {
                Answer::Unknown
            });
        };
        let payload = Vec::from_slice(self.alloc, entry.bytes).map_err(NoMemory::from)?;
        Ok(Answer::Record(entry.moment.0, payload))
    }

    /// A line with how many parcels each collector keeps, and below it their text.
    pub fn show(&self) -> Result<Answer, NoMemory> {
        let mut kept = String::from_str(self.alloc, "keeps")?;
        for collector in &self.collectors {
            write!(kept, " {}", collector.parcels().len())?;
        }
        kept.push('\n')?;
        let mut text = kept.into_bytes();
        put_collectors(self.alloc, &mut text, &self.collectors)?;
        Ok(Answer::Shown(text))
    }

    /// Adds the parcel with these bytes.
    fn add(&mut self, number: usize, bytes: &[u8]) -> Result<Answer, Refusal> {
        let Some(collector) = self.collectors.get_mut(number) else {
            return Err(Refusal::NoCollector);
        };
        let parcel = Parcel::from_bytes(self.alloc, bytes)?;
        Ok(Answer::Added(collector.add(parcel)?))
    }

    /// Merges the other collector into the one of this number, which is taken out of the list meanwhile.
    fn merge(&mut self, number: usize, other: usize) -> Result<Answer, Refusal> {
        let Some(place) = self.collectors.get_mut(number) else {
            return Err(Refusal::NoCollector);
        };
        let mut collector = mem::replace(place, Collector::new(self.alloc));
        let merged = match self.collectors.get(other) {
            Some(found) if other != number => collector.merge(found).map_err(Refusal::from),
            _ => Err(Refusal::NoCollector),
        };
        if let Some(place) = self.collectors.get_mut(number) {
            *place = collector;
        }
        merged.map(|()| Answer::Merged)
    }
}
