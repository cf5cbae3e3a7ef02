//! A row of rings, line by line.
use crate::fault::RowFault;
use crate::rings::ends::Ends;
use crate::rings::reply::{answer_text, packed, unpacked};
use crate::rings::request::{Request, Shape};
use crate::rings::ring::{answer, kept_text};
use crate::rings::value::Value;
use crate::row::NO_REQUEST;
use ring_frames::Answer;
use std::alloc::Global;
use trace_model::NoMemory;

/// Why a line isn't answered that asks a ring whose ends were joined.
const NO_RING: &str = "there is no ring to ask";

/// The two rings that a row asks.
#[derive(Drop)]
struct Rings {
    value: Value,
    ends: Ends,
}

/// A row, with its rings until their ends are joined.
#[derive(Drop)]
pub struct RingRow {
    rings: Option<Rings>,
}

/// The answer of both rings, or each one's if they differ.
fn agreed(alloc: Global, value: String, ends: String) -> Result<String, NoMemory> {
    if value == ends {
        return Ok(value);
    }
    Ok(format!(in alloc; "{value}\n  but the running ring: {ends}")?)
}

impl Rings {
    /// New rings of this shape.
    fn new(alloc: Global, shape: Shape) -> Result<Rings, NoMemory> {
        let value = Value::new(alloc, shape)?;
        let ends = Ends::new(alloc, shape)?;
        Ok(Rings { value, ends })
    }

    /// A step of the reader. The running ring has no single ones: it makes the whole take with the step that ends one.
    fn read(&mut self, alloc: Global) -> Result<String, NoMemory> {
        let step = self.value.read(alloc)?;
        if matches!(&step, Answer::Looking(_)) {
            return answer_text(alloc, &step);
        }
        let value = kept_text(&mut self.value, alloc, step)?;
        let ends = answer(&mut self.ends, alloc, &Request::Take)?;
        agreed(alloc, value, ends)
    }

    /// What both answer to a request.
    fn answer(&mut self, alloc: Global, request: &Request) -> Result<String, NoMemory> {
        if matches!(request, Request::Read) {
            return self.read(alloc);
        }
        let value = answer(&mut self.value, alloc, request)?;
        let ends = answer(&mut self.ends, alloc, request)?;
        agreed(alloc, value, ends)
    }

    /// What is unread of both at the end.
    fn settled(self, alloc: Global) -> Result<String, NoMemory> {
        let Rings { value, ends } = self;
        let value = value.settled(alloc);
        let ends = ends.settled(alloc);
        agreed(alloc, value?, ends?)
    }
}

impl RingRow {
    /// The row that a line begins, if it is one of rings.
    pub fn begin(alloc: Global, line: &str) -> Result<Option<RingRow>, NoMemory> {
        let Some(shape) = Shape::of(line) else {
            return Ok(None);
        };
        let rings = Some(Rings::new(alloc, shape)?);
        Ok(Some(RingRow { rings }))
    }

    /// What is answered to a request.
    fn answer(&mut self, alloc: Global, number: u64, request: Request) -> Result<String, RowFault> {
        match request {
            Request::Pack(link) => Ok(packed(alloc, link)?),
            Request::Unpack(word) => Ok(unpacked(alloc, word)?),
            Request::Settle => match self.rings.take() {
                Some(rings) => Ok(rings.settled(alloc)?),
                None => Err(RowFault::Line(number, NO_RING)),
            },
            request => match &mut self.rings {
                Some(rings) => Ok(rings.answer(alloc, &request)?),
                None => Err(RowFault::Line(number, NO_RING)),
            },
        }
    }

    /// Puts what is answered to the line of this number, after what it asks.
    pub fn put_answer(
        &mut self,
        out: &mut String,
        alloc: Global,
        number: u64,
        asked: &str,
    ) -> Result<(), RowFault> {
        let Some(request) = Request::of(alloc, asked)? else {
            return Err(RowFault::Line(number, NO_REQUEST));
        };
        let answer = self.answer(alloc, number, request)?;
        write!(out, " -> {answer}")?;
        Ok(())
    }
}
