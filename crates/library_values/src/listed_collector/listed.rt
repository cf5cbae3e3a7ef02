//! The listing, as a copy.
ghost use Rattle.std.specs.Prelude.{◌≡◌, map, IfOk};
ghost use Rattle.trace_model.specs.Listing.{IsListing};
ghost use Rattle.library_values.specs.CollectorLines.{kept_line, lines_of};

use crate::buffer::{Put, put_front};
use crate::own_lines::OwnLines;
use collector::Collector;
use std::alloc::Global;
use time_merge::{Line, listing};
use trace_model::{CpuId, Moment, NoMemory, RecordNo};

/// What a line is besides its bytes.
#[derive(Clone, Copy)]
pub struct LineHead {
    moment: Moment,
    cpu: CpuId,
    number: RecordNo,
}

/// A copy of the collector's listing.
fn copied_listing(alloc: Global, collector: &Collector) -> Result<OwnLines<LineHead>, NoMemory>
    ensures { IfOk result (λ copies. IsListing collector.now (lines_of copies)) }
{
    let lines = listing(alloc, collector)?;
    copied(alloc, &lines)
}

/// A copy of each of these lines. Memory is taken twice, however many there are.
fn copied(alloc: Global, lines: &[Line<'_>]) -> Result<OwnLines<LineHead>, NoMemory>
    ensures { IfOk result (λ copies. copies ≡ map kept_line lines.now) }
{
    let mut copies = OwnLines::with_room(alloc, lines.len(), byte_count(lines))?;
    for line in lines {
        let head = LineHead {
            moment: line.moment,
            cpu: line.cpu,
            number: line.number,
        };
        copies.push(head, line.bytes)?;
    }
    Ok(copies)
}

/// How many bytes the lines have in all.
fn byte_count(lines: &[Line<'_>]) -> usize {
    let mut count = 0usize;
    for line in lines {
        count = count.saturating_add(line.bytes.len());
    }
    count
}

/// The numbers of a line that is listed, and how many bytes it has.
#[derive(Clone, Copy, Debug, PartialEq, Eq)]
pub struct LineNumbers {
    /// The moment of the line's record.
    pub moment: Moment,
    /// The CPU of its ring.
    pub cpu: CpuId,
    /// Its number in the ring.
    pub number: RecordNo,
    /// How many bytes its payload has, up to the end of its last word.
    pub len: usize,
}

/// What is given of a listing.
#[derive(Clone, Copy, Debug, PartialEq, Eq)]
pub enum Given {
    /// The next line, whose bytes are put.
    Line(LineNumbers),
    /// The buffer is shorter than the next line's bytes. No line is given.
    NoRoom(LineNumbers),
    /// All lines were given.
    End,
}

/// A collector, and the listing that was made of it last, whose lines are given one after the other.
#[derive(Drop)]
pub struct ListedCollector {
    /// The collector.
    pub collector: Collector,
    /// The listing; no line, before one was made.
    pub lines: OwnLines<LineHead>,
    /// How many of its lines were given.
    pub given: usize,
}

impl ListedCollector {
    ghost use Rattle.std.specs.Prelude.{◌≡◌, [], length, IfOk, OnOk, OnErr};
    ghost use Rattle.trace_model.specs.Listing.{IsListing};
    ghost use Rattle.library_values.specs.CollectorGiving.{GivesSo};
    ghost use Rattle.library_values.specs.CollectorLines.{lines_of};

    /// A collector that keeps no parcel, and no listing.
    pub fn new(alloc: Global) -> ListedCollector
        ensures collector { result.collector ≡ [] }
        ensures lines { result.lines ≡ [] }
        ensures given { result.given ≡ 0 }
    {
        ListedCollector {
            collector: Collector::new(alloc),
            lines: OwnLines::new(alloc),
            given: 0,
        }
    }

    /// Lists what the collector has now: the lines are given from the first on. The answer is how many there are. If
    /// memory is refused, nothing has changed.
    pub fn list(&mut self, alloc: Global) -> Result<usize, NoMemory>
        ensures listing { OnOk result (IsListing self.old.collector (lines_of self.new.lines)) }
        ensures count { IfOk result (λ count. count ≡ length self.new.lines) }
        ensures first { OnOk result (self.new.given ≡ 0) }
        ensures collector { self.new.collector ≡ self.old.collector }
        ensures refused { OnErr result (self.new ≡ self.old) }
    {
        let lines = copied_listing(alloc, &self.collector)?;
        let count = lines.len();
        self.lines = lines;
        self.given = 0;
        Ok(count)
    }

    /// Puts the bytes of the next line to the front of `out`.
    pub fn give(&mut self, out: &mut [u8]) -> Given
        ensures { GivesSo self.old out.old result out.new self.new }
    {
        let Some((head, bytes)) = self.lines.get(self.given) else {
            return Given::End;
        };
        let numbers = LineNumbers {
            moment: head.moment,
            cpu: head.cpu,
            number: head.number,
            len: bytes.len(),
        };
        match put_front(out, bytes) {
            Put::NoRoom(_) => Given::NoRoom(numbers),
            Put::Done(_) => {
                self.given += 1;
                Given::Line(numbers)
            }
        }
    }
}
