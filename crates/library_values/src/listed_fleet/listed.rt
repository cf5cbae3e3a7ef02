//! The listing, as a copy.
ghost use Rattle.std.specs.Prelude.{◌≡◌, map, IfOk};
ghost use Rattle.fleet_collector.specs.Listing.{IsFleetListing, IsListingBefore};
ghost use Rattle.library_values.specs.FleetLines.{kept_line, lines_of};

use crate::buffer::{Put, put_front};
use crate::own_lines::OwnLines;
use fleet_collector::{Fleet, FleetLine};
use parcel_streams::StreamId;
use std::alloc::Global;
use trace_model::{CpuId, Moment, NoMemory, RecordNo};

/// What a line of a fleet is besides its bytes.
#[derive(Clone, Copy)]
pub struct LineHead {
    moment: Moment,
    stream: StreamId,
    cpu: CpuId,
    number: RecordNo,
}

/// A copy of the fleet's listing.
fn copied_listing(alloc: Global, fleet: &Fleet) -> Result<OwnLines<LineHead>, NoMemory>
    ensures { IfOk result (λ copies. IsFleetListing fleet.now (lines_of copies)) }
{
    let lines = fleet.listing(alloc)?;
    copied(alloc, &lines)
}

/// A copy of the listing of what is before a moment.
fn copied_listing_before(
    alloc: Global,
    fleet: &Fleet,
    moment: Moment,
) -> Result<OwnLines<LineHead>, NoMemory>
    ensures { IfOk result (λ copies. IsListingBefore fleet.now moment.0 (lines_of copies)) }
{
    let lines = fleet.lines_before(alloc, moment)?;
    copied(alloc, &lines)
}

/// A copy of each of these lines. Memory is taken twice, however many there are.
fn copied(alloc: Global, lines: &[FleetLine<'_>]) -> Result<OwnLines<LineHead>, NoMemory>
    ensures { IfOk result (λ copies. copies ≡ map kept_line lines.now) }
{
    let mut copies = OwnLines::with_room(alloc, lines.len(), byte_count(lines))?;
    for line in lines {
        let head = LineHead {
            moment: line.moment,
            stream: line.stream,
            cpu: line.cpu,
            number: line.number,
        };
        copies.push(head, line.bytes)?;
    }
    Ok(copies)
}

/// How many bytes the lines have in all.
fn byte_count(lines: &[FleetLine<'_>]) -> usize {
    let mut count = 0usize;
    for line in lines {
        count = count.saturating_add(line.bytes.len());
    }
    count
}

/// The numbers of a line that is listed, and how many bytes it has.
#[derive(Clone, Copy, Debug, PartialEq, Eq)]
pub struct LineNumbers {
    /// The moment of the line's record.
    pub moment: Moment,
    /// The stream that has it.
    pub stream: StreamId,
    /// The CPU of that stream that made it.
    pub cpu: CpuId,
    /// Its number among the records of that CPU.
    pub number: RecordNo,
    /// How many bytes its payload has, up to the end of its last word.
    pub len: usize,
}

/// What is given of a listing.
#[derive(Clone, Copy, Debug, PartialEq, Eq)]
pub enum Given {
    /// The next line, whose bytes are put.
    Line(LineNumbers),
    /// The buffer is shorter than the next line's bytes. No line is given.
    NoRoom(LineNumbers),
    /// All lines were given.
    End,
}

/// A fleet, and the listing that was made of it last, whose lines are given one after the other.
#[derive(Drop)]
pub struct ListedFleet {
    /// The fleet.
    pub fleet: Fleet,
    /// The listing; no line, before one was made.
    pub lines: OwnLines<LineHead>,
    /// How many of its lines were given.
    pub given: usize,
}

impl ListedFleet {
    ghost use Rattle.std.specs.Prelude.{◌≡◌, [], length, IfOk, OnOk, OnErr};
    ghost use Rattle.fleet_collector.specs.Listing.{IsFleetListing, IsListingBefore};
    ghost use Rattle.library_values.specs.FleetGiving.{GivesSo};
    ghost use Rattle.library_values.specs.FleetLines.{lines_of};

    /// A fleet of which no stream is there, and no listing. No memory is taken.
    pub fn new(alloc: Global) -> ListedFleet
        ensures fleet { result.fleet ≡ [] }
        ensures lines { result.lines ≡ [] }
        ensures given { result.given ≡ 0 }
    {
        ListedFleet {
            fleet: Fleet::new(alloc),
            lines: OwnLines::new(alloc),
            given: 0,
        }
    }

    /// Lists what the fleet has now: the lines are given from the first on. The answer is how many there are. If memory
    /// is refused, nothing has changed.
    pub fn list(&mut self, alloc: Global) -> Result<usize, NoMemory>
        ensures listing { OnOk result (IsFleetListing self.old.fleet (lines_of self.new.lines)) }
        ensures count { IfOk result (λ count. count ≡ length self.new.lines) }
        ensures first { OnOk result (self.new.given ≡ 0) }
        ensures fleet { self.new.fleet ≡ self.old.fleet }
        ensures refused { OnErr result (self.new ≡ self.old) }
    {
        let lines = copied_listing(alloc, &self.fleet)?;
        let count = lines.len();
        self.lines = lines;
        self.given = 0;
        Ok(count)
    }

    /// Lists the records that are before the cuts of the CPUs at a moment. The answer is how many lines there are.
    pub fn list_before(&mut self, alloc: Global, moment: Moment) -> Result<usize, NoMemory>
        ensures listing { OnOk result (IsListingBefore self.old.fleet moment.0 (lines_of self.new.lines)) }
        ensures count { IfOk result (λ count. count ≡ length self.new.lines) }
        ensures first { OnOk result (self.new.given ≡ 0) }
        ensures fleet { self.new.fleet ≡ self.old.fleet }
        ensures refused { OnErr result (self.new ≡ self.old) }
    {
        let lines = copied_listing_before(alloc, &self.fleet, moment)?;
        let count = lines.len();
        self.lines = lines;
        self.given = 0;
        Ok(count)
    }

    /// Puts the bytes of the next line to the front of `out`.
    pub fn give(&mut self, out: &mut [u8]) -> Given
        ensures { GivesSo self.old out.old result out.new self.new }
    {
        let Some((head, bytes)) = self.lines.get(self.given) else {
            return Given::End;
        };
        let numbers = LineNumbers {
            moment: head.moment,
            stream: head.stream,
            cpu: head.cpu,
            number: head.number,
            len: bytes.len(),
        };
        match put_front(out, bytes) {
            Put::NoRoom(_) => Given::NoRoom(numbers),
            Put::Done(_) => {
                self.given += 1;
                Given::Line(numbers)
            }
        }
    }
}
