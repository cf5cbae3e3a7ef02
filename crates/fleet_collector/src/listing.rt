//! The listing of a fleet.
ghost use Rattle.std.specs.Prelude.{◌≡◌, ◌++◌, ℕ, List, map, IfOk, OnOk};
ghost use Rattle.trace_model.specs.Record.{Record};
ghost use Rattle.page_borrow.specs.Entries.{numbered_record};
ghost use Rattle.collector.specs.Listed.{AreListed};
ghost use Rattle.stream_collector.specs.Stream.{HasRecord};
ghost use Rattle.fleet_collector.specs.Listing.{Line, HasBefore};
ghost use Rattle.fleet_collector.specs.Lines.{line_seen, line_of, AreLinesOf, IsShown, IsListingShown, HasOf, HasIn};

use crate::fleet::Fleet;
use page_borrow::Entry;
use parcel_streams::StreamId;
use std::alloc::Global;
use stream_collector::StreamCollector;
use trace_model::{CpuId, Moment, NoMemory, RecordNo};

/// A record of a fleet's listing. Its bytes are the kept page's own, with those that fill the record's slot.
#[derive(Clone, Copy, Debug, PartialEq, Eq)]
pub struct FleetLine<'a> {
    /// When it was made.
    pub moment: Moment,
    /// The stream that it is of.
    pub stream: StreamId,
    /// The CPU of that stream that made it.
    pub cpu: CpuId,
    /// Its number among the records of that CPU, from 0.
    pub number: RecordNo,
    /// Its slot: the payload, and what fills it up to whole words (zeros, unless its writer put others there).
    pub bytes: &'a [u8],
}

/// The line of a record of this CPU of a stream.
fn line_of(stream: StreamId, cpu: CpuId, entry: Entry<'_>) -> FleetLine<'_>
    ensures { line_seen result ≡ line_of stream.0 cpu.0 (numbered_record entry.entry) }
{
    FleetLine {
        moment: entry.moment,
        stream,
        cpu,
        number: entry.number,
        bytes: entry.bytes,
    }
}

/// Puts a line for each record of a CPU of a stream, by rising number.
fn put_all_of_cpu<'a>(
    lines: &mut Vec<FleetLine<'a>>,
    stream: StreamId,
    known: &'a StreamCollector,
    cpu: CpuId,
) -> Result<(), NoMemory>
    ensures { OnOk result ((list : List (ℕ × Record)) × AreListed (HasRecord known.now cpu.0) list
        × (map line_seen lines.new.items ≡ map line_seen lines.old.items ++ map (line_of stream.0 cpu.0) list)) }
{
    for entry in known.records(cpu) {
        lines.push(line_of(stream, cpu, entry))?;
    }
    Ok(())
}

/// Puts a line for each record of a CPU of a stream before its cut at a moment, by rising number.
fn put_before_cut<'a>(
    lines: &mut Vec<FleetLine<'a>>,
    stream: StreamId,
    known: &'a StreamCollector,
    cpu: CpuId,
    moment: Moment,
) -> Result<(), NoMemory>
    ensures { OnOk result ((list : List (ℕ × Record)) × AreListed (HasBefore known.now moment.0 cpu.0) list
        × (map line_seen lines.new.items ≡ map line_seen lines.old.items ++ map (line_of stream.0 cpu.0) list)) }
{
    let cut = known.cut(cpu, moment);
    for entry in known.records(cpu) {
        if entry.number.0 >= cut.0 {
            return Ok(());
        }
        lines.push(line_of(stream, cpu, entry))?;
    }
    Ok(())
}

/// Puts a line for each record of a CPU of a stream that is shown, by rising number.
fn put_cpu<'a>(
    lines: &mut Vec<FleetLine<'a>>,
    stream: StreamId,
    known: &'a StreamCollector,
    cpu: CpuId,
    before: Option<Moment>,
) -> Result<(), NoMemory>
    ensures { OnOk result ((list : List (ℕ × Record)) × AreListed (IsShown before known.now cpu.0) list
        × (map line_seen lines.new.items ≡ map line_seen lines.old.items ++ map (line_of stream.0 cpu.0) list)) }
{
    match before {
        Some(moment) => put_before_cut(lines, stream, known, cpu, moment),
        None => put_all_of_cpu(lines, stream, known, cpu),
    }
}

/// Puts a line for each record of a stream that is shown, by rising CPU and number.
fn put_stream<'a>(
    lines: &mut Vec<FleetLine<'a>>,
    stream: StreamId,
    known: &'a StreamCollector,
    before: Option<Moment>,
) -> Result<(), NoMemory>
    ensures { OnOk result ((more : List Line) × AreLinesOf (HasOf before stream.0 known.now) more
        × (map line_seen lines.new.items ≡ map line_seen lines.old.items ++ more)) }
{
    for cpu in known.known_cpus() {
        put_cpu(lines, stream, known, cpu, before)?;
    }
    Ok(())
}

/// A line for each record of the fleet that is shown, by rising stream, CPU and number.
fn all_lines(
    alloc: Global,
    fleet: &Fleet,
    before: Option<Moment>,
) -> Result<Vec<FleetLine<'_>>, NoMemory>
    ensures { IfOk result (λ lines. AreLinesOf (HasIn before fleet.now) (map line_seen lines.items)) }
{
    let mut lines = Vec::new(alloc);
    for (stream, known) in fleet.streams() {
        put_stream(&mut lines, stream, known, before)?;
    }
    Ok(lines)
}

/// These lines in the order of time.
fn listed(
    alloc: Global,
    fleet: &Fleet,
    before: Option<Moment>,
) -> Result<Vec<FleetLine<'_>>, NoMemory>
    ensures { IfOk result (λ lines. IsListingShown before fleet.now (map line_seen lines.items)) }
{
    let _streams = fleet.streams();
    let mut lines = all_lines(alloc, fleet, before)?;
    lines.sort_unstable_by_key(|line| (line.moment.0, line.stream.0, line.cpu.0, line.number.0));
    Ok(lines)
}

impl Fleet {
    ghost use Rattle.fleet_collector.specs.Listing.{IsFleetListing, IsListingBefore};

    /// A line for each record that the streams have from their bounds on, and no other, strictly rising by moment, then
    /// by stream, then by CPU, then by number.
    ///
    /// ```
    /// for line in &fleet.listing(rt.alloc())? {
    ///     assert!(rt; line.moment == Moment(2) && line.stream == StreamId(7));
    /// }
    /// ```
    ///
    /// If memory is refused, nothing has changed.
    pub fn listing(&self, alloc: Global) -> Result<Vec<FleetLine<'_>>, NoMemory>
        ensures { IfOk result (λ lines. IsFleetListing self.now (map line_seen lines.items)) }
    {
        listed(alloc, self, None)
    }

    /// The lines of those records that are before the cuts of their CPUs at a moment, which `forget_before` then
    /// forgets. At the frontier they never change any more, and none that comes later is before them, if each CPU's
    /// moments never fall.
    pub fn lines_before(
        &self,
        alloc: Global,
        moment: Moment,
    ) -> Result<Vec<FleetLine<'_>>, NoMemory>
        ensures { IfOk result (λ lines. IsListingBefore self.now moment.0 (map line_seen lines.items)) }
    {
        listed(alloc, self, Some(moment))
    }
}
