//! The lines of a collector's records.
ghost use Rattle.std.specs.Prelude.{◌≡◌, ◌+◌, ◌≤◌, [], ◌∷◌, ◌++◌, List, OnOk, OnErr, drop, flat_map};
ghost use Rattle.std.specs.Fmt.{decimal};
ghost use Rattle.text_model.specs.Text.{space};
ghost use Rattle.trace_model.specs.Sublist.{IsPrefix};
ghost use Rattle.trace_model.specs.Listing.{Line as ModelLine, IsListing};
ghost use Rattle.time_merge.specs.Lines.{line_seen};
ghost use Rattle.world_model.specs.Printing.{printed_line};

use collector::Collector;
use itoa::write_digits;
use std::alloc::Global;
use text_values::put_payload;
use time_merge::{Line, LinesByTime, lines_by_time};
use trace_model::NoMemory;

/// Room for the three numbers of a line, each of which takes at most 21 bytes with the space after it.
const FRONT: usize = 64;

/// Puts the number in decimal and a space, so that they end here, and answers where they begin.
#[inline(always)]
fn put_in_front(buffer: &mut [u8; FRONT], number: u64, end: usize) -> usize
    requires room { 21 ≤ end }
    requires inside { end ≤ 64 }
    ensures room { end ≤ result + 21 }
    ensures inside { result ≤ end }
    ensures written { drop result buffer.new ≡ decimal number ++ space ∷ drop end buffer.old }
{
    buffer[end - 1] = b' ';
    write_digits(number, buffer, end - 1)
}

/// The numbers of a line, with a space after each.
#[inline(always)]
fn put_front(out: &mut Vec<u8>, line: &Line<'_>) -> Result<(), NoMemory>
    ensures text { OnOk result (out.new.items ≡ out.old.items ++ (decimal line.now.cpu.0
        ++ space ∷ decimal line.now.number.0 ++ space ∷ decimal line.now.moment.0 ++ space ∷ [])) }
    ensures kept { OnErr result (out.new.items ≡ out.old.items) }
{
    let mut buffer = [0; FRONT];
    let moment = put_in_front(&mut buffer, line.moment.0, FRONT);
    let number = put_in_front(&mut buffer, line.number.0, moment);
    let cpu = put_in_front(&mut buffer, u64::from(line.cpu.0), number);
    out.extend_from_slice(&buffer[cpu..])?;
    Ok(())
}

/// A record's line: its CPU, its number, its moment and its payload. On an error a part of that may be put.
fn put_line(out: &mut Vec<u8>, line: &Line<'_>) -> Result<(), NoMemory>
    ensures text { OnOk result (out.new.items ≡ out.old.items ++ printed_line (line_seen line.now)) }
    ensures behind { IsPrefix out.old.items out.new.items }
{
    put_front(out, line)?;
    put_payload(out, line.bytes)?;
    out.push(b'\n')?;
    Ok(())
}

/// These lines, in their order. On an error a part of that may be put.
fn put_each(out: &mut Vec<u8>, lines: LinesByTime<'_>) -> Result<(), NoMemory>
    ensures text { OnOk result (out.new.items ≡ out.old.items ++ flat_map printed_line lines.entry) }
    ensures behind { IsPrefix out.old.items out.new.items }
{
    for line in lines {
        put_line(out, &line)?;
    }
    Ok(())
}

/// The lines of the collector's records, by time; no list of them is made. On an error a part of that may be put.
pub(crate) fn put_lines(
    alloc: Global,
    out: &mut Vec<u8>,
    collector: &Collector,
) -> Result<(), NoMemory>
    ensures text { OnOk result ((lines : List ModelLine) × IsListing collector.now lines
        × (out.new.items ≡ out.old.items ++ flat_map printed_line lines)) }
    ensures behind { IsPrefix out.old.items out.new.items }
{
    let lines = lines_by_time(alloc, collector)?;
    put_each(out, lines)
}
