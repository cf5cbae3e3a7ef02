//! What a run writes, and how it ends then.
ghost use Rattle.std.specs.Prelude.{◌≡◌, ◌⊎◌, ◌↔◌, IsTrue, false, [], IfErr, OnOk};
ghost use Rattle.text_values.specs.Putting.{Start, contents_of, has_failed, HasPut, KeepsWriter};
ghost use Rattle.collect_command.specs.Runs.{IsMemoryLine};
ghost use Rattle.collect_command.specs.recovery.Runs.{AreSound, IsEndingFor, IsListed, TellsUnread, TellsStop};

use crate::ending::Ending;
use crate::recovery::gather::{Stop, StoppedAt};
use crate::recovery::lines::{put_damaged, put_region_fault};
use crate::recovery::read::{Stopped, Unread};
use capture_text::Form;
use command_io::Sink;
use fleet_collector::Fleet;
use fleet_text::{Listed, PieceTrouble, put_fault};
use ring_region::Region;
use std::alloc::Global;
use text_values::{Out, TextBuffer, finish, finish_memory};
use trace_model::NoMemory;

/// Reports why an input gives no region.
fn tell_unread<W: Sink>(out: &mut Out<'_, W>, stopped: Stopped) -> Ending
    ensures writer { KeepsWriter out.old out.new }
    ensures told { (start : Start) → HasPut start [] out.old
        → TellsUnread stopped.input stopped.why start.contents (contents_of out.new) (has_failed out.new) result }
{
    match stopped.why {
        Unread::Read => finish(out, Ending::NotRead(stopped.input), Ending::NotWritten),
        Unread::TooLong => finish(out, Ending::TooLong(stopped.input), Ending::NotWritten),
        Unread::NoMemory => finish_memory(out, Ending::NoMemory, Ending::NotWritten),
        Unread::Fault(fault) => {
            put_region_fault(out, fault);
            finish(out, Ending::Malformed(stopped.input), Ending::NotWritten)
        }
    }
}

/// Writes why an input gives no region, through this buffer.
pub(crate) fn write_unread<W: Sink>(buffer: TextBuffer, writer: &mut W, stopped: Stopped) -> Ending
    requires { W.failed writer.old ≡ false }
    ensures { TellsUnread stopped.input stopped.why (W.contents writer.old) (W.contents writer.new)
        (W.failed writer.new) result }
{
    let mut buffer = buffer;
    let mut out = Out::new(&mut buffer, writer);
    tell_unread(&mut out, stopped)
}

/// Reports why a piece isn't added.
fn tell_stop<W: Sink>(out: &mut Out<'_, W>, stopped: StoppedAt) -> Ending
    ensures writer { KeepsWriter out.old out.new }
    ensures told { (start : Start) → HasPut start [] out.old
        → TellsStop stopped.input stopped.stop start.contents (contents_of out.new) (has_failed out.new) result }
{
    match stopped.stop {
        Stop::NoMemory => finish_memory(out, Ending::NoMemory, Ending::NotWritten),
        Stop::Refused {
            index,
            at,
            stream,
            cpu,
            refusal,
        } => {
            let trouble = PieceTrouble::Refused(stream, cpu, refusal);
            if trouble.is_no_memory() {
                return finish_memory(out, Ending::NoMemory, Ending::NotWritten);
            }
            put_fault(out, at, index, trouble);
            finish(out, Ending::Malformed(stopped.input), Ending::NotWritten)
        }
    }
}

/// Whether no slot is damaged.
fn are_sound(regions: &[Region]) -> bool
    ensures { IsTrue result ↔ AreSound regions.now }
{
    for region in regions {
        if !region.damaged.is_empty() {
            return false;
        }
    }
    true
}

/// How a run ends that lists these regions.
fn ending_for(regions: &[Region]) -> Ending
    ensures { IsEndingFor regions.now result }
{
    if are_sound(regions) {
        Ending::Done
    } else {
        Ending::Damaged
    }
}

/// Lists what a fleet has, and the damaged slots.
fn list_fleet<W: Sink>(
    alloc: Global,
    form: Form,
    regions: &[Region],
    fleet: &Fleet,
    out: &mut Out<'_, W>,
) -> Ending
    ensures writer { KeepsWriter out.old out.new }
    ensures listed { (start : Start) → HasPut start [] out.old
        → IsListed form regions.now fleet.now start.contents (contents_of out.new) (has_failed out.new) result
        ⊎ IsMemoryLine start.contents (contents_of out.new) (has_failed out.new) result }
{
    match Listed::new(alloc, fleet) {
        Ok(listed) => {
            listed.put(out, form);
            put_damaged(out, form, regions);
            finish(out, ending_for(regions), Ending::NotWritten)
        }
        Err(NoMemory) => finish_memory(out, Ending::NoMemory, Ending::NotWritten),
    }
}

/// Writes what a fleet has, and the damaged slots, through this buffer.
fn write_fleet<W: Sink>(
    alloc: Global,
    form: Form,
    regions: &[Region],
    fleet: &Fleet,
    buffer: TextBuffer,
    writer: &mut W,
) -> Ending
    requires { W.failed writer.old ≡ false }
    ensures { IsListed form regions.now fleet.now (W.contents writer.old) (W.contents writer.new)
        (W.failed writer.new) result
        ⊎ IsMemoryLine (W.contents writer.old) (W.contents writer.new) (W.failed writer.new) result }
{
    let mut buffer = buffer;
    let mut out = Out::new(&mut buffer, writer);
    list_fleet(alloc, form, regions, fleet, &mut out)
}

/// Writes why a piece isn't added, through this buffer.
fn write_stop<W: Sink>(buffer: TextBuffer, writer: &mut W, stopped: StoppedAt) -> Ending
    requires { W.failed writer.old ≡ false }
    ensures { TellsStop stopped.input stopped.stop (W.contents writer.old) (W.contents writer.new)
        (W.failed writer.new) result }
{
    let mut buffer = buffer;
    let mut out = Out::new(&mut buffer, writer);
    tell_stop(&mut out, stopped)
}

/// Lists a fleet, if all pieces were added, or reports why one wasn't.
pub(crate) fn end_run<W: Sink>(
    alloc: Global,
    form: Form,
    added: Result<(), StoppedAt>,
    regions: &[Region],
    fleet: &Fleet,
    buffer: TextBuffer,
    writer: &mut W,
) -> Ending
    requires { W.failed writer.old ≡ false }
    ensures listed { OnOk added (IsListed form regions.now fleet.now (W.contents writer.old) (W.contents writer.new)
        (W.failed writer.new) result
        ⊎ IsMemoryLine (W.contents writer.old) (W.contents writer.new) (W.failed writer.new) result) }
    ensures told { IfErr added (λ stopped. TellsStop stopped.input stopped.stop (W.contents writer.old)
        (W.contents writer.new) (W.failed writer.new) result) }
{
    match added {
        Ok(()) => write_fleet(alloc, form, regions, fleet, buffer, writer),
        Err(stopped) => write_stop(buffer, writer, stopped),
    }
}
