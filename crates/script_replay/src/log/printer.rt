//! The printing of a replay's log.
ghost use Rattle.std.specs.Prelude.{◌≡◌, ◌++◌, OnOk, OnErr, flat_map};
ghost use Rattle.std.specs.Fmt.{decimal};
ghost use Rattle.trace_model.specs.Sublist.{IsPrefix};
ghost use Rattle.text_model.specs.Printing.{delivery_text, line_text, log_line_text, page_text, printed_log_line};
ghost use Rattle.text_model.specs.Printing.{refusal_text};
ghost use Rattle.ring_frames.specs.Answers.{refusal_of};
ghost use Rattle.script_replay.specs.log.LogTypes.{shown_log, shown_log_line};

use crate::log::line::LogLine;
use nested_writer::WriteFault;
use text_values::{drop_if_refused, put_number};
use trace_model::{CpuId, FillNo, NoMemory, RecordNo};

// On an error all but `put_log` may leave a part of what they put after what was there.

/// Puts the words and then the number.
fn put_named(out: &mut Vec<u8>, words: &[u8], number: u64) -> Result<(), NoMemory>
    ensures text { OnOk result (out.new.items ≡ out.old.items ++ (words.now ++ decimal number)) }
    ensures behind { IsPrefix out.old.items out.new.items }
{
    out.extend_from_slice(words)?;
    put_number(out, number)
}

/// Puts the name of why a writer is refused.
pub fn put_fault(out: &mut Vec<u8>, fault: WriteFault) -> Result<(), NoMemory>
    ensures text { OnOk result (out.new.items ≡ out.old.items ++ refusal_text (refusal_of fault)) }
    ensures behind { IsPrefix out.old.items out.new.items }
{
    match fault {
        WriteFault::TooDeep => out.extend_from_slice(b"TooDeep")?,
        WriteFault::TooLong => out.extend_from_slice(b"TooLong")?,
        WriteFault::LateMoment => out.extend_from_slice(b"LateMoment")?,
        WriteFault::Crowded => out.extend_from_slice(b"Crowded")?,
        WriteFault::Worn => out.extend_from_slice(b"Worn")?,
        WriteFault::NoFrame => out.extend_from_slice(b"NoFrame")?,
        WriteFault::NotReserved => out.extend_from_slice(b"NotReserved")?,
    }
    Ok(())
}

/// Puts the beginning of a line: the number of the script's line, and a CPU.
pub fn put_front(out: &mut Vec<u8>, line: u64, cpu: CpuId) -> Result<(), NoMemory>
    ensures text { OnOk result (out.new.items ≡ out.old.items ++ line_text line cpu.0) }
    ensures behind { IsPrefix out.old.items out.new.items }
{
    put_number(out, line)?;
    put_named(out, b" c", u64::from(cpu.0))
}

/// What is printed of a page that was taken.
fn put_taken(
    out: &mut Vec<u8>,
    fill: FillNo,
    first: RecordNo,
    count: u16,
    missed: u64,
) -> Result<(), NoMemory>
    ensures text { OnOk result (out.new.items ≡ out.old.items ++ page_text fill.0 first.0 count missed) }
    ensures behind { IsPrefix out.old.items out.new.items }
{
    put_named(out, b" taken fill ", fill.0)?;
    put_named(out, b" first ", first.0)?;
    put_named(out, b" count ", u64::from(count))?;
    put_named(out, b" missed ", missed)?;
    Ok(())
}

/// A delivery: the number of the script's line, the collector, and what became of it there.
fn put_delivery(
    out: &mut Vec<u8>,
    line: u64,
    collector: usize,
    cpu: CpuId,
    fill: FillNo,
    brought: &[u8],
) -> Result<(), NoMemory>
    ensures text { OnOk result (out.new.items
        ≡ out.old.items ++ (delivery_text line collector cpu.0 fill.0 ++ brought.now)) }
    ensures behind { IsPrefix out.old.items out.new.items }
{
    put_number(out, line)?;
    put_named(out, b" d ", collector as u64)?;
    put_named(out, b" c", u64::from(cpu.0))?;
    put_named(out, b" ", fill.0)?;
    out.extend_from_slice(brought)?;
    Ok(())
}

/// A line without its end.
fn put_line(out: &mut Vec<u8>, logged: &LogLine) -> Result<(), NoMemory>
    ensures text { OnOk result (out.new.items ≡ out.old.items ++ log_line_text (shown_log_line logged.now)) }
    ensures behind { IsPrefix out.old.items out.new.items }
{
    match logged {
        LogLine::Refused { line, cpu, fault } => {
            put_front(out, *line, *cpu)?;
            out.extend_from_slice(b" refused ")?;
            put_fault(out, *fault)
        }
        LogLine::Taken {
            line,
            cpu,
            fill,
            first,
            count,
            missed,
        } => {
            put_front(out, *line, *cpu)?;
            put_taken(out, *fill, *first, *count, *missed)
        }
        LogLine::Empty { line, cpu } => {
            put_front(out, *line, *cpu)?;
            out.extend_from_slice(b" empty")?;
            Ok(())
        }
        LogLine::Moving { line, cpu, fill } => {
            put_front(out, *line, *cpu)?;
            put_named(out, b" moving ", fill.0)
        }
        LogLine::Asks { line, cpu, fill } => {
            put_front(out, *line, *cpu)?;
            put_named(out, b" asks ", fill.0)
        }
        LogLine::New {
            line,
            collector,
            cpu,
            fill,
        } => put_delivery(out, *line, *collector, *cpu, *fill, b" new"),
        LogLine::Known {
            line,
            collector,
            cpu,
            fill,
        } => put_delivery(out, *line, *collector, *cpu, *fill, b" known"),
        LogLine::NotTaken {
            line,
            collector,
            cpu,
            fill,
        } => put_delivery(out, *line, *collector, *cpu, *fill, b" not-taken"),
    }
}

/// Puts a line of the log.
pub fn put_log_line(out: &mut Vec<u8>, logged: &LogLine) -> Result<(), NoMemory>
    ensures text { OnOk result (out.new.items ≡ out.old.items ++ printed_log_line (shown_log_line logged.now)) }
    ensures behind { IsPrefix out.old.items out.new.items }
{
    put_line(out, logged)?;
    out.push(b'\n')?;
    Ok(())
}

/// The lines of the log.
fn put_lines(out: &mut Vec<u8>, log: &[LogLine]) -> Result<(), NoMemory>
    ensures text { OnOk result (out.new.items ≡ out.old.items ++ flat_map printed_log_line (shown_log log.now)) }
    ensures behind { IsPrefix out.old.items out.new.items }
{
    for logged in log {
        put_log_line(out, logged)?;
    }
    Ok(())
}

/// Puts the lines of the log. If memory is refused, the text is as before.
pub fn put_log(out: &mut Vec<u8>, log: &[LogLine]) -> Result<(), NoMemory>
    ensures text { OnOk result (out.new.items ≡ out.old.items ++ flat_map printed_log_line (shown_log log.now)) }
    ensures kept { OnErr result (out.new.items ≡ out.old.items) }
{
    let start = out.len();
    let put = put_lines(out, log);
    drop_if_refused(out, start, put)
}
