//! A kept command as it is lent: its bytes are looked up if it has any.
ghost use Rattle.std.specs.Prelude.{◌≡◌, ◌≤◌, Some, length, slice_get};
ghost use Rattle.trace_script.specs.Kept.{AreKept, first_or_zero, part, shown, start_of};
ghost use Rattle.trace_script.specs.ScriptTypes.{shown_command};

use crate::command::Command;
use crate::kept::{Kind, Wide};
use crate::kept_lines::KeptLines;
use trace_model::{CpuId, FillNo, Moment};

/// The first of these bytes, or 0 if there is none.
fn first_of(bytes: &[u8]) -> u8
    ensures { result ≡ first_or_zero bytes.now }
{
    match bytes {
        [] => 0,
        [first, ..] => *first,
    }
}

/// The bytes from one place to another.
#[inline(always)]
fn part_of(bytes: &[u8], start: usize, end: usize) -> &[u8]
    requires order { start ≤ end }
    requires within { end ≤ length bytes.now }
    ensures { result.now ≡ part bytes.now start end }
{
    &bytes[start..end]
}

/// The bytes of the command at this index among those of all commands.
#[inline(always)]
fn bytes_of<'a>(payloads: &'a Vec<u8>, lines: &KeptLines, index: usize, line: Wide) -> &'a [u8]
    requires kept { AreKept 0 0 (length payloads.now.items) lines.now }
    requires at { slice_get lines.now index ≡ Some line }
    ensures { result.now ≡ part payloads.now.items (start_of 0 lines.now index) line.end }
{
    part_of(payloads.as_slice(), lines.start(index), line.end)
}

/// The command at this index, as it is lent.
#[inline(always)]
pub(crate) fn lent<'a>(
    payloads: &'a Vec<u8>,
    lines: &KeptLines,
    index: usize,
    line: Wide,
) -> Command<'a>
    requires kept { AreKept 0 0 (length payloads.now.items) lines.now }
    requires at { slice_get lines.now index ≡ Some line }
    ensures { shown_command result ≡ shown (part payloads.now.items (start_of 0 lines.now index) line.end) line }
{
    let cpu = CpuId(u32::from(line.cpu));
    let value = line.value;
    match line.kind {
        Kind::Begin => Command::Begin {
            cpu,
            moment: Moment(value),
            payload: bytes_of(payloads, lines, index, line),
        },
        Kind::Step => Command::Step { cpu, count: value },
        Kind::Finish => Command::Finish { cpu },
        Kind::Write => Command::Write {
            cpu,
            moment: Moment(value),
            payload: bytes_of(payloads, lines, index, line),
        },
        Kind::Close => Command::Close { cpu },
        Kind::StepReader => Command::StepReader { cpu, count: value },
        Kind::Take => Command::Take { cpu },
        Kind::Wish => Command::Wish { cpu },
        Kind::Deliver => {
            let bytes = bytes_of(payloads, lines, index, line);
            Command::Deliver {
                collector: usize::from(first_of(bytes)),
                cpu,
                fill: FillNo(value),
            }
        }
    }
}
