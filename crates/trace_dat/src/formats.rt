//! The formats of events.
ghost use Rattle.std.specs.Prelude.{map};
ghost use Rattle.trace_dat.specs.Parts.{seen};
ghost use Rattle.trace_dat.specs.Fields.{Gives, with_front, all_at};
ghost use Rattle.trace_dat.specs.Contents.{format_seen};
ghost use Rattle.trace_dat.specs.Formats.{format_at, formats_at, system_at, systems_at};

use crate::contents::Format;
use crate::fault::ReadError;
use crate::part::Part;

/// The system of the ring's own events.
pub(crate) const RING_SYSTEM: &[u8] = b"ftrace";

/// Puts the format at the front of a part to the others, and gives what is after it.
#[tactic(auto, unfolding(crate::specs::Formats::format_at))]
fn put_format<'a>(
    formats: &mut Vec<Format<'a>>,
    system: &'a [u8],
    part: Part<'a>,
) -> Result<Part<'a>, ReadError>
    ensures { Gives (λ behind. (map format_seen formats.new.items, seen behind)) result
        (with_front (map format_seen formats.old.items) (format_at system.now (seen part.entry))) }
{
    let (text, behind) = part.block64()?;
    formats.push(Format {
        system,
        text: text.bytes,
    })?;
    Ok(behind)
}

/// Puts a number of formats of a system to the others, and gives what is after them.
fn put_each_format<'a>(
    formats: &mut Vec<Format<'a>>,
    system: &'a [u8],
    count: u32,
    part: Part<'a>,
) -> Result<Part<'a>, ReadError>
    ensures { Gives (λ behind. (map format_seen formats.new.items, seen behind)) result
        (with_front (map format_seen formats.old.items)
        (all_at (λ _. format_at system.now) 0 count (seen part.entry))) }
{
    let mut rest = part;
    for _ in 0..count {
        rest = put_format(formats, system, rest)?;
    }
    Ok(rest)
}

/// Puts the formats of a system, whose number is at the front of a part, to the others, and gives what is after them.
#[tactic(auto, unfolding(crate::specs::Formats::formats_at))]
pub(crate) fn put_formats<'a>(
    formats: &mut Vec<Format<'a>>,
    system: &'a [u8],
    part: Part<'a>,
) -> Result<Part<'a>, ReadError>
    ensures { Gives (λ behind. (map format_seen formats.new.items, seen behind)) result
        (with_front (map format_seen formats.old.items) (formats_at system.now (seen part.entry))) }
{
    let (count, behind) = part.number32()?;
    put_each_format(formats, system, count, behind)
}

/// Puts the formats of the system at the front of a part to the others, and gives what is after them.
#[tactic(auto, unfolding(crate::specs::Formats::system_at))]
fn put_system<'a>(formats: &mut Vec<Format<'a>>, part: Part<'a>) -> Result<Part<'a>, ReadError>
    ensures { Gives (λ behind. (map format_seen formats.new.items, seen behind)) result
        (with_front (map format_seen formats.old.items) (system_at (seen part.entry))) }
{
    let (name, behind) = part.text()?;
    put_formats(formats, name, behind)
}

/// Puts the formats of a number of systems to the others, and gives what is after them.
fn put_each_system<'a>(
    formats: &mut Vec<Format<'a>>,
    count: u32,
    part: Part<'a>,
) -> Result<Part<'a>, ReadError>
    ensures { Gives (λ behind. (map format_seen formats.new.items, seen behind)) result
        (with_front (map format_seen formats.old.items) (all_at (λ _. system_at) 0 count (seen part.entry))) }
{
    let mut rest = part;
    for _ in 0..count {
        rest = put_system(formats, rest)?;
    }
    Ok(rest)
}

/// Puts the formats of the systems, whose number is at the front of a part, to the others, and gives what is after
/// them.
#[tactic(auto, unfolding(crate::specs::Formats::systems_at))]
pub(crate) fn put_systems<'a>(
    formats: &mut Vec<Format<'a>>,
    part: Part<'a>,
) -> Result<Part<'a>, ReadError>
    ensures { Gives (λ behind. (map format_seen formats.new.items, seen behind)) result
        (with_front (map format_seen formats.old.items) (systems_at (seen part.entry))) }
{
    let (count, behind) = part.number32()?;
    put_each_system(formats, count, behind)
}
