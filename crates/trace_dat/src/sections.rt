//! The sections of version 7, and the chain of those that hold the options.
ghost use Rattle.std.specs.Prelude.{◌≡◌, ◌+◌, ◌≤◌, ◌<◌, length, map, IfOk, IfSome};
ghost use Rattle.std.specs.Option.{option_map};
ghost use Rattle.trace_dat.specs.Parts.{seen};
ghost use Rattle.trace_dat.specs.Fields.{Gives, with_front, with_list, each_of};
ghost use Rattle.trace_dat.specs.Contents.{format_seen};
ghost use Rattle.trace_dat.specs.Entries.{option_seen};
ghost use Rattle.trace_dat.specs.Sections.{section_body_at, section_at, place_seen, linked_at, link_from, link_at};
ghost use Rattle.trace_dat.specs.Sections.{chained_options_at, ring_formats_at, event_formats_at, formats_of};

use crate::contents::Format;
use crate::entries::{Entry, FORMATS, OPTIONS, RING_FORMATS, put_options};
use crate::fault::{Cause, ReadError};
use crate::formats::{RING_SYSTEM, put_formats, put_systems};
use crate::part::Part;
use std::alloc::Global;

/// The body of a section, of which this is what follows its flags.
#[tactic(auto, unfolding(crate::specs::Sections::section_body_at))]
fn section_body<'a>(part: Part<'a>) -> Result<Part<'a>, ReadError>
    ensures { Gives seen result (section_body_at (seen part.entry)) }
{
    let (_description, behind) = part.number32()?;
    let (body, _) = behind.block64()?;
    Ok(body)
}

/// The body of the section at the front of a part, which should have this identifier.
#[tactic(auto, unfolding(crate::specs::Sections::section_at))]
pub(crate) fn section<'a>(part: Part<'a>, id: u16) -> Result<Part<'a>, ReadError>
    ensures { Gives seen result (section_at id (seen part.entry)) }
{
    let named = part.expected(&id.to_le_bytes(), Cause::Misplaced)?;
    let (flags, behind) = named.number16()?;
    if flags % 2 == 1 {
        return Err(named.fault(Cause::Compressed));
    }
    section_body(behind)
}

/// Where the pointer to the next section of options is, and the least offset that it may have.
#[derive(Clone, Copy)]
struct Next<'a> {
    /// The least offset.
    least: usize,
    /// The part with the pointer at its front.
    pointer: Part<'a>,
}

/// Puts the options of the section at the front of a part to the others, and gives where the next section's pointer
/// is.
#[tactic(auto, unfolding(crate::specs::Sections::linked_at))]
fn put_linked<'a>(
    options: &mut Vec<Entry<'a>>,
    part: Part<'a>,
) -> Result<Option<Next<'a>>, ReadError>
    ensures gives { Gives (λ next. (map option_seen options.new.items, option_map place_seen next)) result
        (with_front (map option_seen options.old.items) (linked_at (seen part.entry))) }
    ensures least { IfOk result (λ next. IfSome (option_map place_seen next)
        (λ place. place.least ≡ part.entry.at + 1)) }
{
    let body = section(part, OPTIONS)?;
    let behind = put_options(options, body)?;
    let (pointer, _) = behind.block32()?;
    Ok(Some(Next {
        least: part.at + 1,
        pointer,
    }))
}

/// Puts the options of the section to which a pointer points to the others, and gives where the next section's pointer
/// is; None if it points to no section.
#[tactic(auto, unfolding(crate::specs::Sections::link_at, crate::specs::Sections::link_from))]
fn put_link<'a>(
    options: &mut Vec<Entry<'a>>,
    file: &'a [u8],
    place: Next<'a>,
) -> Result<Option<Next<'a>>, ReadError>
    ensures gives { Gives (λ next. (map option_seen options.new.items, option_map place_seen next)) result
        (with_front (map option_seen options.old.items) (link_at file.now (place_seen place.entry))) }
    ensures onward { IfOk result (λ next. IfSome (option_map place_seen next)
        (λ later. place.entry.least < later.least)) }
    ensures within { IfOk result (λ next. IfSome (option_map place_seen next)
        (λ later. later.least ≤ length file.now + 1)) }
{
    let (offset, _) = place.pointer.number64()?;
    if offset == 0 {
        return Ok(None);
    }
    let (part, _) = place.pointer.pointed(file)?;
    if part.at < place.least {
        return Err(place.pointer.fault(Cause::Backward));
    }
    put_linked(options, part)
}

/// The options of the chain of sections that begins at a pointer.
pub(crate) fn chained_options<'a>(
    alloc: Global,
    file: &'a [u8],
    pointer: Part<'a>,
) -> Result<Vec<Entry<'a>>, ReadError>
    ensures { Gives (λ options. map option_seen options.items) result
        (chained_options_at file.now (seen pointer.entry)) }
{
    let mut options = Vec::new(alloc);
    let mut next = Some(Next { least: 0, pointer });
    while let Some(place) = next {
        next = put_link(&mut options, file, place)?;
    }
    Ok(options)
}

/// Puts the formats of the ring's own events, to whose section a pointer points, to the others.
#[tactic(auto, unfolding(crate::specs::Sections::ring_formats_at))]
fn put_ring_formats<'a>(
    formats: &mut Vec<Format<'a>>,
    file: &'a [u8],
    pointer: Part<'a>,
) -> Result<(), ReadError>
    ensures { Gives (λ _. map format_seen formats.new.items) result
        (with_list (map format_seen formats.old.items) (ring_formats_at file.now (seen pointer.entry))) }
{
    let (part, _) = pointer.pointed(file)?;
    let body = section(part, RING_FORMATS)?;
    put_formats(formats, RING_SYSTEM, body)?;
    Ok(())
}

/// Puts the formats of the systems' events, to whose section a pointer points, to the others.
#[tactic(auto, unfolding(crate::specs::Sections::event_formats_at))]
fn put_event_formats<'a>(
    formats: &mut Vec<Format<'a>>,
    file: &'a [u8],
    pointer: Part<'a>,
) -> Result<(), ReadError>
    ensures { Gives (λ _. map format_seen formats.new.items) result
        (with_list (map format_seen formats.old.items) (event_formats_at file.now (seen pointer.entry))) }
{
    let (part, _) = pointer.pointed(file)?;
    let body = section(part, FORMATS)?;
    put_systems(formats, body)?;
    Ok(())
}

/// Puts the formats to which an option points, if it does so, to the others.
#[tactic(auto, unfolding(crate::specs::Sections::formats_of))]
fn put_formats_of<'a>(
    formats: &mut Vec<Format<'a>>,
    file: &'a [u8],
    option: Entry<'a>,
) -> Result<(), ReadError>
    ensures { Gives (λ _. map format_seen formats.new.items) result
        (with_list (map format_seen formats.old.items) (formats_of file.now (option_seen option.entry))) }
{
    match option.id {
        RING_FORMATS => put_ring_formats(formats, file, option.body),
        FORMATS => put_event_formats(formats, file, option.body),
        _ => Ok(()),
    }
}

/// The formats to which the options point.
pub(crate) fn formats<'a>(
    alloc: Global,
    file: &'a [u8],
    options: &[Entry<'a>],
) -> Result<Vec<Format<'a>>, ReadError>
    ensures { Gives (λ formats. map format_seen formats.items) result
        (each_of (formats_of file.now) (map option_seen options.now)) }
{
    let mut formats = Vec::new(alloc);
    for option in options {
        put_formats_of(&mut formats, file, *option)?;
    }
    Ok(formats)
}
