//! The pages of trace buffers, CPU by CPU, in either version's form.
ghost use Rattle.std.specs.Prelude.{◌≡◌, map, flat_map, IfOk};
ghost use Rattle.trace_dat.specs.Parts.{seen};
ghost use Rattle.trace_dat.specs.Fields.{Gives, with_front, with_list, all_at, each_of};
ghost use Rattle.trace_dat.specs.Contents.{recorded_seen, buffer_seen};
ghost use Rattle.trace_dat.specs.Entries.{option_seen};
ghost use Rattle.trace_dat.specs.Buffers.{pages_at, numbered_pages_at, buffer_at, instance_at, instance_of};
ghost use Rattle.trace_dat.specs.Buffers.{stated_buffer_at, buffer_of, counters_of};

use crate::contents::{Buffer, CpuPages};
use crate::entries::{BUFFER, COUNTERS, Entry};
use crate::fault::{Cause, ReadError};
use crate::part::Part;
use std::alloc::{AllocError, Global};

/// The word before the ranges of the CPUs' pages, in version 6.
const RANGES_WORD: &[u8] = b"flyrecord\0";

/// What a file of version 6 states once for all of its buffers.
#[derive(Clone, Copy)]
pub(crate) struct Shape {
    /// The size of a page, in bytes.
    pub(crate) page_size: u32,
    /// The number of CPUs.
    pub(crate) cpus: u32,
}

/// Puts the pages of a CPU, whose range is at the front of a part, to the others, and gives what is after it.
#[tactic(auto, unfolding(crate::specs::Buffers::pages_at))]
fn put_pages<'a>(
    cpus: &mut Vec<CpuPages<'a>>,
    file: &'a [u8],
    cpu: u32,
    part: Part<'a>,
) -> Result<Part<'a>, ReadError>
    ensures { Gives (λ behind. (map recorded_seen cpus.new.items, seen behind)) result
        (with_front (map recorded_seen cpus.old.items) (pages_at file.now cpu (seen part.entry))) }
{
    let (extent, behind) = part.range(file)?;
    cpus.push(CpuPages {
        cpu,
        pages: extent.bytes,
        fault: extent.fault,
    })?;
    Ok(behind)
}

/// Puts the pages of a CPU, whose number and range are at the front of a part, to the others, and gives what is after
/// them.
#[tactic(auto, unfolding(crate::specs::Buffers::numbered_pages_at))]
fn put_numbered_pages<'a>(
    cpus: &mut Vec<CpuPages<'a>>,
    file: &'a [u8],
    part: Part<'a>,
) -> Result<Part<'a>, ReadError>
    ensures { Gives (λ behind. (map recorded_seen cpus.new.items, seen behind)) result
        (with_front (map recorded_seen cpus.old.items) (numbered_pages_at file.now (seen part.entry))) }
{
    let (cpu, behind) = part.number32()?;
    put_pages(cpus, file, cpu, behind)
}

/// The pages of a number of CPUs, numbered from 0, whose ranges are at the front of a part, and what is after them.
fn pages_in_order<'a>(
    alloc: Global,
    file: &'a [u8],
    count: u32,
    part: Part<'a>,
) -> Result<(Vec<CpuPages<'a>>, Part<'a>), ReadError>
    ensures { Gives (λ x. (map recorded_seen x.0.items, seen x.1)) result
        (all_at (pages_at file.now) 0 count (seen part.entry)) }
{
    let mut cpus = Vec::new(alloc);
    let mut rest = part;
    for cpu in 0..count {
        rest = put_pages(&mut cpus, file, cpu, rest)?;
    }
    Ok((cpus, rest))
}

/// The pages of a number of CPUs, whose numbers and ranges are at the front of a part, and what is after them.
fn numbered_pages<'a>(
    alloc: Global,
    file: &'a [u8],
    count: u32,
    part: Part<'a>,
) -> Result<(Vec<CpuPages<'a>>, Part<'a>), ReadError>
    ensures { Gives (λ x. (map recorded_seen x.0.items, seen x.1)) result
        (all_at (λ _. numbered_pages_at file.now) 0 count (seen part.entry)) }
{
    let mut cpus = Vec::new(alloc);
    let mut rest = part;
    for _ in 0..count {
        rest = put_numbered_pages(&mut cpus, file, rest)?;
    }
    Ok((cpus, rest))
}

/// Puts the buffer of a number of CPUs at the front of a part to the others.
#[tactic(auto, unfolding(crate::specs::Buffers::buffer_at))]
pub(crate) fn put_buffer<'a>(
    buffers: &mut Vec<Buffer<'a>>,
    alloc: Global,
    file: &'a [u8],
    shape: Shape,
    name: &'a [u8],
    part: Part<'a>,
) -> Result<(), ReadError>
    ensures { Gives (λ _. map buffer_seen buffers.new.items) result
        (with_list (map buffer_seen buffers.old.items)
        (buffer_at file.now shape.page_size shape.cpus name.now (seen part.entry))) }
{
    let ranges = part.expected(RANGES_WORD, Cause::Misplaced)?;
    let (cpus, _) = pages_in_order(alloc, file, shape.cpus, ranges)?;
    buffers.push(Buffer {
        name,
        page_size: shape.page_size,
        cpus,
    })?;
    Ok(())
}

/// Puts the instance that an option of version 6 names, if it does so, to the other buffers.
#[tactic(auto, unfolding(crate::specs::Buffers::instance_of, crate::specs::Buffers::instance_at))]
fn put_instance<'a>(
    buffers: &mut Vec<Buffer<'a>>,
    alloc: Global,
    file: &'a [u8],
    shape: Shape,
    option: Entry<'a>,
) -> Result<(), ReadError>
    ensures { Gives (λ _. map buffer_seen buffers.new.items) result
        (with_list (map buffer_seen buffers.old.items)
        (instance_of file.now shape.page_size shape.cpus (option_seen option.entry))) }
{
    if option.id != BUFFER {
        return Ok(());
    }
    let (buffer, behind) = option.body.pointed(file)?;
    let (name, _) = behind.text()?;
    put_buffer(buffers, alloc, file, shape, name, buffer)
}

/// Puts the instances that options of version 6 name to the other buffers.
pub(crate) fn put_instances<'a>(
    buffers: &mut Vec<Buffer<'a>>,
    alloc: Global,
    file: &'a [u8],
    shape: Shape,
    options: &[Entry<'a>],
) -> Result<(), ReadError>
    ensures { Gives (λ _. map buffer_seen buffers.new.items) result
        (with_list (map buffer_seen buffers.old.items)
        (each_of (instance_of file.now shape.page_size shape.cpus) (map option_seen options.now))) }
{
    for option in options {
        put_instance(buffers, alloc, file, shape, *option)?;
    }
    Ok(())
}

/// Puts the buffer at the front of a part, which states it as version 7 does, to the others.
#[tactic(auto, unfolding(crate::specs::Buffers::stated_buffer_at))]
fn put_stated_buffer<'a>(
    buffers: &mut Vec<Buffer<'a>>,
    alloc: Global,
    file: &'a [u8],
    part: Part<'a>,
) -> Result<(), ReadError>
    ensures { Gives (λ _. map buffer_seen buffers.new.items) result
        (with_list (map buffer_seen buffers.old.items) (stated_buffer_at file.now (seen part.entry))) }
{
    let (_, behind) = part.pointed(file)?;
    let (name, behind) = behind.text()?;
    let (_clock, behind) = behind.text()?;
    let (page_size, behind) = behind.number32()?;
    let (count, behind) = behind.number32()?;
    let (cpus, _) = numbered_pages(alloc, file, count, behind)?;
    buffers.push(Buffer {
        name,
        page_size,
        cpus,
    })?;
    Ok(())
}

/// Puts the buffer that an option of version 7 states, if it does so, to the others.
#[tactic(auto, unfolding(crate::specs::Buffers::buffer_of))]
fn put_buffer_of<'a>(
    buffers: &mut Vec<Buffer<'a>>,
    alloc: Global,
    file: &'a [u8],
    option: Entry<'a>,
) -> Result<(), ReadError>
    ensures { Gives (λ _. map buffer_seen buffers.new.items) result
        (with_list (map buffer_seen buffers.old.items) (buffer_of file.now (option_seen option.entry))) }
{
    if option.id != BUFFER {
        return Ok(());
    }
    put_stated_buffer(buffers, alloc, file, option.body)
}

/// Puts the buffers that options of version 7 state to the others.
pub(crate) fn put_buffers<'a>(
    buffers: &mut Vec<Buffer<'a>>,
    alloc: Global,
    file: &'a [u8],
    options: &[Entry<'a>],
) -> Result<(), ReadError>
    ensures { Gives (λ _. map buffer_seen buffers.new.items) result
        (with_list (map buffer_seen buffers.old.items)
        (each_of (buffer_of file.now) (map option_seen options.now))) }
{
    for option in options {
        put_buffer_of(buffers, alloc, file, *option)?;
    }
    Ok(())
}

/// The counters that the options hold.
pub(crate) fn counters<'a>(
    alloc: Global,
    options: &[Entry<'a>],
) -> Result<Vec<&'a [u8]>, AllocError>
    ensures { IfOk result (λ counters.
        map (λ text. text.now) counters.items ≡ flat_map counters_of (map option_seen options.now)) }
{
    let mut counters = Vec::new(alloc);
    for option in options {
        if option.id == COUNTERS {
            counters.push(option.body.bytes)?;
        }
    }
    Ok(counters)
}
