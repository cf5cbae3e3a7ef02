//! The parts of a file of trace-cmd.
ghost use Rattle.std.specs.Prelude.{◌≡◌, ◌<◌, map, length, IsOk, IfErr};
ghost use Rattle.trace_dat.specs.Contents.{recorded_seen, buffer_seen, contents_seen};
ghost use Rattle.capture.specs.files.Files.{each_of, part_of, parts_of_listed, parts_of_buffer, parts_in, within};
ghost use Rattle.capture.specs.files.Giving.{part_seen, with_list, Gives};

use crate::files::cpu_part::{CpuPart, PageSize};
use crate::files::fault::{FileFault, InputFault};
use std::alloc::Global;
use trace_dat::{Buffer, CpuPages, TraceDat};
use trace_model::{CpuId, MAX_CPUS};

/// The smallest and the largest page of a ring, in bytes.
const MIN_PAGE: u32 = 4096;

const MAX_PAGE: u32 = 65536;

/// Puts what there is of a CPU, in pages of this size, to the other parts.
fn put_part<'a>(
    parts: &mut Vec<CpuPart<'a>>,
    size: PageSize,
    pages: &CpuPages<'a>,
) -> Result<(), InputFault>
    ensures { Gives (λ _. map part_seen parts.new.items) result
        (with_list (map part_seen parts.old.items) (part_of size.bytes (recorded_seen pages.now))) }
{
    if pages.cpu >= MAX_CPUS {
        return Err(InputFault::File(FileFault::BadCpu(pages.cpu)));
    }
    parts.push(CpuPart {
        cpu: CpuId(pages.cpu),
        size,
        pages: pages.pages,
    })?;
    Ok(())
}

/// Puts what there is of each CPU, in pages of this size, to the other parts.
fn put_parts<'a>(
    parts: &mut Vec<CpuPart<'a>>,
    size: PageSize,
    cpus: &[CpuPages<'a>],
) -> Result<(), InputFault>
    ensures { Gives (λ _. map part_seen parts.new.items) result
        (with_list (map part_seen parts.old.items) (each_of (part_of size.bytes) (map recorded_seen cpus.now))) }
{
    for recorded in cpus {
        put_part(parts, size, recorded)?;
    }
    Ok(())
}

/// Puts the parts of a buffer that is listed to the others.
fn put_listed<'a>(parts: &mut Vec<CpuPart<'a>>, buffer: &Buffer<'a>) -> Result<(), InputFault>
    ensures { Gives (λ _. map part_seen parts.new.items) result
        (with_list (map part_seen parts.old.items) (parts_of_listed (buffer_seen buffer.now))) }
{
    if buffer.page_size < MIN_PAGE || MAX_PAGE < buffer.page_size {
        return Err(InputFault::File(FileFault::BadPage(buffer.page_size)));
    }
    let size = PageSize {
        bytes: buffer.page_size,
    };
    put_parts(parts, size, buffer.cpus.as_slice())
}

/// Puts the parts of a buffer to the others, if it has this name.
fn put_buffer<'a>(
    parts: &mut Vec<CpuPart<'a>>,
    name: &[u8],
    buffer: &Buffer<'a>,
) -> Result<(), InputFault>
    ensures { Gives (λ _. map part_seen parts.new.items) result
        (with_list (map part_seen parts.old.items) (parts_of_buffer name.now (buffer_seen buffer.now))) }
{
    if buffer.name != name {
        return Ok(());
    }
    put_listed(parts, buffer)
}

/// Puts the parts of the buffer of this name, or of all that have it, to the others.
fn put_buffers<'a>(
    parts: &mut Vec<CpuPart<'a>>,
    name: &[u8],
    buffers: &[Buffer<'a>],
) -> Result<(), InputFault>
    ensures { Gives (λ _. map part_seen parts.new.items) result
        (with_list (map part_seen parts.old.items)
        (each_of (parts_of_buffer name.now) (map buffer_seen buffers.now))) }
{
    for buffer in buffers {
        put_buffer(parts, name, buffer)?;
    }
    Ok(())
}

/// Whether parts have no more bytes than a file of this length: if they have, ranges of the file overlap.
fn check_length(len: usize, parts: &[CpuPart<'_>]) -> Result<(), FileFault>
    ensures within { IsOk result → within len (map part_seen parts.now) ≡ Ok (map part_seen parts.now) }
    ensures past { IfErr result (λ fault. within len (map part_seen parts.now) ≡ Err fault) }
{
    let mut left = len;
    for part in parts {
        let Some(rest) = left.checked_sub(part.pages.len()) else {
            return Err(FileFault::Overlap);
        };
        left = rest;
    }
    Ok(())
}

/// The parts of what a file of this length holds in the buffer of this name.
pub(crate) fn parts_of<'a>(
    alloc: Global,
    dat: &TraceDat<'a>,
    name: &[u8],
    len: usize,
) -> Result<Vec<CpuPart<'a>>, InputFault>
    ensures { Gives (λ parts. map part_seen parts.items) result (parts_in name.now len (contents_seen dat.now)) }
{
    let mut parts = Vec::new(alloc);
    put_buffers(&mut parts, name, dat.buffers.as_slice())?;
    match check_length(len, parts.as_slice()) {
        Ok(()) => Ok(parts),
        Err(fault) => Err(InputFault::File(fault)),
    }
}
