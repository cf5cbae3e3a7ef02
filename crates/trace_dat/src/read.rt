//! A whole file, in either version.
ghost use Rattle.std.specs.Prelude.{◌≡◌, [], ◌∷◌, map, IfOk};
ghost use Rattle.trace_dat.specs.Parts.{seen};
ghost use Rattle.trace_dat.specs.Fields.{Gives};
ghost use Rattle.trace_dat.specs.Contents.{format_seen, contents_seen};
ghost use Rattle.trace_dat.specs.Entries.{option_seen};
ghost use Rattle.trace_dat.specs.Versions.{titled_at, all_formats_at, stated_options_at, version_six};
ghost use Rattle.trace_dat.specs.Versions.{version_seven, version_at, places_differing, resembles, reading_of};

use crate::buffers::{Shape, counters, put_buffer, put_buffers, put_instances};
use crate::contents::{Format, TraceDat};
use crate::entries::{Entry, put_options};
use crate::fault::{Cause, ReadError};
use crate::formats::{RING_SYSTEM, put_formats, put_systems};
use crate::part::Part;
use crate::sections::{chained_options, formats};
use crate::traced_kernel::{NameList, list_texts, machine, name_lists};
use std::alloc::{AllocError, Global};

/// The versions of the file.
#[derive(Clone, Copy, Debug, PartialEq, Eq)]
pub(crate) enum Version {
    /// Version 6: one part after the other.
    Six,
    /// Version 7: sections, of which options say where they are.
    Seven,
}

/// How a file begins.
const MAGIC: &[u8] = b"\x17\x08\x44tracing";
/// A little-endian machine, and words of eight bytes.
const MACHINE: &[u8] = b"\x00\x08";
/// The titles of what is before the formats, in version 6.
const PAGE_TITLE: &[u8] = b"header_page\0";

const RECORD_TITLE: &[u8] = b"header_event\0";
/// The word before the options, in version 6.
const OPTIONS_WORD: &[u8] = b"options  \0";
/// How a file of version 7 says that it isn't compressed.
const PLAIN: &[u8] = b"none\0";

/// What is after a title, which should be at the front, and its block.
#[tactic(auto, unfolding(crate::specs::Versions::titled_at))]
fn behind_titled<'a>(part: Part<'a>, title: &[u8]) -> Result<Part<'a>, ReadError>
    ensures { Gives seen result (titled_at title.now (seen part.entry)) }
{
    let text = part.expected(title, Cause::Misplaced)?;
    let (_, behind) = text.block64()?;
    Ok(behind)
}

/// The formats of all events, and what is after them.
#[tactic(auto, unfolding(crate::specs::Versions::all_formats_at))]
fn all_formats<'a>(alloc: Global, part: Part<'a>) -> Result<(Vec<Format<'a>>, Part<'a>), ReadError>
    ensures { Gives (λ x. (map format_seen x.0.items, seen x.1)) result (all_formats_at (seen part.entry)) }
{
    let page = behind_titled(part, PAGE_TITLE)?;
    let record = behind_titled(page, RECORD_TITLE)?;
    let mut formats = Vec::new(alloc);
    let ring = put_formats(&mut formats, RING_SYSTEM, record)?;
    let systems = put_systems(&mut formats, ring)?;
    Ok((formats, systems))
}

/// The options, if their word is at the front, and what is after them.
#[tactic(auto, unfolding(crate::specs::Versions::stated_options_at))]
fn stated_options<'a>(
    alloc: Global,
    part: Part<'a>,
) -> Result<(Vec<Entry<'a>>, Part<'a>), ReadError>
    ensures { Gives (λ x. (map option_seen x.0.items, seen x.1)) result (stated_options_at (seen part.entry)) }
{
    let mut options = Vec::new(alloc);
    if !part.begins(OPTIONS_WORD) {
        return Ok((options, part));
    }
    let behind = put_options(&mut options, part.behind(OPTIONS_WORD.len()))?;
    Ok((options, behind))
}

/// A list of this text alone.
fn only<'a>(alloc: Global, text: &'a [u8]) -> Result<Vec<&'a [u8]>, AllocError>
    ensures { IfOk result (λ texts. map (λ text. text.now) texts.items ≡ text.now ∷ []) }
{
    let mut texts = Vec::new(alloc);
    texts.push(text)?;
    Ok(texts)
}

/// What a file of version 6 holds, from after the size of its pages on.
#[tactic(auto, unfolding(crate::specs::Versions::version_six))]
fn read_six<'a>(
    alloc: Global,
    file: &'a [u8],
    page_size: u32,
    part: Part<'a>,
) -> Result<TraceDat<'a>, ReadError>
    ensures { Gives contents_seen result (version_six file.now page_size (seen part.entry)) }
{
    let (formats, behind) = all_formats(alloc, part)?;
    let ((symbols, tasks), behind) = name_lists(behind)?;
    let (cpus, behind) = behind.number32()?;
    let (options, behind) = stated_options(alloc, behind)?;
    let shape = Shape { page_size, cpus };
    let mut buffers = Vec::new(alloc);
    put_buffer(&mut buffers, alloc, file, shape, &[], behind)?;
    put_instances(&mut buffers, alloc, file, shape, &options)?;
    let counters = counters(alloc, &options)?;
    Ok(TraceDat {
        formats,
        buffers,
        counters,
        symbols: only(alloc, symbols)?,
        tasks: only(alloc, tasks)?,
        machine: machine(&options),
    })
}

/// What a file of version 7 holds, from after the size of its pages on.
#[tactic(auto, unfolding(crate::specs::Versions::version_seven))]
fn read_seven<'a>(alloc: Global, file: &'a [u8], part: Part<'a>) -> Result<TraceDat<'a>, ReadError>
    ensures { Gives contents_seen result (version_seven file.now (seen part.entry)) }
{
    let plain = part.expected(PLAIN, Cause::Compressed)?;
    let (_release, pointer) = plain.text()?;
    let options = chained_options(alloc, file, pointer)?;
    let formats = formats(alloc, file, &options)?;
    let mut buffers = Vec::new(alloc);
    put_buffers(&mut buffers, alloc, file, &options)?;
    let symbols = list_texts(alloc, file, NameList::Symbols, &options)?;
    let tasks = list_texts(alloc, file, NameList::Tasks, &options)?;
    let counters = counters(alloc, &options)?;
    Ok(TraceDat {
        formats,
        buffers,
        counters,
        symbols,
        tasks,
        machine: machine(&options),
    })
}

/// The version at the front of a part, and what is after it.
#[tactic(auto, unfolding(crate::specs::Versions::version_at))]
fn version_of<'a>(part: Part<'a>) -> Result<(Version, Part<'a>), ReadError>
    ensures { Gives (λ x. (x.0, seen x.1)) result (version_at (seen part.entry)) }
{
    if part.begins(b"6\0") {
        Ok((Version::Six, part.behind(2)))
    } else if part.begins(b"7\0") {
        Ok((Version::Seven, part.behind(2)))
    } else {
        Err(part.fault(Cause::BadVersion))
    }
}

/// At how many places of a word the first bytes of a file differ from it.
fn places_differing(file: &[u8], word: &[u8]) -> usize
    ensures { result ≡ places_differing file.now word.now }
{
    let mut count = 0;
    for at in 0..word.len() {
        if file.len() <= at || file[at] != word[at] {
            count += 1;
        }
    }
    count
}

/// Whether a file resembles those of trace-cmd: at most one of its first ten bytes isn't theirs. No raw page of up to
/// 16 KiB does so, and only a file that has all ten bytes is read.
pub fn resembles_trace_dat(file: &[u8]) -> bool
    ensures { result ≡ resembles file.now }
{
    places_differing(file, MAGIC) < 2
}

/// What a file of trace-cmd holds, in version 6 or 7.
#[tactic(auto, unfolding(crate::specs::Versions::reading_of))]
pub fn read_trace_dat(alloc: Global, file: &[u8]) -> Result<TraceDat<'_>, ReadError>
    ensures { Gives contents_seen result (reading_of file.now) }
{
    let whole = Part { at: 0, bytes: file };
    let behind = whole.expected(MAGIC, Cause::NotTraceDat)?;
    let (version, behind) = version_of(behind)?;
    let behind = behind.expected(MACHINE, Cause::OtherMachine)?;
    let (page_size, behind) = behind.number32()?;
    match version {
        Version::Six => read_six(alloc, file, page_size, behind),
        Version::Seven => read_seven(alloc, file, behind),
    }
}
