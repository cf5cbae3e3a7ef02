//! The command `collect` over raw files that can be read twice: once to see whether they can be listed while they are
//! read, with one page of each CPU held, and then for that.
ghost use Rattle.std.specs.Prelude.{◌≡◌, ◌≤◌, false, None};
ghost use Rattle.command_line.specs.Calls.{IsInRange};

use crate::again::Again;
use crate::captures::{collecting_of, given_texts, lent, tell_fields, tell_pattern};
use crate::inputs::{Trial, begin_writing, open_output};
use crate::length::total_of;
use crate::message::{FileMessage, Trouble};
use crate::named::Named;
use crate::progress::{Progress, Watched};
use crate::telling::{tell_ending, tell_file};
use collect_command::{Collected, Ending, collect_pages};
use command_io::{EndFault, Source, Std};
use command_line::{CollectCall, CpuFile};
use page_image::Missed;
use page_lines::PageLines;
use std::cell::Cell;
use std::fs;
use std::fs::File;
use std::io::{ErrorKind, Seek};
use time_merge::LineSource;
use trace_model::{CpuId, MAX_CPUS, NoMemory};

/// A raw file that is read twice. It stays the same file, whatever its path leads to meanwhile.
#[derive(Drop)]
pub(crate) struct PagedFile<'b> {
    named: CpuFile<'b>,
    file: File,
    /// How many bytes the first reading found.
    length: u64,
    /// Whether a read of the second reading failed, and not since the file is shorter now.
    has_failed: Cell<bool>,
}

impl<'b> Named for PagedFile<'b> {
    fn name(&self) -> &str {
        self.named.path
    }
}

/// What a file is read from for the first time, and for the second.
type First<'a> = Std<Watched<'a, HostRuntime, &'a File>>;

type Second<'a> = Std<Again<'a>>;

/// The files by rising CPU, if each is of a CPU of its own.
fn files_of_cpus<'b>(
    rt: &HostRuntime,
    asked: &CollectCall<'b>,
) -> Result<Option<Vec<CpuFile<'b>>>, Trial<'b>> {
    let mut files = Vec::new(rt.alloc());
    for file in &asked.files {
        if files.push(*file).is_err() {
            return Err(Trial::NoMemory);
        }
    }
    files.sort_unstable_by_key(|file| file.cpu.0);
    for at in 1..files.len() {
        if files[at].cpu == files[at - 1].cpu {
            return Ok(None);
        }
    }
    Ok(Some(files))
}

/// The files, if each can be opened.
fn open_files<'b>(
    rt: &HostRuntime,
    named: &[CpuFile<'b>],
) -> Result<Option<Vec<PagedFile<'b>>>, Trial<'b>> {
    let mut files = Vec::new(rt.alloc());
    for name in named {
        let file = match fs::open(rt, name.path) {
            Ok(file) => file,
            Err(error) if error.kind() == ErrorKind::OutOfMemory => return Err(Trial::NoMemory),
            Err(_) => return Ok(None),
        };
        let pushed = files.push(PagedFile {
            named: *name,
            file,
            length: 0,
            has_failed: Cell::new(false),
        });
        if pushed.is_err() {
            return Err(Trial::NoMemory);
        }
    }
    Ok(Some(files))
}

/// How many bytes a reader has, if the lines of its pages can be given one after the other, while it is read.
fn length_through<R: Source + Drop>(
    rt: &HostRuntime,
    page: usize,
    cpu: CpuId,
    reader: R,
) -> Option<u64>
    requires page { 48 ≤ page }
    requires sound { R.failed reader ≡ false }
{
    if cpu.0 >= MAX_CPUS {
        return None;
    }
    let mut source = PageLines::open(rt.alloc(), cpu, page, Missed::Unknown, reader).ok()?;
    for _ in 0..u64::MAX {
        if source.first().is_none() {
            break;
        }
        if source.advance().is_err() {
            return None;
        }
    }
    if source.halt().is_none() && source.is_at_end() {
        Some(source.taken())
    } else {
        None
    }
}

/// Reads a file for the first time. Whether its lines can be given one after the other, and it can be read again.
fn look_at(
    rt: &HostRuntime,
    page: usize,
    file: &mut PagedFile<'_>,
    progress: &Progress<'_, HostRuntime>,
) -> bool
    requires page { 48 ≤ page }
{
    let reader: First<'_> = Std::new(Watched::new(&file.file, progress));
    let Some(length) = length_through(rt, page, file.named.cpu, reader) else {
        return false;
    };
    file.length = length;
    file.file.rewind().is_ok()
}

/// The sources of these files' lines, which are read for the second time.
fn open_sources<'a>(
    rt: &HostRuntime,
    page: usize,
    files: &'a [PagedFile<'_>],
    progress: &'a Progress<'a, HostRuntime>,
) -> Result<Vec<PageLines<Second<'a>>>, NoMemory>
    requires page { 48 ≤ page }
{
    let mut sources = Vec::new(rt.alloc());
    for file in files {
        let cpu = file.named.cpu;
        if cpu.0 >= MAX_CPUS {
            break;
        }
        let again = Again::new(&file.file, file.length, &file.has_failed, progress);
        let source = PageLines::open(rt.alloc(), cpu, page, Missed::Unknown, Std::new(again))?;
        sources.push(source)?;
    }
    Ok(sources)
}

/// How many bytes the files have in all.
fn length_of_all(files: &[PagedFile<'_>]) -> u64 {
    let mut total: u64 = 0;
    for file in files {
        total = total.saturating_add(file.length);
    }
    total
}

/// Lists the files while they are read, and gives how that ends, and what is the matter with standard output.
fn list<'b>(
    rt: &HostRuntime,
    asked: &CollectCall<'b>,
    files: &[PagedFile<'b>],
    is_watched: bool,
) -> Result<(Collected, Option<EndFault>), Trial<'b>>
    requires range { IsInRange asked.now }
    requires main { asked.now.instance ≡ None }
{
    let given = given_texts(rt, asked)?;
    let formats = lent(rt, &given.formats)?;
    let collecting = collecting_of(asked, &formats, &given);
    let reading = Progress::begin(rt, "read", Some(length_of_all(files)), is_watched);
    let Ok(sources) = open_sources(rt, collecting.page, files, &reading) else {
        return Err(Trial::NoMemory);
    };
    // How far it is, the reading says.
    let writing = begin_writing(rt, false);
    let mut output = open_output(rt, &writing);
    let collected = collect_pages(rt.alloc(), &collecting, sources, &mut output);
    Ok((collected, EndFault::of_output(&output)))
}

/// The name of the file of this index, if each of its reads went well: a listing that ends there ends since the file
/// isn't what it was.
fn changed_name<'a>(files: &'a [PagedFile<'_>], index: usize) -> Option<&'a str> {
    let file = files.get(index)?;
    if file.has_failed.get() {
        None
    } else {
        Some(file.name())
    }
}

/// Says what the ending leaves to be said. `fault` is that of standard output.
fn tell(rt: &HostRuntime, files: &[PagedFile<'_>], ending: Ending, fault: Option<EndFault>) {
    if let Ending::NotRead(index) = ending {
        if let Some(name) = changed_name(files, index) {
            let trouble = Trouble::Changed;
            tell_file(rt, FileMessage { trouble, name });
            return;
        }
    }
    tell_ending(rt, files, ending, fault);
}

/// Lists these raw files, by rising CPU, while they are read, and gives the exit status.
pub(crate) fn collect_by_page<'b>(
    rt: &HostRuntime,
    asked: &CollectCall<'b>,
    files: &[PagedFile<'b>],
    is_watched: bool,
) -> Result<u8, Trial<'b>>
    requires range { IsInRange asked.now }
    requires main { asked.now.instance ≡ None }
{
    let (collected, fault) = list(rt, asked, files, is_watched)?;
    tell_pattern(rt, asked, &collected.listed);
    tell_fields(rt, &collected.listed);
    tell(rt, files, collected.listed.ending, fault);
    Ok(collected.status())
}

/// The files by rising CPU, if they are raw and can be listed while they are read, with one page of each held. They are
/// read for that.
pub(crate) fn paged_files<'b>(
    rt: &HostRuntime,
    asked: &CollectCall<'b>,
    is_watched: bool,
) -> Result<Option<Vec<PagedFile<'b>>>, Trial<'b>>
    requires range { IsInRange asked.now }
{
    if asked.instance.is_some() {
        return Ok(None);
    }
    let Some(total) = total_of(rt, &asked.files) else {
        return Ok(None);
    };
    let Some(named) = files_of_cpus(rt, asked)? else {
        return Ok(None);
    };
    let Some(mut files) = open_files(rt, &named)? else {
        return Ok(None);
    };
    let page = asked.page_bytes() as usize;
    let looking = Progress::begin(rt, "looked at", Some(total), is_watched);
    for file in &mut files {
        if !look_at(rt, page, file, &looking) {
            return Ok(None);
        }
    }
    Ok(Some(files))
}
