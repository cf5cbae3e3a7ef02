//! What a file has of the traced kernel: its symbols, the names of processes, and what its machine is.
ghost use Rattle.std.specs.Prelude.{◌≡◌, map};
ghost use Rattle.std.specs.Option.{option_map};
ghost use Rattle.trace_dat.specs.Parts.{seen};
ghost use Rattle.trace_dat.specs.Fields.{Gives, with_list, each_of};
ghost use Rattle.trace_dat.specs.Entries.{option_seen};
ghost use Rattle.trace_dat.specs.TracedKernel.{lists_at, list_at, list_of, machine_among};

use crate::entries::{Entry, MACHINE, SYMBOLS, TASKS};
use crate::fault::ReadError;
use crate::part::Part;
use crate::sections::section;
use std::alloc::Global;

/// A text that a file of version 7 has in a section of its own.
#[derive(Clone, Copy)]
pub(crate) enum NameList {
    /// The kernel's symbols.
    Symbols,
    /// The names of processes.
    Tasks,
}

impl NameList {
    ghost use Rattle.trace_dat.specs.Fields.{block_at};
    ghost use Rattle.trace_dat.specs.TracedKernel.{section_of, width_of};

    /// The identifier of its section, and of the option that points to this.
    fn section(self) -> u16
        ensures { result ≡ section_of self }
    {
        match self {
            NameList::Symbols => SYMBOLS,
            NameList::Tasks => TASKS,
        }
    }

    /// The text at the front of a part, after its length.
    fn text<'a>(self, body: Part<'a>) -> Result<(Part<'a>, Part<'a>), ReadError>
        ensures { Gives (λ x. (seen x.0, seen x.1)) result (block_at (width_of self) (seen body.entry)) }
    {
        match self {
            NameList::Symbols => body.block32(),
            NameList::Tasks => body.block64(),
        }
    }
}

/// What version 6 has after the formats, and what is after that: the kernel's symbols, its texts for printing, which
/// are passed over, and the names of processes.
#[tactic(auto, unfolding(crate::specs::TracedKernel::lists_at))]
pub(crate) fn name_lists<'a>(part: Part<'a>) -> Result<((&'a [u8], &'a [u8]), Part<'a>), ReadError>
    ensures { Gives (λ x. ((x.0.0.now, x.0.1.now), seen x.1)) result (lists_at (seen part.entry)) }
{
    let (symbols, behind) = part.block32()?;
    let (_texts, behind) = behind.block32()?;
    let (tasks, behind) = behind.block64()?;
    Ok(((symbols.bytes, tasks.bytes), behind))
}

/// Puts the text of the list to whose section an option points, if it does so, to the others.
#[tactic(auto, unfolding(crate::specs::TracedKernel::list_of, crate::specs::TracedKernel::list_at))]
fn put_list_of<'a>(
    texts: &mut Vec<&'a [u8]>,
    file: &'a [u8],
    list: NameList,
    option: Entry<'a>,
) -> Result<(), ReadError>
    ensures { Gives (λ _. map (λ text. text.now) texts.new.items) result
        (with_list (map (λ text. text.now) texts.old.items)
        (list_of list file.now (option_seen option.entry))) }
{
    if option.id != list.section() {
        return Ok(());
    }
    let (part, _) = option.body.pointed(file)?;
    let body = section(part, list.section())?;
    let (text, _) = list.text(body)?;
    texts.push(text.bytes)?;
    Ok(())
}

/// The texts of the list to whose sections the options point.
pub(crate) fn list_texts<'a>(
    alloc: Global,
    file: &'a [u8],
    list: NameList,
    options: &[Entry<'a>],
) -> Result<Vec<&'a [u8]>, ReadError>
    ensures { Gives (λ texts. map (λ text. text.now) texts.items) result
        (each_of (list_of list file.now) (map option_seen options.now)) }
{
    let mut texts = Vec::new(alloc);
    for option in options {
        put_list_of(&mut texts, file, list, *option)?;
    }
    Ok(texts)
}

/// What the traced machine is, by the last of the options that says it.
pub(crate) fn machine<'a>(options: &[Entry<'a>]) -> Option<&'a [u8]>
    ensures { option_map (λ text. text.now) result ≡ machine_among (map option_seen options.now) }
{
    let mut machine = None;
    for option in options {
        if option.id == MACHINE {
            machine = Some(option.body.before_zero());
        }
    }
    machine
}
