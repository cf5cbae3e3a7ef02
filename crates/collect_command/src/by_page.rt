//! The command `collect` over raw files that are read while they are listed.
ghost use Rattle.std.specs.Prelude.{◌≡◌, ◌≤◌, false, ℕ, List, [], Option, IfOk, OnErr};
ghost use Rattle.trace_dat.specs.Contents.{EventFormat};
ghost use Rattle.capture_text.specs.Selection.{selection_seen};
ghost use Rattle.collect_command.specs.Listings.{AreTexts, detail_by};
ghost use Rattle.collect_command.specs.Paged.{CollectsPages, ListsPages, ListsPagesSo};

use crate::collect::{
    Collecting, Detail, Texts, add_given, is_unnamed, lent_marks, marks_for, texts_of, with_events,
};
use crate::ending::{Collected, Listed};
use crate::follow::nothing_captured;
use crate::memory::tell_memory;
use crate::paged::print_pages;
use capture_text::{Beside, Naming, Selection};
use command_io::{Sink, Source};
use event_fields::{EventFields, malformed_events};
use kernel_names::EventTables;
use page_lines::PageLines;
use std::alloc::Global;
use trace_model::NoMemory;

/// Prints what the pages of sources have and miss, with the fields of each record's event. If memory is refused,
/// nothing is written.
fn print_fields<R: Source + Drop, W: Sink>(
    alloc: Global,
    collecting: &Collecting<'_>,
    texts: Texts<'_>,
    selection: Selection<'_>,
    sources: Vec<PageLines<R>>,
    writer: &mut W,
) -> Result<Listed, NoMemory>
    requires page { 48 ≤ collecting.now.page }
    requires sound { W.failed writer.old ≡ false }
    ensures listed { (formats : List EventFormat) (tasks symbols : Option (List (List ℕ)))
        → AreTexts texts.entry formats tasks symbols
        → IfOk result (λ listed. ListsPages R.remaining R.failed collecting.now.form
        (detail_by Detail.Fields formats tasks symbols) (selection_seen selection.entry) collecting.now.page
        sources.items (W.contents writer.old) (W.contents writer.new) (W.failed writer.new) listed) }
    ensures refused { OnErr result (writer.new ≡ writer.old) }
{
    let fields = EventFields::new(alloc, texts.names)?;
    let tables = EventTables::new(alloc, texts.names, &fields)?;
    let malformed = malformed_events(alloc, texts.names, &fields)?;
    let beside = Beside {
        tasks: texts.tasks,
        tables: Some(&tables),
        symbols: texts.symbols,
    };
    let naming = Naming::Fields(texts.names, &fields, beside);
    let form = collecting.form;
    print_pages(
        alloc,
        form,
        naming,
        selection,
        malformed,
        collecting.page,
        sources,
        writer,
    )
}

/// Prints what the pages of sources have and miss, with what is asked for of each record. If memory is refused, nothing
/// is written.
fn print_named<R: Source + Drop, W: Sink>(
    alloc: Global,
    collecting: &Collecting<'_>,
    texts: Texts<'_>,
    selection: Selection<'_>,
    sources: Vec<PageLines<R>>,
    writer: &mut W,
) -> Result<Listed, NoMemory>
    requires page { 48 ≤ collecting.now.page }
    requires sound { W.failed writer.old ≡ false }
    ensures listed { (formats : List EventFormat) (tasks symbols : Option (List (List ℕ)))
        → AreTexts texts.entry formats tasks symbols
        → IfOk result (λ listed. ListsPages R.remaining R.failed collecting.now.form
        (detail_by collecting.now.detail formats tasks symbols) (selection_seen selection.entry) collecting.now.page
        sources.items (W.contents writer.old) (W.contents writer.new) (W.failed writer.new) listed) }
    ensures refused { OnErr result (writer.new ≡ writer.old) }
{
    let form = collecting.form;
    let page = collecting.page;
    let none = Vec::new(alloc);
    match collecting.detail {
        Detail::Payload => {
            let naming = Naming::Payload;
            print_pages(alloc, form, naming, selection, none, page, sources, writer)
        }
        Detail::Names => {
            let naming = Naming::Names(texts.names, texts.tasks);
            print_pages(alloc, form, naming, selection, none, page, sources, writer)
        }
        Detail::Fields => print_fields(alloc, collecting, texts, selection, sources, writer),
    }
}

/// Lists what the pages of sources have and miss, with what is given beside them. If memory is refused, nothing is
/// written.
fn list_given<R: Source + Drop, W: Sink>(
    alloc: Global,
    collecting: &Collecting<'_>,
    sources: Vec<PageLines<R>>,
    writer: &mut W,
) -> Result<Listed, NoMemory>
    requires page { 48 ≤ collecting.now.page }
    requires sound { W.failed writer.old ≡ false }
    ensures listed { IfOk result (λ listed. ListsPagesSo R.remaining R.failed collecting.now sources.items
        (W.contents writer.old) (W.contents writer.new) (W.failed writer.new) listed) }
    ensures refused { OnErr result (writer.new ≡ writer.old) }
{
    let mut given = nothing_captured(alloc, collecting);
    add_given(collecting, &mut given)?;
    let marks = marks_for(alloc, &given.names, collecting.pattern)?;
    let marks = lent_marks(&marks);
    let selection = with_events(collecting.selection, marks);
    let texts = texts_of(collecting, &given);
    let mut listed = print_named(alloc, collecting, texts, selection, sources, writer)?;
    listed.is_unnamed = is_unnamed(marks);
    Ok(listed)
}

/// The same, or the line for refused memory.
fn list_or_tell<R: Source + Drop, W: Sink>(
    alloc: Global,
    collecting: &Collecting<'_>,
    sources: Vec<PageLines<R>>,
    writer: &mut W,
) -> Listed
    requires page { 48 ≤ collecting.now.page }
    requires sound { W.failed writer.old ≡ false }
    ensures { ListsPagesSo R.remaining R.failed collecting.now sources.items
        (W.contents writer.old) (W.contents writer.new) (W.failed writer.new) result }
{
    match list_given(alloc, collecting, sources, writer) {
        Ok(listed) => listed,
        Err(NoMemory) => Listed::nothing(alloc, tell_memory(writer)),
    }
}

/// Lists raw files, each of which one of these sources reads, while they are read: one page of each is held. Each has
/// to be raw and of a later CPU than the one before, and its moments may not fall. Where one can't go on, the listing
/// ends after the lines that go before all that is left: if memory is refused, with the line that says so, and if the
/// file isn't as it has to be, with `Ending::Changed`.
pub fn collect_pages<R: Source + Drop, W: Sink>(
    alloc: Global,
    collecting: &Collecting<'_>,
    sources: Vec<PageLines<R>>,
    writer: &mut W,
) -> Collected
    requires page { 48 ≤ collecting.now.page }
    requires main { collecting.now.buffer.now ≡ [] }
    requires sound { W.failed writer.old ≡ false }
    ensures { CollectsPages R.remaining R.failed collecting.now sources.items
        (W.contents writer.old) (W.contents writer.new) (W.failed writer.new) result }
{
    Collected {
        listed: list_or_tell(alloc, collecting, sources, writer),
        is_missing: false,
        others: Vec::new(alloc),
    }
}
