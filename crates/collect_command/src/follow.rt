//! Captures that are listed while they are written.
ghost use Rattle.std.specs.Prelude.{◌≡◌, ◌≢◌, ◌⊎◌, ◌==◌, ℕ, false, true, position, List, Option, IfOk, OnErr};
ghost use Rattle.trace_dat.specs.Contents.{EventFormat};
ghost use Rattle.live_listing.specs.declared.following.Stop.{Stop};
ghost use Rattle.capture_text.specs.Printed.{IsDetail, IsSound};
ghost use Rattle.capture_text.specs.Printing.{Detail as LineDetail};
ghost use Rattle.capture_text.specs.Selection.{selection_seen};
ghost use Rattle.collect_command.specs.Listings.{AreTexts, Describes, detail_by};
ghost use Rattle.collect_command.specs.Runs.{TellsMemory};
ghost use Rattle.collect_command.specs.Following.{ending_by, TellsStop, IsFollowed, IsNothing, FollowsFiles};

use crate::collect::{
    Collecting, Detail, NUMBERS_LINE, Texts, add_given, is_unnamed, lent_marks, marks_for,
    texts_of, wanted_by, with_events, write_line,
};
use crate::ending::{Ending, Listed};
use crate::memory::tell_memory;
use capture::files::Captured;
use capture_text::{Beside, Form, Naming, Printer, Selection, Window};
use command_io::{DONE, REFUSED, Sink};
use event_fields::{EventFields, MalformedEvent, malformed_events};
use kernel_names::{EventTables, SymbolNames, TaskNames};
use live_listing::{Followed, Happenings, Stop, follow_pages};
use std::alloc::Global;
use trace_dat::kernel_texts::EventNames;
use trace_model::{CpuId, NoMemory};

/// What `collect --follow` answers.
#[derive(Debug, Drop)]
pub struct LiveCollected {
    /// What is said of the listing.
    pub listed: Listed,
    /// How many lines were late, of at most 2^64 - 1.
    pub late: u64,
}

impl LiveCollected {
    ghost use Rattle.std.specs.Prelude.{◌≡◌};
    ghost use Rattle.collect_command.specs.Listings.{SaysNothing};
    ghost use Rattle.collect_command.specs.Statuses.{status_of_live};

    /// The exit status: 1 if all is printed, but a line was late, and else that of the listing.
    pub fn status(&self) -> u8
        ensures { result ≡ status_of_live self.now }
    {
        let status = self.listed.status();
        if status == DONE && self.late > 0 {
            REFUSED
        } else {
            status
        }
    }

    /// Nothing more was listed.
    fn stopped(alloc: Global, ending: Ending) -> LiveCollected
        ensures ending { result.listed.ending ≡ ending }
        ensures nothing { SaysNothing result.listed }
        ensures none_late { result.late ≡ 0 }
    {
        LiveCollected {
            listed: Listed::nothing(alloc, ending),
            late: 0,
        }
    }
}

/// The place of a CPU among these, if it is one of them.
fn place_of(cpus: &[CpuId], cpu: CpuId) -> Option<usize>
    ensures { result ≡ position (λ c. c.0 == cpu.0) cpus.now }
{
    cpus.iter().position(|other| other.0 == cpu.0)
}

/// How a listing ends whose inputs have all ended.
fn ending_of(cpus: &[CpuId], followed: Followed) -> Ending
    ensures { result ≡ ending_by cpus.now followed.not_read followed.is_intact }
{
    if let Some(cpu) = followed.not_read {
        return Ending::NotRead(place_of(cpus, cpu).unwrap_or(0));
    }
    if followed.is_intact {
        Ending::Done
    } else {
        Ending::Damaged
    }
}

/// Reports why a listing ends before its inputs do.
fn tell_stop<W: Sink>(stop: Stop, writer: &mut W) -> Ending
    requires sound { stop ≢ Stop.NotWritten → W.failed writer.old ≡ false }
    requires cut { stop ≡ Stop.NotWritten → W.failed writer.old ≡ true }
    ensures { TellsStop stop (W.contents writer.old) (W.failed writer.old) (W.contents writer.new)
        (W.failed writer.new) result }
{
    match stop {
        Stop::Numbers => write_line(writer, NUMBERS_LINE, Ending::Numbers),
        Stop::NoMemory => tell_memory(writer),
        Stop::NotWritten => Ending::NotWritten,
    }
}

/// Lists what happens with inputs, in this form, with what the naming says of each record's event; these are the events
/// whose formats are malformed.
fn follow_named<S: Happenings, W: Sink>(
    alloc: Global,
    collecting: &Collecting<'_>,
    naming: Naming<'_>,
    selection: Selection<'_>,
    malformed: Vec<MalformedEvent>,
    cpus: &[CpuId],
    happenings: &mut S,
    writer: &mut W,
) -> LiveCollected
    requires sound { W.failed writer.old ≡ false }
    requires sound_naming { IsSound naming }
    requires detail { (detail : LineDetail) × IsDetail naming detail }
    ensures { (detail : LineDetail) → Describes naming.entry malformed.items detail
        → IsFollowed S.gives cpus.now collecting.now.page collecting.now.form detail (selection_seen selection.entry)
        happenings.old happenings.new (W.contents writer.old) (W.contents writer.new) (W.failed writer.new) result }
{
    let mut printer = Printer {
        form: collecting.form,
        naming,
        selection,
        cut: 0,
        window: Window::new(),
    };
    match follow_pages(
        alloc,
        &mut printer,
        collecting.page,
        cpus,
        happenings,
        writer,
    ) {
        Ok(followed) => LiveCollected {
            listed: Listed {
                ending: ending_of(cpus, followed),
                cut: printer.cut,
                malformed,
                is_unnamed: false,
            },
            late: followed.late,
        },
        Err(stop) => LiveCollected::stopped(alloc, tell_stop(stop, writer)),
    }
}

/// Lists what happens with inputs, with the fields of each record's event.
fn follow_fields<S: Happenings, W: Sink>(
    alloc: Global,
    collecting: &Collecting<'_>,
    texts: Texts<'_>,
    selection: Selection<'_>,
    cpus: &[CpuId],
    happenings: &mut S,
    writer: &mut W,
) -> Result<LiveCollected, NoMemory>
    requires sound { W.failed writer.old ≡ false }
    requires texts { (formats : List EventFormat) × (tasks symbols : Option (List (List ℕ)))
        × AreTexts texts formats tasks symbols }
    ensures followed { (formats : List EventFormat) (tasks symbols : Option (List (List ℕ)))
        → AreTexts texts.entry formats tasks symbols → IfOk result (λ collected.
        IsFollowed S.gives cpus.now collecting.now.page collecting.now.form
        (detail_by Detail.Fields formats tasks symbols) (selection_seen selection.entry) happenings.old happenings.new
        (W.contents writer.old) (W.contents writer.new) (W.failed writer.new) collected) }
    ensures refused { OnErr result ((writer.new ≡ writer.old) × (happenings.new ≡ happenings.old)) }
{
    let fields = EventFields::new(alloc, texts.names)?;
    let tables = EventTables::new(alloc, texts.names, &fields)?;
    let malformed = malformed_events(alloc, texts.names, &fields)?;
    let beside = Beside {
        tasks: texts.tasks,
        tables: Some(&tables),
        symbols: texts.symbols,
    };
    let naming = Naming::Fields(texts.names, &fields, beside);
    Ok(follow_named(
        alloc, collecting, naming, selection, malformed, cpus, happenings, writer,
    ))
}

/// Lists what happens with inputs, with what is asked for of each record.
fn follow_inputs<S: Happenings, W: Sink>(
    alloc: Global,
    collecting: &Collecting<'_>,
    texts: Texts<'_>,
    selection: Selection<'_>,
    cpus: &[CpuId],
    happenings: &mut S,
    writer: &mut W,
) -> Result<LiveCollected, NoMemory>
    requires sound { W.failed writer.old ≡ false }
    requires texts { (formats : List EventFormat) × (tasks symbols : Option (List (List ℕ)))
        × AreTexts texts formats tasks symbols }
    ensures followed { (formats : List EventFormat) (tasks symbols : Option (List (List ℕ)))
        → AreTexts texts.entry formats tasks symbols → IfOk result (λ collected.
        IsFollowed S.gives cpus.now collecting.now.page collecting.now.form
        (detail_by collecting.now.detail formats tasks symbols) (selection_seen selection.entry) happenings.old
        happenings.new (W.contents writer.old) (W.contents writer.new) (W.failed writer.new) collected) }
    ensures refused { OnErr result ((writer.new ≡ writer.old) × (happenings.new ≡ happenings.old)) }
{
    let none = Vec::new(alloc);
    match collecting.detail {
        Detail::Payload => {
            let naming = Naming::Payload;
            Ok(follow_named(
                alloc, collecting, naming, selection, none, cpus, happenings, writer,
            ))
        }
        Detail::Names => {
            let naming = Naming::Names(texts.names, texts.tasks);
            Ok(follow_named(
                alloc, collecting, naming, selection, none, cpus, happenings, writer,
            ))
        }
        Detail::Fields => {
            follow_fields(
                alloc, collecting, texts, selection, cpus, happenings, writer,
            )
        }
    }
}

/// Nothing but what is given is known.
pub(crate) fn nothing_captured(alloc: Global, collecting: &Collecting<'_>) -> Captured
    ensures { IsNothing collecting.now result }
{
    Captured {
        cpus: Vec::new(alloc),
        names: EventNames::new(alloc),
        others: Vec::new(alloc),
        found: false,
        wanted: wanted_by(collecting),
        tasks: TaskNames::new(alloc),
        symbols: SymbolNames::new(alloc),
        machine: None,
        cut: None,
    }
}

/// Lists what happens with inputs, with what is given beside them.
fn follow_given<S: Happenings, W: Sink>(
    alloc: Global,
    collecting: &Collecting<'_>,
    cpus: &[CpuId],
    happenings: &mut S,
    writer: &mut W,
) -> Result<LiveCollected, NoMemory>
    requires sound { W.failed writer.old ≡ false }
    ensures followed { IfOk result (λ collected. FollowsFiles S.gives collecting.now cpus.now happenings.old
        happenings.new (W.contents writer.old) (W.contents writer.new) (W.failed writer.new) collected) }
    ensures refused { OnErr result ((writer.new ≡ writer.old) × (happenings.new ≡ happenings.old)) }
{
    let mut given = nothing_captured(alloc, collecting);
    add_given(collecting, &mut given)?;
    let marks = marks_for(alloc, &given.names, collecting.pattern)?;
    let marks = lent_marks(&marks);
    let selection = with_events(collecting.selection, marks);
    let texts = texts_of(collecting, &given);
    let mut collected = follow_inputs(
        alloc, collecting, texts, selection, cpus, happenings, writer,
    )?;
    collected.listed.is_unnamed = is_unnamed(marks);
    Ok(collected)
}

/// Lists the pages of these CPUs as they come, until all inputs have ended: of each record a line as soon as it is
/// final, before it what was lost of its CPU since the last one, and whether it is late. What of `collecting` is of
/// whole files, its trace buffer, is of no use.
pub fn follow_to<S: Happenings, W: Sink>(
    alloc: Global,
    collecting: &Collecting<'_>,
    cpus: &[CpuId],
    happenings: &mut S,
    writer: &mut W,
) -> LiveCollected
    requires sound { W.failed writer.old ≡ false }
    ensures { FollowsFiles S.gives collecting.now cpus.now happenings.old happenings.new (W.contents writer.old)
        (W.contents writer.new) (W.failed writer.new) result
        ⊎ TellsMemory (W.contents writer.old) (W.contents writer.new) (W.failed writer.new) result.listed }
{
    match follow_given(alloc, collecting, cpus, happenings, writer) {
        Ok(collected) => collected,
        Err(NoMemory) => LiveCollected::stopped(alloc, tell_memory(writer)),
    }
}
