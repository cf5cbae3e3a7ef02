//! The command `collect` over captures.
ghost use Rattle.std.specs.Prelude.{◌≡◌, ◌≤◌, false, map, All, IfOk};
ghost use Rattle.command_io.specs.Ends.{has_failed};
ghost use Rattle.parcel_streams.specs.source.Readers.{peeked_reader};
ghost use Rattle.command_line.specs.Calls.{IsInRange};
ghost use Rattle.command_line.specs.declared.words.TheConstants.{MIN_PAGE};
ghost use Rattle.trace_dat.specs.Contents.{format_seen};
ghost use Rattle.host_commands.specs.Formats.{format_read};
ghost use Rattle.host_commands.specs.Collects.{CollectsAs, detail_for, given_bytes, selected_for};
ghost use Rattle.capture_text.specs.Selection.{selection_seen};
ghost use Rattle.std.specs.Option.{option_map};

use crate::form::form_of;
use crate::formats::{FormatText, formats_below};
use crate::inputs::{Reader, Trial, begin_writing, open_output, trial_of};
use crate::message::{FormatMessage, InstancesMessage, Trouble};
use crate::telling::tell_ending;
use capture::files::Input;
use capture_text::Selection;
use collect_command::{Collected, Collecting, Detail, Listed, collect_to};
use command_io::EndFault;
use command_line::{CollectCall, NamesFrom};
use std::fs;
use trace_dat::Format;
use trace_model::Moment;

/// The formats below the folder that is named, if one is.
fn given_formats<'b>(
    rt: &HostRuntime,
    folder: Option<&'b str>,
) -> Result<Vec<FormatText>, Trial<'b>> {
    let Some(name) = folder else {
        return Ok(Vec::new(rt.alloc()));
    };
    match formats_below(rt, name) {
        Ok(formats) => Ok(formats),
        Err(error) => Err(trial_of(error, Trouble::Unread, name)),
    }
}

/// The text for names that are asked for: that of the file which is named, and else none.
fn given_text<'b>(
    rt: &HostRuntime,
    names: Option<NamesFrom<'b>>,
) -> Result<Option<Vec<u8>>, Trial<'b>> {
    match names {
        None => Ok(None),
        Some(NamesFrom::Captures) => Ok(Some(Vec::new(rt.alloc()))),
        Some(NamesFrom::File(path)) => match fs::read(rt, path) {
            Ok(text) => Ok(Some(text)),
            Err(error) => Err(trial_of(error, Trouble::Unread, path)),
        },
    }
}

/// Texts of the kernel's that are given beside the captures.
#[derive(Drop)]
pub(crate) struct Given {
    /// The formats of events.
    pub formats: Vec<FormatText>,
    /// The names of processes, if they are printed.
    pub tasks: Option<Vec<u8>>,
    /// The functions, if they are printed.
    pub symbols: Option<Vec<u8>>,
}

/// The texts that are given.
pub(crate) fn given_texts<'b>(
    rt: &HostRuntime,
    asked: &CollectCall<'b>,
) -> Result<Given, Trial<'b>> {
    Ok(Given {
        formats: given_formats(rt, asked.formats)?,
        tasks: given_text(rt, asked.tasks)?,
        symbols: given_text(rt, asked.symbols)?,
    })
}

/// The formats, lent.
pub(crate) fn lent<'a>(
    rt: &HostRuntime,
    texts: &'a [FormatText],
) -> Result<Vec<Format<'a>>, Trial<'static>>
    ensures { IfOk result (λ formats. map format_seen formats.items ≡ map format_read texts.now) }
{
    let mut formats = Vec::new(rt.alloc());
    for format in texts {
        let pushed = formats.push(Format {
            system: format.system.as_slice(),
            text: format.text.as_slice(),
        });
        if pushed.is_err() {
            return Err(Trial::NoMemory);
        }
    }
    Ok(formats)
}

/// Says on standard error that no file has the instance that was asked for, and which instances aren't listed, if there
/// are any.
fn tell_instances(rt: &HostRuntime, asked: &CollectCall<'_>, collected: &Collected) {
    if let (Some(name), true) = (asked.instance, collected.is_missing) {
        let _ = eprintln!(rt; "tracering: there is no instance {name}");
    }
    if !collected.others.is_empty() {
        let message = InstancesMessage {
            others: &collected.others,
        };
        let _ = eprintln!(rt; "{message}");
    }
}

/// Says on standard error that the pattern names no event, if it names none.
pub(crate) fn tell_pattern(rt: &HostRuntime, asked: &CollectCall<'_>, listed: &Listed) {
    if let (Some(pattern), true) = (asked.event, listed.is_unnamed) {
        let _ = eprintln!(rt; "tracering: no event is named by {pattern}");
    }
}

/// Says on standard error which formats are malformed, and how many records have a field that isn't whole, if there are
/// any.
pub(crate) fn tell_fields(rt: &HostRuntime, listed: &Listed) {
    for event in &listed.malformed {
        let message = FormatMessage { event };
        let _ = eprintln!(rt; "{message}");
    }
    let cut = listed.cut;
    if cut > 0 {
        let _ = eprintln!(rt; "tracering: records with a field that is not whole: {cut}");
    }
}

/// A text, lent, if there is one.
fn lent_text(text: &Option<Vec<u8>>) -> Option<&[u8]>
    ensures { option_map (λ lent. lent.now) result ≡ option_map (λ text. text.items) text.now }
{
    match text {
        Some(text) => Some(text.as_slice()),
        None => None,
    }
}

/// Marks, lent, if there are some.
fn lent_marks(marks: &Option<Vec<bool>>) -> Option<&[bool]>
    ensures { option_map (λ lent. lent.now) result ≡ option_map (λ marks. marks.items) marks.now }
{
    match marks {
        Some(marks) => Some(marks.as_slice()),
        None => None,
    }
}

/// Numbers of processes, lent, if there are some.
fn lent_pids(pids: &Option<Vec<i32>>) -> Option<&[i32]>
    ensures { option_map (λ lent. lent.now) result ≡ option_map (λ pids. pids.items) pids.now }
{
    match pids {
        Some(pids) => Some(pids.as_slice()),
        None => None,
    }
}

/// The bytes of a word; none, if it isn't given.
fn word_bytes<'a>(word: Option<&'a str>) -> &'a [u8]
    ensures { result.now ≡ given_bytes word.entry }
{
    match word {
        Some(word) => word.as_bytes(),
        None => &[],
    }
}

/// The pattern of events, if one is given.
fn pattern_of<'a>(word: Option<&'a str>) -> Option<&'a [u8]>
    ensures { option_map (λ pattern. pattern.now) result ≡ option_map (λ word. word.now) word.entry }
{
    match word {
        Some(word) => Some(word.as_bytes()),
        None => None,
    }
}

/// Which records are listed; of events this is said by a pattern.
fn selection_of<'a>(asked: &'a CollectCall<'_>) -> Selection<'a>
    ensures { selection_seen result ≡ selected_for asked.now }
{
    Selection {
        cpus: lent_marks(&asked.cpus),
        since: Moment(asked.since.unwrap_or(0)),
        until: Moment(asked.until.unwrap_or(u64::MAX)),
        events: None,
        pids: lent_pids(&asked.pids),
    }
}

/// What a line says of its record.
fn detail_of(asked: &CollectCall<'_>) -> Detail
    ensures { result ≡ detail_for asked.now }
{
    match (asked.names, asked.fields) {
        (_, true) => Detail::Fields,
        (true, false) => Detail::Names,
        (false, false) => Detail::Payload,
    }
}

/// How the files are listed.
pub(crate) fn collecting_of<'a>(
    asked: &'a CollectCall<'_>,
    formats: &'a [Format<'a>],
    given: &'a Given,
) -> Collecting<'a>
    requires { IsInRange asked.now }
    ensures asked { CollectsAs asked.now result }
    ensures least { MIN_PAGE ≤ result.page }
    ensures formats { result.formats.now ≡ formats.now }
    ensures tasks { option_map (λ text. text.now) result.tasks ≡ option_map (λ text. text.items) given.now.tasks }
    ensures symbols { option_map (λ text. text.now) result.symbols ≡ option_map (λ text. text.items) given.now.symbols }
{
    Collecting {
        form: form_of(asked.json),
        page: asked.page_bytes() as usize,
        buffer: word_bytes(asked.instance),
        detail: detail_of(asked),
        selection: selection_of(asked),
        pattern: pattern_of(asked.event),
        formats,
        tasks: lent_text(&given.tasks),
        symbols: lent_text(&given.symbols),
    }
}

/// Lists captures, and gives how that ends, and what is the matter with standard output.
fn list<'b>(
    rt: &HostRuntime,
    asked: &CollectCall<'b>,
    inputs: Vec<Input<Reader<'_>>>,
    is_watched: bool,
) -> Result<(Collected, Option<EndFault>), Trial<'b>>
    requires range { IsInRange asked.now }
    requires cpus { map (λ input. input.cpu) inputs.items ≡ map (λ file. file.cpu) asked.now.files.items }
    requires sound { All (λ input. has_failed (peeked_reader input.reader) ≡ false) inputs.items }
{
    let mut inputs = inputs;
    let given = given_texts(rt, asked)?;
    let formats = lent(rt, &given.formats)?;
    let collecting = collecting_of(asked, &formats, &given);
    let writing = begin_writing(rt, is_watched);
    let mut output = open_output(rt, &writing);
    let collected = collect_to(rt.alloc(), &collecting, inputs.as_mut_slice(), &mut output);
    Ok((collected, EndFault::of_output(&output)))
}

/// Lists captures, and gives the exit status.
pub(crate) fn collect_captures<'b>(
    rt: &HostRuntime,
    asked: &CollectCall<'b>,
    inputs: Vec<Input<Reader<'_>>>,
    is_watched: bool,
) -> Result<u8, Trial<'b>>
    requires range { IsInRange asked.now }
    requires cpus { map (λ input. input.cpu) inputs.items ≡ map (λ file. file.cpu) asked.now.files.items }
    requires sound { All (λ input. has_failed (peeked_reader input.reader) ≡ false) inputs.items }
{
    let (collected, fault) = list(rt, asked, inputs, is_watched)?;
    tell_instances(rt, asked, &collected);
    tell_pattern(rt, asked, &collected.listed);
    tell_fields(rt, &collected.listed);
    tell_ending(rt, &asked.files, collected.listed.ending, fault);
    Ok(collected.status())
}
