//! A listing of inputs that are read while they are written.
ghost use Rattle.std.specs.Prelude.{◌≡◌, ◌≢◌, ◌<◌, ◌++◌, ◌∷◌, [], ◌↔◌, false, true, Err, count_by, map, List};
ghost use Rattle.std.specs.Prelude.{IfOk, IfErr, OnOk, OnErr};
ghost use Rattle.std.specs.List.{list_all};
ghost use Rattle.trace_model.specs.declared.limits.TheConstants.{MAX_CPUS};
ghost use Rattle.trace_model.specs.Listing.{Line as ModelLine};
ghost use Rattle.capture_text.specs.declared.form.Form.{Form};
ghost use Rattle.capture_text.specs.Printed.{IsSound, bounds_of};
ghost use Rattle.capture_text.specs.Printing.{Detail};
ghost use Rattle.capture_text.specs.Selection.{Selected};
ghost use Rattle.text_values.specs.Putting.{Puts};
ghost use Rattle.live_listing.specs.Pages.{reached};
ghost use Rattle.live_listing.specs.Live.{AreInOrder, Adds, Step};
ghost use Rattle.live_listing.specs.Printing.{said_texts, listed_all, is_late, HasPrinted, HasPrintedSome};
ghost use Rattle.live_listing.specs.Following.{cpu_of, happening_seen, last_gaps, has_cpu, IsWritten};
ghost use Rattle.live_listing.specs.Following.{PrintsAll, FollowsAll, FollowsPart, CutsOne, first_not_read};
ghost use Rattle.live_listing.specs.declared.following.Stop.{Stop};
ghost use Rattle.live_listing.specs.declared.following.Stop.TheVariants.{NoMemory as MemoryIs};
ghost use Rattle.live_listing.specs.declared.following.Stop.TheVariants.{NotWritten as NotWrittenIs};

use crate::listing::LiveListing;
use crate::pages::{Content, CpuPages};
use crate::printing::{print_gap, print_lines};
use capture::CaptureFault;
use capture_text::Printer;
use command_io::Sink;
use line_follower::Said;
use std::alloc::Global;
use text_values::{Out, TextBuffer};
use trace_model::{CpuId, MAX_CPUS, NoMemory};

/// What happens with the input of a CPU.
#[derive(Debug, Drop)]
pub enum Happening {
    /// A page was read: as many bytes as a page has, or those before the input's end.
    Page(CpuId, Vec<u8>),
    /// Nothing came of the CPU for a round.
    Quiet(CpuId),
    /// The input ended.
    Ended(CpuId),
    /// A read of the input failed.
    NotRead(CpuId),
}

/// Where what happens is from.
pub trait Happenings {
    ghost use Rattle.live_listing.specs.declared.following.Happening.{Happening};

    // What happens leads from one state to another.
    ghost gives: { Self → Happening → Self → Type 0 };

    /// What happens next. `first` is the CPU of which more is wanted most.
    fn next(&mut self, first: CpuId) -> Result<Happening, NoMemory>
        ensures given { IfOk result (λ happening. gives self.old happening self.new) }
        ensures cpu { IfOk result (λ happening. cpu_of happening < MAX_CPUS) };
}

/// Why a listing of inputs that are read while they are written ends before they do.
#[derive(Clone, Copy, Debug, PartialEq, Eq)]
pub enum Stop {
    /// The number of a record, of pages or of what happens would be above 2^64 - 1.
    Numbers,
    /// Memory was refused.
    NoMemory,
    /// A write failed.
    NotWritten,
}

impl From<NoMemory> for Stop {
    ghost from_gives = { λ _ stop. stop ≡ MemoryIs };

    fn from(_refused: NoMemory) -> Stop {
        Stop::NoMemory
    }
}

impl From<CaptureFault> for Stop {
    ghost from_gives = { λ _ stop. stop ≢ NotWrittenIs };

    fn from(fault: CaptureFault) -> Stop {
        match fault {
            CaptureFault::Numbers => Stop::Numbers,
            CaptureFault::NoMemory => Stop::NoMemory,
        }
    }
}

/// What was listed.
#[derive(Clone, Copy, Debug, PartialEq, Eq)]
pub struct Followed {
    /// How many lines were late, of at most 2^64 - 1.
    pub late: u64,
    /// Whether each page could be read.
    pub is_intact: bool,
    /// The first CPU of which a read failed, if there is one.
    pub not_read: Option<CpuId>,
}

/// Has something happen. What is final then is given.
fn happen(
    alloc: Global,
    live: &mut LiveListing,
    happening: Happening,
    given: &mut Vec<Said<Content>>,
) -> Result<(), Stop>
    requires { cpu_of happening < MAX_CPUS }
    ensures given { OnOk result (Adds (λ said. Step (happening_seen happening) live.old said live.new)
        given.old.items given.new.items) }
    ensures not_written { result ≢ Err Stop.NotWritten }
{
    match happening {
        Happening::Page(cpu, image) => {
            let mut image = image;
            live.page(alloc, cpu, &mut image, given)?;
        }
        Happening::Quiet(cpu) => live.quiet(cpu, given)?,
        Happening::Ended(cpu) | Happening::NotRead(cpu) => live.end(cpu, given)?,
    }
    Ok(())
}

/// Writes what is given, and what waits in the buffer. Gives how many lines are late.
fn write_given<W: Sink>(
    printer: &mut Printer<'_>,
    buffer: &mut TextBuffer,
    writer: &mut W,
    size: usize,
    given: &[Said<Content>],
) -> Result<u64, Stop>
    requires naming { IsSound printer.old.naming }
    requires printed { HasPrintedSome printer.old }
    requires sound { W.failed writer.old ≡ false }
    ensures naming { IsSound printer.new.naming }
    ensures printed { HasPrintedSome printer.new }
    ensures late { IfOk result (λ late. late ≡ count_by is_late given.now) }
    ensures sound { OnOk result (W.failed writer.new ≡ false) }
    ensures fault { OnErr result (W.failed writer.new ≡ true) }
    ensures not_written { IfErr result (λ stop. stop ≡ Stop.NotWritten) }
    ensures written { (form : Form) (detail : Detail) (selected : Selected) (before : List ModelLine)
        → HasPrinted form detail selected before printer.old
        → HasPrinted form detail selected (before ++ listed_all given.now) printer.new
        × IsWritten (W.contents writer.old) (W.contents writer.new) (W.failed writer.new)
        (said_texts form detail selected size before given.now) }
{
    let mut out = Out::new(buffer, writer);
    let late = print_lines(printer, &mut out, size, given);
    match out.finish() {
        Ok(()) => Ok(late),
        Err(_) => Err(Stop::NotWritten),
    }
}

/// Prints what was lost of each CPU behind its last record.
fn print_gaps<W: Sink>(printer: &Printer<'_>, out: &mut Out<'_, W>, size: usize, cpus: &[CpuPages])
    requires { AreInOrder cpus.now }
    ensures { Puts (last_gaps printer.now.form (bounds_of printer.now) size 0 (map reached cpus.now)) out.old out.new }
{
    for found in cpus {
        print_gap(printer, out, size, found.cpu, &found.gap);
    }
}

/// Writes what was lost of each CPU behind its last record.
fn write_gaps<W: Sink>(
    printer: &Printer<'_>,
    buffer: &mut TextBuffer,
    writer: &mut W,
    size: usize,
    cpus: &[CpuPages],
) -> Result<(), Stop>
    requires sound { W.failed writer.old ≡ false }
    requires order { AreInOrder cpus.now }
    ensures sound { OnOk result (W.failed writer.new ≡ false) }
    ensures fault { OnErr result (W.failed writer.new ≡ true) }
    ensures not_written { IfErr result (λ stop. stop ≡ Stop.NotWritten) }
    ensures written { IsWritten (W.contents writer.old) (W.contents writer.new) (W.failed writer.new)
        (last_gaps printer.now.form (bounds_of printer.now) size 0 (map reached cpus.now)) }
{
    let mut out = Out::new(buffer, writer);
    print_gaps(printer, &mut out, size, cpus);
    match out.finish() {
        Ok(()) => Ok(()),
        Err(_) => Err(Stop::NotWritten),
    }
}

/// Has something happen, and writes what is final then. Gives how many of its lines are late. Where there is no answer,
/// the listing is of no use any more.
fn follow_one<W: Sink>(
    alloc: Global,
    live: &mut LiveListing,
    happening: Happening,
    printer: &mut Printer<'_>,
    buffer: &mut TextBuffer,
    writer: &mut W,
    size: usize,
) -> Result<u64, Stop>
    requires cpu { cpu_of happening < MAX_CPUS }
    requires naming { IsSound printer.old.naming }
    requires printed { HasPrintedSome printer.old }
    requires sound { W.failed writer.old ≡ false }
    ensures naming { IsSound printer.new.naming }
    ensures printed { HasPrintedSome printer.new }
    ensures sound { OnOk result (W.failed writer.new ≡ false) }
    ensures followed { IfOk result (λ late. (said : List (Said Content))
        × Step (happening_seen happening) live.old said live.new × (late ≡ count_by is_late said)
        × PrintsAll size said printer.old (W.contents writer.old) printer.new (W.contents writer.new)
        (W.failed writer.new)) }
    ensures cut { OnErr result (CutsOne size happening live.old printer.old (W.contents writer.old) printer.new
        (W.contents writer.new) (W.failed writer.new)) }
    ensures fault { (W.failed writer.new ≡ true) ↔ (result ≡ Err Stop.NotWritten) }
{
    let mut given = Vec::new(alloc);
    happen(alloc, live, happening, &mut given)?;
    write_given(printer, buffer, writer, size, &given)
}

/// The CPU a read of whose input failed.
fn failed_cpu(happening: &Happening) -> Option<CpuId>
    ensures { result ≡ first_not_read (happening.now ∷ []) }
{
    match happening {
        Happening::NotRead(cpu) => Some(*cpu),
        _ => None,
    }
}

/// Whether a CPU is one of these.
fn has_cpu(cpus: &[CpuId], cpu: CpuId) -> bool
    ensures { result ≡ has_cpu cpus.now cpu.0 }
{
    cpus.contains(&cpu)
}

/// Whether each page of each CPU could be read.
fn are_intact(cpus: &[CpuPages]) -> bool
    ensures { result ≡ list_all (λ found. found.is_intact) cpus.now }
{
    cpus.iter().all(|found| found.is_intact)
}

/// Lists what happens with the inputs of these CPUs, whose pages have `size` bytes each, until all have ended: of each
/// record a line as soon as it is final, and before it what was lost of its CPU since the last one. The printer has
/// printed nothing yet.
pub fn follow_pages<S: Happenings, W: Sink>(
    alloc: Global,
    printer: &mut Printer<'_>,
    size: usize,
    cpus: &[CpuId],
    happenings: &mut S,
    writer: &mut W,
) -> Result<Followed, Stop>
    requires naming { IsSound printer.old.naming }
    requires printed { HasPrintedSome printer.old }
    requires sound { W.failed writer.old ≡ false }
    ensures listed { IfOk result (λ followed. FollowsAll S.gives cpus.now size happenings.old printer.old
        (W.contents writer.old) happenings.new printer.new (W.contents writer.new) followed) }
    ensures stopped { OnErr result (FollowsPart S.gives cpus.now size happenings.old printer.old
        (W.contents writer.old) printer.new (W.contents writer.new) (W.failed writer.new)) }
    ensures sound { OnOk result (W.failed writer.new ≡ false) }
    ensures fault { (W.failed writer.new ≡ true) ↔ (result ≡ Err Stop.NotWritten) }
{
    let mut live = LiveListing::new(alloc)?;
    let mut buffer = TextBuffer::new(alloc)?;
    let mut late = 0u64;
    for cpu in 0..MAX_CPUS {
        let cpu = CpuId(cpu);
        if has_cpu(cpus, cpu) {
            continue;
        }
        let happening = Happening::Ended(cpu);
        let more = follow_one(
            alloc,
            &mut live,
            happening,
            printer,
            &mut buffer,
            writer,
            size,
        )?;
        late = late.saturating_add(more);
    }
    let mut not_read = None;
    for _ in 0..u64::MAX {
        let Some(first) = live.awaited() else {
            break;
        };
        let happening = happenings.next(first)?;
        not_read = not_read.or(failed_cpu(&happening));
        let more = follow_one(
            alloc,
            &mut live,
            happening,
            printer,
            &mut buffer,
            writer,
            size,
        )?;
        late = late.saturating_add(more);
    }
    if live.awaited().is_some() {
        return Err(Stop::Numbers);
    }
    let mut given = Vec::new(alloc);
    live.rest(&mut given)?;
    let more = write_given(printer, &mut buffer, writer, size, &given)?;
    write_gaps(printer, &mut buffer, writer, size, live.cpus())?;
    Ok(Followed {
        late: late.saturating_add(more),
        is_intact: are_intact(live.cpus()),
        not_read,
    })
}
