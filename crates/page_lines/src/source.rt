//! A source of the lines of a CPU's pages.
ghost use Rattle.std.specs.Prelude.{◌≡◌, ◌≢◌, ◌↔◌, ◌<◌, ◌≤◌, [], false, true, Err, length, IfOk, OnOk};
ghost use Rattle.std.specs.Io.KnownBytes.{IsAtEnd};
ghost use Rattle.trace_model.specs.declared.limits.TheConstants.{MAX_CPUS};
ghost use Rattle.page_lines.specs.Sources.{AddsImage, ReadsNext};
ghost use Rattle.page_lines.specs.declared.source.Halt.{Halt};
ghost use Rattle.page_lines.specs.declared.source.Halt.TheVariants.{NotRead as NotReadIs};

use crate::at_hand::AtHand;
use crate::tally::Tally;
use capture::{CaptureFault, smaller_in};
use command_io::{Source, fill_piece};
use page_image::Missed;
use std::alloc::Global;
use std::marker::Model;
use time_merge::{Line, LineSource, Stopped};
use trace_dat::resembles_trace_dat;
use trace_model::{CpuId, Moment, NoMemory};

/// Why the lines of a CPU's pages can't be given one after the other.
#[derive(Clone, Copy, Debug, PartialEq, Eq)]
pub enum Halt {
    /// A read failed.
    NotRead,
    /// The first bytes are those of a file of trace-cmd.
    NotRaw,
    /// A page shows that the pages are smaller.
    SmallerPages,
    /// The moment of a record is before that of the record before it.
    Falls,
    /// The number of a record, or of pages or lines, would be above 2^64 - 1.
    Numbers,
    /// Memory was refused.
    NoMemory,
}

impl From<CaptureFault> for Halt {
    ghost from_gives = { λ _ halt. halt ≢ NotReadIs };

    fn from(fault: CaptureFault) -> Halt {
        match fault {
            CaptureFault::Numbers => Halt::Numbers,
            CaptureFault::NoMemory => Halt::NoMemory,
        }
    }
}

/// The lines of a CPU's raw pages, which are read from a source one after the other.
#[derive(Drop)]
pub struct PageLines<R: Source + Drop> {
    alloc: Global,
    reader: R,
    /// Room for a page.
    piece: Vec<u8>,
    /// Whether the last page is read.
    is_last: bool,
    /// How many bytes are read.
    taken: u64,
    tally: Tally,
    at_hand: AtHand,
    halt: Option<Halt>,
    /// How many lines are passed at most.
    turns: u64,
}

impl<R: Source + Drop> Model for PageLines<R> {
    ghost use Rattle.std.specs.Prelude.{◌≡◌, ◌<◌, ◌⊎◌, None, false, true, [], length};
    ghost use Rattle.std.specs.Io.KnownBytes.{IsAtEnd};
    ghost use Rattle.trace_model.specs.declared.limits.TheConstants.{MAX_CPUS};
    ghost use Rattle.page_lines.specs.Sources.{Reading};

    ghost Value = { Reading R };

    ghost view = { λ s. record {
      reader = s.reader;
      size = length s.piece.items;
      is_last = s.is_last;
      taken = s.taken;
      tally = s.tally;
      left = s.at_hand;
      halt = s.halt;
      turns = s.turns;
    } };

    ghost invariant = { λ s. (0 < length s.piece.items) × (s.tally.cpu.0 < MAX_CPUS)
        × (s.halt ≡ None → R.failed s.reader ≡ false) × (s.is_last ≡ true → IsAtEnd (R.remaining s.reader))
        × ((s.halt ≡ None) ⊎ (s.at_hand ≡ [])) };
}

/// Reads a page, of which no line is at hand.
fn read_image(
    alloc: Global,
    page: &mut [u8],
    tally: &mut Tally,
    at_hand: &mut AtHand,
) -> Result<(), Halt>
    requires cpu { tally.old.cpu.0 < MAX_CPUS }
    requires none { at_hand.old ≡ [] }
    ensures cpu { tally.new.cpu ≡ tally.old.cpu }
    ensures read { OnOk result (AddsImage page.old tally.old tally.new at_hand.new) }
    ensures fault { result ≢ Err Halt.NotRead }
{
    if resembles_trace_dat(page) {
        return Err(Halt::NotRaw);
    }
    if smaller_in(page).is_some() {
        return Err(Halt::SmallerPages);
    }
    if let Some((first, parcel)) = tally.add_page(alloc, page)? {
        at_hand.fill(tally.cpu, first, &parcel)?;
    }
    Ok(())
}

/// Reads a page more of a source, if there is one, into a piece that is as long as a page. Gives how many bytes it has:
/// fewer than there is room for only if the source is at its end.
fn read_next<R: Source>(
    alloc: Global,
    reader: &mut R,
    piece: &mut [u8],
    tally: &mut Tally,
    at_hand: &mut AtHand,
) -> Result<usize, Halt>
    requires some { 0 < length piece.old }
    requires cpu { tally.old.cpu.0 < MAX_CPUS }
    requires none { at_hand.old ≡ [] }
    requires sound { R.failed reader.old ≡ false }
    ensures cpu { tally.new.cpu ≡ tally.old.cpu }
    ensures read { IfOk result (λ count. ReadsNext (length piece.old) (R.remaining reader.old) (R.remaining reader.new)
        tally.old count tally.new at_hand.new) }
    ensures bound { IfOk result (λ count. count ≤ length piece.old) }
    ensures end { IfOk result (λ count. count < length piece.old → IsAtEnd (R.remaining reader.new)) }
    ensures fault { (R.failed reader.new ≡ true) ↔ (result ≡ Err Halt.NotRead) }
{
    let Ok(count) = fill_piece(reader, piece) else {
        return Err(Halt::NotRead);
    };
    if count > 0 {
        read_image(alloc, &mut piece[..count], tally, at_hand)?;
    }
    Ok(count)
}

impl<R: Source + Drop> PageLines<R> {
    ghost use Rattle.std.specs.Io.KnownBytes.{IsAtEnd};
    ghost use Rattle.std.specs.Prelude.{◌≡◌, ◌<◌, ◌^◌, [], ◌∷◌, true, false, None, Some, IfOk, OnOk};
    ghost use Rattle.trace_model.specs.declared.limits.TheConstants.{MAX_CPUS};
    ghost use Rattle.trace_model.specs.Listing.{Line as ModelLine};
    ghost use Rattle.time_merge.specs.Heads.{first_in};
    ghost use Rattle.page_lines.specs.Sources.{Reading, Passes, PassesLine, IsFresh, IsHalted, IsNotAfter};

    /// Reads one page more. No line is left before.
    fn read_page(&mut self) -> Result<(), Halt>
        requires more { self.old.is_last ≡ false }
        requires none { self.old.left ≡ [] }
        requires goes { self.old.halt ≡ None }
        ensures read { OnOk result (Passes R.remaining self.old [] self.new) }
        ensures goes { OnOk result (self.new.halt ≡ None) }
        ensures turns { self.new.turns ≡ self.old.turns }
    {
        let piece = self.piece.as_mut_slice();
        let read = read_next(
            self.alloc,
            &mut self.reader,
            piece,
            &mut self.tally,
            &mut self.at_hand,
        );
        match read {
            Ok(count) => {
                self.is_last = count < self.piece.len();
                let taken = self.taken.checked_add(count as u64);
                self.taken = taken.ok_or(Halt::Numbers)?;
                Ok(())
            }
            Err(halt) => {
                self.at_hand.clear();
                self.halt = Some(halt);
                Err(halt)
            }
        }
    }

    /// Reads on until a line is left or the last page is read.
    fn go_on(&mut self) -> Result<(), Halt>
        requires goes { self.old.halt ≡ None }
        ensures read { OnOk result (Passes R.remaining self.old [] self.new) }
        ensures goes { OnOk result (self.new.halt ≡ None) }
        ensures turns { self.new.turns ≡ self.old.turns }
        ensures more { OnOk result (self.new.left ≡ [] → self.new.is_last ≡ true) }
    {
        for _ in 0..u64::MAX {
            if self.is_last || self.at_hand.first().is_some() {
                return Ok(());
            }
            self.read_page()?;
        }
        Err(Halt::Numbers)
    }

    /// Whether the line at hand is before this moment.
    fn is_before(&self, moment: Moment) -> bool
        ensures { result ≡ false → IsNotAfter moment.0 (first_in self.now.left) }
    {
        match self.at_hand.first() {
            Some(line) => line.moment < moment,
            None => false,
        }
    }

    /// Passes the line at hand, which is of this moment.
    fn pass(&mut self, moment: Moment) -> Result<(), Halt>
        requires goes { self.old.halt ≡ None }
        ensures passed { OnOk result ((line : ModelLine) → first_in self.old.left ≡ Some line
            → line.moment ≡ moment.0 → PassesLine R.remaining self.old line self.new) }
        ensures turns { OnOk result (self.new.turns < self.old.turns) }
    {
        self.turns = self.turns.checked_sub(1).ok_or(Halt::Numbers)?;
        self.at_hand.pass();
        self.go_on()?;
        if self.is_before(moment) {
            return Err(Halt::Falls);
        }
        Ok(())
    }

    /// Can't go on.
    fn stop(&mut self, halt: Halt)
        ensures halt { self.new.halt ≡ Some halt }
        ensures none { self.new.left ≡ [] }
    {
        self.at_hand.clear();
        self.halt = Some(halt);
    }

    /// Nothing is read yet.
    fn fresh(
        alloc: Global,
        cpu: CpuId,
        size: usize,
        known: Missed,
        reader: R,
    ) -> Result<PageLines<R>, NoMemory>
        requires cpu { cpu.0 < MAX_CPUS }
        requires some { 0 < size }
        requires sound { R.failed reader ≡ false }
        ensures fresh { IfOk result (λ source. IsFresh cpu reader size known source) }
        ensures goes { IfOk result (λ source. source.halt ≡ None) }
    {
        Ok(PageLines {
            alloc,
            reader,
            piece: vec![in alloc; 0u8; size]?,
            is_last: false,
            taken: 0,
            tally: Tally::new(alloc, cpu, known),
            at_hand: AtHand::none(alloc, cpu),
            halt: None,
            turns: u64::MAX,
        })
    }

    /// The lines of the pages of this CPU, `size` bytes each but for the last one, which may be shorter, that a source
    /// has. A loss of unknown number is taken as `known`. The source is read up to the first page that has records.
    pub fn open(
        alloc: Global,
        cpu: CpuId,
        size: usize,
        known: Missed,
        reader: R,
    ) -> Result<PageLines<R>, NoMemory>
        requires cpu { cpu.0 < MAX_CPUS }
        requires some { 0 < size }
        requires sound { R.failed reader ≡ false }
        ensures { IfOk result (λ source. source.halt ≡ None → (fresh : Reading R)
            × IsFresh cpu reader size known fresh × Passes R.remaining fresh [] source) }
    {
        let mut source = PageLines::fresh(alloc, cpu, size, known, reader)?;
        match source.go_on() {
            Ok(()) => Ok(source),
            Err(halt) => {
                source.stop(halt);
                Ok(source)
            }
        }
    }

    /// Why it can't go on, if it can't.
    pub fn halt(&self) -> Option<Halt>
        ensures halt { result ≡ self.now.halt }
        ensures sound { result ≡ None → R.failed self.now.reader ≡ false }
    {
        self.halt
    }

    /// Whether all pages are read.
    pub fn is_at_end(&self) -> bool
        ensures last { result ≡ self.now.is_last }
        ensures end { result ≡ true → IsAtEnd (R.remaining self.now.reader) }
    {
        self.is_last
    }

    /// How many bytes are read.
    pub fn taken(&self) -> u64
        ensures taken { result ≡ self.now.taken }
        ensures fits { self.now.taken < 2 ^ 64 }
    {
        self.taken
    }

    /// What the pages that are read say besides their records.
    pub fn tally(&self) -> &Tally
        ensures tally { result.now ≡ self.now.tally }
        ensures cpu { self.now.tally.cpu.0 < MAX_CPUS }
    {
        &self.tally
    }

    /// What it reads from.
    pub fn into_reader(self) -> R
        ensures { result ≡ self.reader }
    {
        self.reader
    }
}

impl<R: Source + Drop> LineSource for PageLines<R> {
    ghost use Rattle.time_merge.specs.Heads.{first_in};
    ghost use Rattle.page_lines.specs.Sources.{PassesLine, IsHalted};

    ghost head = { λ s. first_in s.left };

    ghost passes = { λ s line t. PassesLine R.remaining s line t };

    ghost stopped = { λ s. IsHalted s };

    ghost turns = { λ s. s.turns };

    #[inline(always)]
    fn first(&self) -> Option<Line<'_>> {
        self.at_hand.first()
    }

    fn advance(&mut self) -> Result<(), Stopped> {
        let moment = match self.at_hand.first() {
            Some(line) => line.moment,
            None => return Ok(()),
        };
        match self.pass(moment) {
            Ok(()) => Ok(()),
            Err(halt) => {
                self.stop(halt);
                Err(Stopped)
            }
        }
    }
}
