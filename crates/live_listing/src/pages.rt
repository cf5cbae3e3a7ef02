//! The pages of a CPU, read one after the other.

use crate::gap::Gap;
use capture::CaptureFault;
use line_follower::{Line, Place};
use page_borrow::Entry;
use page_lines::{Found, find_page};
use page_numbers::Parcel;
use std::alloc::Global;
use std::mem;
use trace_model::{CpuId, RecordNo};

/// What is said of a record besides its place.
#[derive(Drop)]
pub struct Content {
    /// What was lost of its CPU before it.
    pub gap: Gap,
    /// Its slot: the payload, and what fills it up to whole words.
    pub bytes: Vec<u8>,
}

/// The pages of a CPU, as far as they are read.
#[derive(Drop)]
pub struct CpuPages {
    /// The CPU.
    pub cpu: CpuId,
    /// What was lost since its last record.
    pub gap: Gap,
    /// How many pages are read.
    pub pages: u64,
    /// Whether each of them could be read.
    pub is_intact: bool,
}

impl CpuPages {
    ghost use Rattle.std.specs.Prelude.{◌≡◌, ◌<◌, ◌+◌, ◌^◌, ◌++◌, IfOk, OnOk, map};
    ghost use Rattle.trace_model.specs.declared.limits.TheConstants.{MAX_CPUS};
    ghost use Rattle.page_numbers.specs.Parcels.{as_parcel};
    ghost use Rattle.capture.specs.Pages.{Page, IsPageOf};
    ghost use Rattle.page_borrow.specs.Entries.{numbered_record};
    ghost use Rattle.live_listing.specs.Gaps.{gap_seen};
    ghost use Rattle.live_listing.specs.Pages.{reached, reached_with, nothing_reached, records_read, AreLinesOf};
    ghost use Rattle.live_listing.specs.Pages.{records_behind, lost_behind, AddsLine, KeepsPages};

    /// Nothing is read of a CPU.
    pub fn new(alloc: Global, cpu: CpuId) -> CpuPages
        ensures cpu { result.cpu ≡ cpu }
        ensures nothing { reached result ≡ nothing_reached }
    {
        CpuPages {
            cpu,
            gap: Gap::none(alloc, RecordNo(0)),
            pages: 0,
            is_intact: true,
        }
    }

    /// Adds the line of the next record. What was lost before it is taken out of the gap.
    fn add_record(
        &mut self,
        alloc: Global,
        lines: &mut Vec<Line<Content>>,
        entry: Entry<'_>,
    ) -> Result<(), CaptureFault>
        ensures cpu { KeepsPages self.old self.new }
        ensures added { OnOk result (AddsLine self.old.cpu.0 (gap_seen self.old.gap)
            (numbered_record entry.entry).1 lines.old.items lines.new.items
            (gap_seen self.new.gap)) }
    {
        let number = self.gap.until;
        let next = number.0.checked_add(1).ok_or(CaptureFault::Numbers)?;
        let bytes = entry.bytes.to_vec(alloc)?;
        let gap = mem::replace(&mut self.gap, Gap::none(alloc, RecordNo(next)));
        let place = Place {
            moment: entry.moment,
            cpu: self.cpu,
            number,
        };
        let content = Content { gap, bytes };
        lines.push(Line { place, content })?;
        Ok(())
    }

    /// The lines of a parcel's records.
    fn read_records(
        &mut self,
        alloc: Global,
        parcel: &Parcel,
    ) -> Result<Vec<Line<Content>>, CaptureFault>
        ensures cpu { KeepsPages self.old self.new }
        ensures lines { IfOk result (λ lines. AreLinesOf self.old.cpu.0 lines.items
            (records_behind (gap_seen self.old.gap) (as_parcel parcel.now).records)) }
        ensures gap { OnOk result (gap_seen self.new.gap
            ≡ lost_behind (gap_seen self.old.gap) (as_parcel parcel.now).records) }
    {
        let mut lines = Vec::new(alloc);
        for entry in parcel.records() {
            self.add_record(alloc, &mut lines, entry)?;
        }
        Ok(lines)
    }

    /// Reads one page more, which is this image: the lines of its records, each with what was lost before it. Where
    /// there is no answer, what was read is of no use.
    ///
    /// Stamps in the image are replaced by extends to the same times.
    pub fn read_page(
        &mut self,
        alloc: Global,
        image: &mut [u8],
    ) -> Result<Vec<Line<Content>>, CaptureFault>
        requires { self.old.cpu.0 < MAX_CPUS }
        ensures cpu { self.new.cpu ≡ self.old.cpu }
        ensures read { IfOk result (λ lines. (page : Page) × IsPageOf image.old page
            × AreLinesOf self.old.cpu.0 lines.items (records_read (reached self.old) page)
            × (reached self.new ≡ reached_with (reached self.old) page)) }
    {
        let pages = self.pages;
        self.pages = pages.checked_add(1).ok_or(CaptureFault::Numbers)?;
        match find_page(alloc, self.cpu, image)? {
            Found::Read(loss, parcel) => {
                self.gap.add_loss(loss)?;
                self.read_records(alloc, &parcel)
            }
            Found::Damaged(fault) => {
                self.is_intact = false;
                self.gap.add_page(pages, fault)?;
                Ok(Vec::new(alloc))
            }
        }
    }
}
