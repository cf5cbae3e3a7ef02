//! What pages say besides their records.

use crate::page::{Found, Loss, find_page};
use crate::stated::Stated;
use capture::{CaptureFault, Damaged};
use page_image::{ImageFault, Missed};
use page_numbers::Parcel;
use std::alloc::Global;
use trace_model::{CpuId, RecordNo};

/// What the pages of a CPU that were read say besides their records: how far their numbers are, and what was lost.
#[derive(Drop)]
pub struct Tally {
    /// The CPU whose pages these are.
    pub cpu: CpuId,
    /// What a loss of unknown number is taken as.
    pub known: Missed,
    /// What the pages state of their losses.
    pub stated: Stated,
    /// The runs of missing numbers before the last record, each by its first and its last one.
    pub missing: Vec<(RecordNo, RecordNo)>,
    /// The numbers at which records were lost whose number isn't stated. One is counted for each.
    pub unknown: Vec<RecordNo>,
    /// The pages that can't be read.
    pub damaged: Vec<Damaged>,
    /// The number after that of the last record.
    pub from: RecordNo,
    /// How many numbers are counted so far. Those from `from` on are missing.
    pub next: RecordNo,
    /// How many pages were read.
    pub pages: u64,
}

impl Tally {
    ghost use Rattle.std.specs.Prelude.{◌≡◌, ◌<◌, [], ◌∷◌, Some, None, IfOk, OnOk};
    ghost use Rattle.trace_model.specs.declared.limits.TheConstants.{MAX_CPUS};
    ghost use Rattle.capture.specs.Pages.{Page, IsPageOf};
    ghost use Rattle.page_lines.specs.Found.{IsFound};
    ghost use Rattle.page_lines.specs.declared.page.Found.{Found};
    ghost use Rattle.page_image.specs.declared.image.Missed.{Missed as KnownMissed};
    ghost use Rattle.page_lines.specs.Stating.{StatesMore, told_by};
    ghost use Rattle.page_lines.specs.Tallies.{IsTally, AddsPage, AddsRead, HasNothing, KeepsRing};

    /// Nothing is read of a CPU.
    pub fn new(alloc: Global, cpu: CpuId, known: Missed) -> Tally
        ensures none { HasNothing cpu known result }
    {
        Tally {
            cpu,
            known,
            stated: Stated {
                unknown: 0,
                counted: 0,
            },
            missing: Vec::new(alloc),
            unknown: Vec::new(alloc),
            damaged: Vec::new(alloc),
            from: RecordNo(0),
            next: RecordNo(0),
            pages: 0,
        }
    }

    /// Adds so many records, and before them this loss. Gives the number of the first of them.
    fn add_records(&mut self, loss: Loss, count: u64) -> Result<RecordNo, CaptureFault>
        ensures ring { KeepsRing self.old self.new }
        ensures stated { self.new.stated ≡ self.old.stated }
        ensures added { IfOk result (λ first. AddsRead self.old loss count first.0 self.new) }
    {
        if loss.is_unknown {
            self.unknown.push(self.next)?;
        }
        let first = self.next.0.checked_add(loss.least);
        let first = first.ok_or(CaptureFault::Numbers)?;
        let next = first.checked_add(count).ok_or(CaptureFault::Numbers)?;
        if count > 0 {
            if self.from.0 < first {
                self.missing.push((self.from, RecordNo(first - 1)))?;
            }
            self.from = RecordNo(next);
        }
        self.next = RecordNo(next);
        Ok(RecordNo(first))
    }

    /// Adds a page that reads. Gives the number of its first record.
    fn add_read(&mut self, loss: Loss, parcel: &Parcel) -> Result<RecordNo, CaptureFault>
        ensures ring { KeepsRing self.old self.new }
        ensures stated { self.new.stated ≡ self.old.stated }
        ensures added { (page : Page) → IsFound (Found.Read loss parcel.now) page
            → IfOk result (λ first. AddsPage self.old page (Some (first, parcel.now)) self.new) }
    {
        let pages = self.pages.checked_add(1).ok_or(CaptureFault::Numbers)?;
        let first = self.add_records(loss, parcel.count())?;
        self.pages = pages;
        Ok(first)
    }

    /// Adds a page that can't be read.
    fn add_damaged(&mut self, fault: ImageFault) -> Result<(), CaptureFault>
        ensures ring { KeepsRing self.old self.new }
        ensures stated { self.new.stated ≡ self.old.stated }
        ensures added { (page : Page) → IsFound (Found.Damaged fault) page
            → OnOk result (AddsPage self.old page None self.new) }
    {
        let page = self.pages;
        let pages = page.checked_add(1).ok_or(CaptureFault::Numbers)?;
        self.damaged.push(Damaged {
            number: self.next,
            page,
            fault,
        })?;
        self.pages = pages;
        Ok(())
    }

    /// Adds one page more, which is this image. Gives its records, if it reads, and the number of the first of them.
    /// Where there is no answer, the tally is of no use.
    ///
    /// Stamps in the image are replaced by extends to the same times.
    pub fn add_page(
        &mut self,
        alloc: Global,
        image: &mut [u8],
    ) -> Result<Option<(RecordNo, Parcel)>, CaptureFault>
        requires { self.old.cpu.0 < MAX_CPUS }
        ensures ring { KeepsRing self.old self.new }
        ensures added { IfOk result (λ found. (page : Page) × IsPageOf image.old page
            × AddsPage self.old (told_by self.old.known page) found self.new
            × StatesMore self.old.stated (page ∷ []) self.new.stated) }
    {
        match find_page(alloc, self.cpu, image)? {
            Found::Read(loss, parcel) => {
                let stated = self.stated.with(loss)?;
                let first = self.add_read(loss.told(self.known), &parcel)?;
                self.stated = stated;
                Ok(Some((first, parcel)))
            }
            Found::Damaged(fault) => {
                self.add_damaged(fault)?;
                Ok(None)
            }
        }
    }
}
