//! A parcel, and what it states.
mod bytes;

use crate::fault::ParcelFault;
use crate::numbers::check_numbers;
use page_borrow::{Records, records};
use page_image::Page;
use std::alloc::Global;
use std::marker::Model;
use std::sync::Arc;
use trace_model::{CpuId, FillNo, MAX_CPUS, NoMemory, RecordNo};

/// A taken page, shared: the records of one fill of a CPU under their numbers, and how many numbers are missing before
/// them, those between the last record taken before and the first one of this page.
///
/// ```
/// let parcel = Parcel::of(rt.alloc(), CpuId(0), page, 1)?;
/// let bytes = parcel.to_bytes(rt.alloc())?;
/// let again = Parcel::from_bytes(rt.alloc(), &bytes)?;
/// assert!(rt; again.has_page_of(&parcel));
/// ```
#[derive(Debug, Drop)]
pub struct Parcel {
    cpu: CpuId,
    missed: u64,
    page: Arc<Page, Global>,
}

impl Model for Parcel {
    ghost use Rattle.page_numbers.specs.Parcels.{ParcelValue, IsParcelValue};

    ghost Value = { ParcelValue };

    ghost view = { λ p. record { cpu = p.cpu.0; missed = p.missed; page = p.page.value } };

    ghost invariant = { λ p. IsParcelValue (record { cpu = p.cpu.0; missed = p.missed; page = p.page.value }) };
}

impl Parcel {
    ghost use Rattle.std.specs.Prelude.{◌≡◌, ◌+◌, ◌^◌, ◌<◌, ◌≤◌, ◌↔◌, IsTrue, length, IfOk, IfErr, OnOk};
    ghost use Rattle.trace_model.specs.ParcelBytes.{IsParcel};
    ghost use Rattle.trace_model.specs.declared.limits.TheConstants.{MAX_CPUS};
    ghost use Rattle.page_image.specs.Contents.{IsPage, records_of_page};
    ghost use Rattle.page_borrow.specs.Entries.{AllStandInPage};
    ghost use Rattle.page_numbers.specs.Parcels.{parcel_of_page, as_parcel, fitted_parcel, entries_of_parcel, AreAlike};
    ghost use Rattle.page_numbers.specs.Parcels.{HaveSameRecords};
    ghost use Rattle.page_numbers.specs.Faults.{IsRefused, NumbersOverflow, MissesTooMany};

    /// The page as a parcel of this CPU, with `missed` numbers missing before its records. If it is refused, the
    /// page is dropped.
    pub fn of(alloc: Global, cpu: CpuId, page: Page, missed: u64) -> Result<Parcel, ParcelFault>
        requires page { IsPage page }
        ensures parcel { IfOk result (λ parcel. parcel ≡ record { cpu = cpu.0; missed = missed; page = page }) }
        ensures sound { OnOk result (IsParcel (parcel_of_page cpu.0 page missed)) }
        ensures is_bad_cpu { (result ≡ Err ParcelFault.BadCpu) ↔ (MAX_CPUS ≤ cpu.0) }
        ensures overflows { (result ≡ Err ParcelFault.NumberOverflow)
            ↔ NumbersOverflow (parcel_of_page cpu.0 page missed) }
        ensures misses_too_many { (result ≡ Err ParcelFault.MissedTooMany)
            ↔ MissesTooMany (parcel_of_page cpu.0 page missed) }
        ensures refused { IfErr result (λ fault. IsRefused (parcel_of_page cpu.0 page missed) fault) }
    {
        Parcel::checked(alloc, cpu, page, missed)
    }

    /// `of`, with what each fault says in one clause.
    fn checked(alloc: Global, cpu: CpuId, page: Page, missed: u64) -> Result<Parcel, ParcelFault>
        requires page { IsPage page }
        ensures parcel { IfOk result (λ parcel. parcel ≡ record { cpu = cpu.0; missed = missed; page = page }) }
        ensures sound { OnOk result (IsParcel (parcel_of_page cpu.0 page missed)) }
        ensures refused { IfErr result (λ fault. IsRefused (parcel_of_page cpu.0 page missed) fault) }
    {
        if cpu.0 >= MAX_CPUS {
            return Err(ParcelFault::BadCpu);
        }
        check_numbers(page.first(), page.count(), missed)?;
        Ok(Parcel {
            cpu,
            missed,
            page: Arc::new(alloc, page)?,
        })
    }

    /// A copy of the page as a parcel of this CPU, with `missed` numbers missing before its records. The copy is as
    /// long as the page's data, so it has no room that isn't used.
    pub fn fitted(alloc: Global, cpu: CpuId, page: &Page, missed: u64) -> Result<Parcel, NoMemory>
        requires page { IsPage page.now }
        requires cpu { cpu.0 < MAX_CPUS }
        requires numbers { page.now.first + length (records_of_page page.now) < 2 ^ 64 }
        requires missed { missed ≤ page.now.first }
        ensures { IfOk result (λ parcel. parcel ≡ fitted_parcel cpu.0 page.now missed) }
    {
        Ok(Parcel {
            cpu,
            missed,
            page: Arc::new(alloc, page.fitted(alloc)?)?,
        })
    }

    /// A copy of the parcel, with a page of its own that is as long as its data, so that no room in it is unused.
    pub fn trimmed(&self, alloc: Global) -> Result<Parcel, NoMemory>
        ensures { IfOk result (λ parcel. parcel ≡ fitted_parcel self.now.cpu self.now.page self.now.missed) }
    {
        Parcel::fitted(alloc, self.cpu, &self.page, self.missed)
    }

    /// The CPU whose records these are.
    pub fn cpu(&self) -> CpuId
        ensures cpu { result.0 ≡ self.now.cpu }
        ensures known { result.0 < MAX_CPUS }
    {
        self.cpu
    }

    /// Which fill of its CPU's ring the page was.
    pub fn fill(&self) -> FillNo
        ensures { result.0 ≡ self.now.page.fill }
    {
        self.page.fill()
    }

    /// The number of the first record.
    pub fn first(&self) -> RecordNo
        ensures first { result.0 ≡ self.now.page.first }
        ensures numbers { result.0 + length (records_of_page self.now.page) < 2 ^ 64 }
    {
        self.page.first()
    }

    /// How many records it has.
    pub fn count(&self) -> u64
        ensures { result ≡ length (records_of_page self.now.page) }
    {
        self.page.count()
    }

    /// How many numbers are missing before the first record's.
    pub fn missed(&self) -> u64
        ensures missed { result ≡ self.now.missed }
        ensures in_front { result ≤ self.now.page.first }
    {
        self.missed
    }

    /// The records in their order, numbered from the first number on, each with its bytes in place.
    pub fn records(&self) -> Records<'_>
        ensures entries { result ≡ entries_of_parcel (as_parcel self.now) }
        ensures own_bytes { AllStandInPage self.now.page result }
    {
        records(&self.page)
    }

    /// Whether both parcels' pages are alike: they have the same first number, time and data. Then the parcels have
    /// the same records under the same numbers. Pages that aren't alike may have the same records too.
    pub fn has_page_of(&self, other: &Parcel) -> bool
        ensures pages { IsTrue result ↔ AreAlike self.now.page other.now.page }
        ensures records { IsTrue result → HaveSameRecords (as_parcel self.now) (as_parcel other.now) }
    {
        self.first() == other.first() && self.page.has_data_of(&other.page)
    }

    /// How many parcels have this very page, with this one: those of which one is `share` of another. Others may be
    /// made or dropped by other threads meanwhile.
    pub fn sharers(&self) -> usize
        ensures { 0 < result }
    {
        Arc::strong_count(&self.page)
    }

    /// The parcel once more, of the same page. No byte of it is copied.
    pub fn share(&self) -> Result<Parcel, NoMemory>
        ensures { IfOk result (λ parcel. parcel ≡ self.now) }
    {
        Ok(Parcel {
            cpu: self.cpu,
            missed: self.missed,
            page: Arc::try_clone(&self.page)?,
        })
    }
}
