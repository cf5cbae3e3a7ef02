//! The pages of a capture, read one after the other.
ghost use Rattle.std.specs.Prelude.{◌≡◌, ◌≢◌, ◌+◌, ◌^◌, ◌<◌, ◌≤◌, List, [], ◌∷◌, ◌++◌, Err, IfOk, OnOk};
ghost use Rattle.trace_model.specs.Image.{ImageCause};
ghost use Rattle.trace_model.specs.declared.limits.TheConstants.{MAX_CPUS};
ghost use Rattle.page_image.specs.Contents.{IsPage};
ghost use Rattle.page_image.specs.Images.{missed_of};
ghost use Rattle.page_numbers.specs.Faults.{image_fault};
ghost use Rattle.page_numbers.specs.Parcels.{as_parcel};
ghost use Rattle.capture.specs.Pages.{Page, intact, damaged, loss_stated, told_of, least_missed, parcel_at, behind};
ghost use Rattle.capture.specs.Pages.{unknown_at};
ghost use Rattle.capture.specs.Captures.{page_read, numbers_of};
ghost use Rattle.capture.specs.declared.pages.CaptureFault.TheVariants.{NoMemory as MemoryIs};

use crate::stamps::restore_stamps;
use page_image::{Image, ImageFault, Missed, read_image};
use page_numbers::{Parcel, ParcelFault};
use std::alloc::{AllocError, AllocFailed, Global};
use trace_model::{CpuId, FillNo, RecordNo};

/// Why a capture can't be read on.
#[derive(Clone, Copy, Debug, PartialEq, Eq)]
pub enum CaptureFault {
    /// The number of a record, or of pages, would be above 2^64 - 1.
    Numbers,
    /// Memory was refused.
    NoMemory,
}

impl<T: Drop> From<AllocFailed<T>> for CaptureFault {
    ghost from_gives = { λ _ e. e ≡ MemoryIs };

    fn from(_refused: AllocFailed<T>) -> CaptureFault {
        CaptureFault::NoMemory
    }
}

impl From<AllocError> for CaptureFault {
    ghost from_gives = { λ _ e. e ≡ MemoryIs };

    fn from(_refused: AllocError) -> CaptureFault {
        CaptureFault::NoMemory
    }
}

/// A page of a capture that can't be read.
#[derive(Clone, Copy, Debug, PartialEq, Eq)]
pub struct Damaged {
    /// How many numbers are before it. A loss that the next page states comes after them.
    pub number: RecordNo,
    /// How many pages are before it in the capture.
    pub page: u64,
    /// Its first fault.
    pub fault: ImageFault,
}

/// The capture of a CPU, as far as it is read.
#[derive(Debug, Drop)]
pub struct Capture {
    /// The CPU whose pages these are.
    pub cpu: CpuId,
    /// A parcel for each page that reads. Its fill is the number of pages before it.
    pub parcels: Vec<Parcel>,
    /// The numbers at which records were lost whose number isn't stated. One is counted for each.
    pub unknown: Vec<RecordNo>,
    /// The pages that can't be read.
    pub damaged: Vec<Damaged>,
    /// How many numbers are counted so far. A loss that the next page states comes after them.
    pub next: RecordNo,
    /// How many pages are read.
    pub pages: u64,
}

/// How many records were lost at least.
fn least_missed(missed: Missed) -> u64
    ensures { result ≡ least_missed (missed_of missed) }
{
    match missed {
        Missed::None => 0,
        Missed::Unknown => 1,
        Missed::Count(events) => events,
    }
}

/// What an image says of a loss: a count of 2^64 - 1, which trace-cmd writes, is none.
fn loss_stated(missed: Missed) -> Missed
    ensures { missed_of result ≡ loss_stated (missed_of missed) }
{
    match missed {
        Missed::Count(u64::MAX) => Missed::Unknown,
        stated => stated,
    }
}

/// What is known of a loss, if one of unknown number is `unknown`.
fn told(unknown: Missed, missed: Missed) -> Missed
    ensures { missed_of result ≡ told_of (missed_of unknown) (missed_of missed) }
{
    match missed {
        Missed::Unknown => unknown,
        stated => stated,
    }
}

/// Why there is no parcel: its numbers don't fit, unless memory was refused.
fn fault_of(fault: ParcelFault) -> CaptureFault
    ensures { result ≡ CaptureFault.Numbers → fault ≢ ParcelFault.NoMemory }
{
    match fault {
        ParcelFault::NoMemory => CaptureFault::NoMemory,
        _ => CaptureFault::Numbers,
    }
}

/// Adds the number at which records were lost, if it isn't stated how many.
fn add_unknown(
    unknown: &mut Vec<RecordNo>,
    next: RecordNo,
    missed: Missed,
) -> Result<(), CaptureFault>
    ensures added { OnOk result (numbers_of unknown.new.items
        ≡ numbers_of unknown.old.items ++ unknown_at next.0 (missed_of missed)) }
    ensures no_numbers { result ≢ Err CaptureFault.Numbers }
{
    if missed == Missed::Unknown {
        unknown.push(next)?;
    }
    Ok(())
}

/// The page as a parcel, if `next` numbers are before it.
fn number_page(
    alloc: Global,
    cpu: CpuId,
    fill: u64,
    next: RecordNo,
    image: Image,
) -> Result<Parcel, CaptureFault>
    requires cpu { cpu.0 < MAX_CPUS }
    requires page { IsPage image.page }
    ensures parcel { IfOk result (λ parcel. as_parcel parcel ≡ parcel_at cpu.0 fill next.0 (page_read image)) }
    ensures fits { OnOk result (behind next.0 (intact (page_read image)) < 2 ^ 64) }
    ensures numbers { result ≡ Err CaptureFault.Numbers → 2 ^ 64 ≤ behind next.0 (intact (page_read image)) }
{
    let missed = least_missed(image.missed);
    let Some(first) = next.0.checked_add(missed) else {
        return Err(CaptureFault::Numbers);
    };
    let page = image.page.numbered(RecordNo(first), FillNo(fill));
    match Parcel::of(alloc, cpu, page, missed) {
        Ok(parcel) => Ok(parcel),
        Err(fault) => Err(fault_of(fault)),
    }
}

impl Capture {
    ghost use Rattle.std.specs.Prelude.{◌≡◌, ◌<◌, List, [], ◌∷◌, ◌++◌, length, Err, IfOk, OnOk};
    ghost use Rattle.trace_model.specs.Image.{ImageCause};
    ghost use Rattle.trace_model.specs.declared.limits.TheConstants.{MAX_CPUS};
    ghost use Rattle.page_image.specs.Contents.{IsPage};
    ghost use Rattle.page_image.specs.Images.{missed_of};
    ghost use Rattle.page_numbers.specs.Faults.{image_fault};
    ghost use Rattle.capture.specs.Pages.{Page, intact, damaged, Fit};
    ghost use Rattle.capture.specs.Captures.{page_read, IsCapture, AddsPage, AddsRest, PassesNumbers, AddsPages};
    ghost use Rattle.capture.specs.Captures.{PassesWithin};

    /// A capture of which nothing is read.
    pub fn new(alloc: Global, cpu: CpuId) -> Capture
        ensures cpu { result.cpu ≡ cpu }
        ensures none { IsCapture result [] }
    {
        Capture {
            cpu,
            parcels: Vec::new(alloc),
            unknown: Vec::new(alloc),
            damaged: Vec::new(alloc),
            next: RecordNo(0),
            pages: 0,
        }
    }

    /// Counts a page that was read.
    fn count_page(&mut self) -> Result<(), CaptureFault>
        ensures cpu { self.new.cpu ≡ self.old.cpu }
        ensures counted { OnOk result (self.new ≡ record self.old { pages = self.old.pages + 1 }) }
        ensures fits { OnOk result (self.old.pages + 1 < 2 ^ 64) }
        ensures past { result ≡ Err CaptureFault.Numbers → 2 ^ 64 ≤ self.old.pages + 1 }
    {
        self.pages = self.pages.checked_add(1).ok_or(CaptureFault::Numbers)?;
        Ok(())
    }

    /// Adds a page that reads.
    fn add_image(&mut self, alloc: Global, image: Image) -> Result<(), CaptureFault>
        requires cpu { self.old.cpu.0 < MAX_CPUS }
        requires page { IsPage image.page }
        ensures cpu { self.new.cpu ≡ self.old.cpu }
        ensures read { (pages : List Page) → IsCapture self.old pages
            → OnOk result (IsCapture self.new (pages ++ intact (page_read image) ∷ [])) }
        ensures numbers { (pages : List Page) → IsCapture self.old pages → result ≡ Err CaptureFault.Numbers
            → Fit (pages ++ intact (page_read image) ∷ []) → ⊥ }
    {
        let missed = image.missed;
        let parcel = number_page(alloc, self.cpu, self.pages, self.next, image)?;
        add_unknown(&mut self.unknown, self.next, missed)?;
        self.next = RecordNo(parcel.first().0 + parcel.count());
        self.parcels.push(parcel)?;
        self.count_page()
    }

    /// Adds a page that can't be read.
    fn add_damaged(&mut self, fault: ImageFault) -> Result<(), CaptureFault>
        ensures cpu { self.new.cpu ≡ self.old.cpu }
        ensures read { (pages : List Page) (cause : ImageCause) → IsCapture self.old pages → fault ≡ image_fault cause
            → OnOk result (IsCapture self.new (pages ++ damaged cause ∷ [])) }
        ensures numbers { (pages : List Page) (cause : ImageCause) → IsCapture self.old pages
            → result ≡ Err CaptureFault.Numbers → Fit (pages ++ damaged cause ∷ []) → ⊥ }
    {
        self.damaged.push(Damaged {
            number: self.next,
            page: self.pages,
            fault,
        })?;
        self.count_page()
    }

    /// Reads one page more, which is this image. Where there is no answer, the capture is of no use.
    ///
    /// A loss of unknown number is taken as `unknown`: still unknown, or a count. Stamps in the image are replaced by
    /// extends to the same times.
    pub fn add_page(
        &mut self,
        alloc: Global,
        image: &mut [u8],
        unknown: Missed,
    ) -> Result<(), CaptureFault>
        requires { self.old.cpu.0 < MAX_CPUS }
        ensures cpu { self.new.cpu ≡ self.old.cpu }
        ensures read { (pages : List Page) → IsCapture self.old pages
            → OnOk result (AddsPage (missed_of unknown) image.old pages self.new) }
        ensures numbers { (pages : List Page) → IsCapture self.old pages → result ≡ Err CaptureFault.Numbers
            → PassesNumbers (missed_of unknown) image.old pages }
    {
        restore_stamps(image);
        match read_image(alloc, image) {
            Ok(mut image) => {
                image.missed = told(unknown, loss_stated(image.missed));
                self.add_image(alloc, image)
            }
            Err(ImageFault::NoMemory) => Err(CaptureFault::NoMemory),
            Err(fault) => self.add_damaged(fault),
        }
    }

    /// Reads what is left of the capture's bytes after whole pages: nothing, or a last page.
    pub fn add_rest(
        &mut self,
        alloc: Global,
        rest: &mut [u8],
        unknown: Missed,
    ) -> Result<(), CaptureFault>
        requires { self.old.cpu.0 < MAX_CPUS }
        ensures cpu { self.new.cpu ≡ self.old.cpu }
        ensures read { (pages : List Page) → IsCapture self.old pages
            → OnOk result (AddsRest (missed_of unknown) rest.old pages self.new) }
        ensures numbers { (pages : List Page) → IsCapture self.old pages → result ≡ Err CaptureFault.Numbers
            → (0 < length rest.old) × PassesNumbers (missed_of unknown) rest.old pages }
    {
        if rest.is_empty() {
            return Ok(());
        }
        self.add_page(alloc, rest, unknown)
    }

    /// Reads one page more, which stays as it is.
    fn add_copy(&mut self, alloc: Global, page: &[u8], unknown: Missed) -> Result<(), CaptureFault>
        requires { self.old.cpu.0 < MAX_CPUS }
        ensures cpu { self.new.cpu ≡ self.old.cpu }
        ensures read { (pages : List Page) → IsCapture self.old pages
            → OnOk result (AddsRest (missed_of unknown) page.now pages self.new) }
        ensures numbers { (pages : List Page) → IsCapture self.old pages → result ≡ Err CaptureFault.Numbers
            → (0 < length page.now) × PassesNumbers (missed_of unknown) page.now pages }
    {
        let mut copy = page.to_vec(alloc)?;
        self.add_rest(alloc, copy.as_mut_slice(), unknown)
    }

    /// Reads pages more, which lie in memory: each has `size` bytes, but for the last one, which may be shorter. Of
    /// the bytes one page at a time is copied. Where there is no answer, the capture is of no use.
    ///
    /// A loss of unknown number is taken as `unknown`.
    pub fn add_bytes(
        &mut self,
        alloc: Global,
        size: usize,
        bytes: &[u8],
        unknown: Missed,
    ) -> Result<(), CaptureFault>
        requires cpu { self.old.cpu.0 < MAX_CPUS }
        requires some { 0 < size }
        ensures cpu { self.new.cpu ≡ self.old.cpu }
        ensures read { (pages : List Page) → IsCapture self.old pages
            → OnOk result (AddsPages size (missed_of unknown) bytes.now pages self.new) }
        ensures numbers { (pages : List Page) → IsCapture self.old pages → result ≡ Err CaptureFault.Numbers
            → PassesWithin size (missed_of unknown) bytes.now pages }
    {
        let mut rest = bytes;
        while size <= rest.len() {
            let (page, behind) = rest.split_at(size);
            self.add_copy(alloc, page, unknown)?;
            rest = behind;
        }
        self.add_copy(alloc, rest, unknown)
    }
}
