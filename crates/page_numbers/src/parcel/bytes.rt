//! A parcel as bytes, read and written.
ghost use Rattle.std.specs.Prelude.{◌≡◌, ◌++◌, OnOk};
ghost use Rattle.trace_model.specs.Image.{le64};

use crate::fault::ParcelFault;
use crate::numbers::{NUMBERS, Numbers, check_numbers, read_numbers};
use crate::parcel::Parcel;
use page_image::{Outline, read_outline};
use std::alloc::{AllocError, Global};
use std::sync::Arc;
use trace_model::{CpuId, FillNo, NoMemory, RecordNo};

/// Puts a number after the bytes, its lowest byte first.
#[tactic(auto, unfolding(trace_model::specs::Image::le64))]
fn put_number(bytes: &mut Vec<u8>, number: u64) -> Result<(), AllocError>
    ensures { OnOk result (bytes.new.items ≡ bytes.old.items ++ le64 number) }
{
    bytes.extend_from_slice(&number.to_le_bytes())
}

impl Parcel {
    ghost use Rattle.std.specs.Prelude.{◌≡◌, ◌<◌, ◌≤◌, ◌^◌, ◌↔◌, length, IfOk, IfErr, OnOk, MatchResult};
    ghost use Rattle.trace_model.specs.Parcel.{Parcel as ParcelSeen};
    ghost use Rattle.trace_model.specs.ParcelBytes.{IsParcel, AgreesWith, DecodesParcel, ParcelCause, FirstParcelFault};
    ghost use Rattle.trace_model.specs.declared.limits.TheConstants.{MAX_CPUS, MAX_SIZE};
    ghost use Rattle.page_image.specs.Images.{missed_of, page_in, IsOutlined};
    ghost use Rattle.page_numbers.specs.Parcels.{parcel_of_page, as_parcel, IsParcelValue};
    ghost use Rattle.page_numbers.specs.Faults.{parcel_fault, IsParcelFault, HasReading, IsRefusedAs};
    ghost use Rattle.page_numbers.specs.Written.{page_under, bytes_of_page, IsWrittenAs, IsPageRead};

    /// Reads a parcel from its bytes: 32 bytes of numbers, and a page image of at most `MAX_IMAGE` bytes. Memory is
    /// asked for after all faults, for the page and for sharing it, so refused memory hides no fault.
    pub fn from_bytes(alloc: Global, bytes: &[u8]) -> Result<Parcel, ParcelFault>
        ensures reads { IfOk result (λ parcel. DecodesParcel bytes.now (as_parcel parcel)) }
        ensures page { IfOk result (λ parcel. IsPageRead bytes.now parcel.page) }
        ensures fault { (cause : ParcelCause) → (result ≡ Err (parcel_fault cause))
            ↔ FirstParcelFault bytes.now cause }
        ensures read_back { (parcel : ParcelSeen) → DecodesParcel bytes.now parcel
            → MatchResult result (λ read. as_parcel read ≡ parcel) (λ fault. fault ≡ ParcelFault.NoMemory) }
        ensures no_memory { result ≡ Err ParcelFault.NoMemory → HasReading bytes.now }
    {
        Parcel::read(alloc, bytes)
    }

    /// The parcel of the bytes, or their first fault, each fault by what it says.
    fn read(alloc: Global, bytes: &[u8]) -> Result<Parcel, ParcelFault>
        ensures reads { IfOk result (λ parcel. DecodesParcel bytes.now (as_parcel parcel)) }
        ensures page { IfOk result (λ parcel. IsPageRead bytes.now parcel.page) }
        ensures fault { IfErr result (λ fault. IsParcelFault bytes.now fault) }
    {
        let numbers = read_numbers(bytes)?;
        let cpu = numbers.cpu()?;
        let image = &bytes[NUMBERS..];
        let outline = read_outline(image)?;
        Parcel::of_image(alloc, cpu, numbers, image, outline)
    }

    /// The page of this image under the numbers before it. Memory is asked for after all faults.
    fn of_image(
        alloc: Global,
        cpu: CpuId,
        numbers: Numbers,
        image: &[u8],
        outline: Outline,
    ) -> Result<Parcel, ParcelFault>
        requires outline { IsOutlined image.now outline }
        requires cpu { cpu.0 < MAX_CPUS }
        ensures parcel { IfOk result (λ parcel. parcel ≡ record {
          cpu = cpu.0;
          missed = numbers.missed;
          page = page_under (page_in image.now outline.time outline.size) numbers;
        }) }
        ensures sound { OnOk result (IsParcel
            (parcel_of_page cpu.0 (page_under (page_in image.now outline.time outline.size) numbers) numbers.missed)) }
        ensures agrees { OnOk result (AgreesWith (missed_of outline.missed) numbers.missed) }
        ensures refused { IfErr result (λ fault. IsRefusedAs
            (parcel_of_page cpu.0 (page_under (page_in image.now outline.time outline.size) numbers) numbers.missed)
            (missed_of outline.missed) fault) }
    {
        let first = RecordNo(numbers.first);
        check_numbers(first, outline.count, numbers.missed)?;
        if !numbers.agree_with(outline.missed) {
            return Err(ParcelFault::MissedDiffers);
        }
        let page = outline.page(alloc, image)?;
        Ok(Parcel {
            cpu,
            missed: numbers.missed,
            page: Arc::new(alloc, page.numbered(first, FillNo(numbers.fill)))?,
        })
    }

    /// The parcel as bytes: its numbers, and its page's image, which states, if any records were missed, how
    /// many, or only that some were if it has no room for the number.
    pub fn to_bytes(&self, alloc: Global) -> Result<Vec<u8>, NoMemory>
        ensures written { IfOk result (λ bytes. IsWrittenAs self.now bytes.items) }
        ensures reads { IfOk result (λ bytes. DecodesParcel bytes.items (as_parcel self.now)) }
    {
        self.written(alloc)
    }

    /// The parcel as bytes, part by part.
    fn written(&self, alloc: Global) -> Result<Vec<u8>, NoMemory>
        ensures bytes { IfOk result (λ bytes. bytes.items ≡ bytes_of_page self.now.cpu self.now.page self.now.missed) }
        ensures fits { OnOk result (length self.now.page.bytes ≤ self.now.page.size) }
        ensures limit { OnOk result (self.now.page.size ≤ MAX_SIZE) }
        ensures fill { OnOk result (self.now.page.fill < 2 ^ 64) }
        ensures parcel { IsParcelValue self.now }
    {
        let image = self.page.write_image(alloc, self.missed)?;
        let mut bytes = Vec::with_capacity(alloc, NUMBERS + image.len())?;
        put_number(&mut bytes, u64::from(self.cpu.0))?;
        put_number(&mut bytes, self.page.fill().0)?;
        put_number(&mut bytes, self.page.first().0)?;
        put_number(&mut bytes, self.missed)?;
        bytes.extend_from_slice(&image)?;
        Ok(bytes)
    }
}
