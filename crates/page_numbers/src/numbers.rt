//! The numbers before the image of a parcel.
ghost use Rattle.std.specs.Prelude.{◌≡◌, ◌+◌, ◌≤◌, ◌<◌, ◌^◌, length, drop, IfOk, IfErr, IsTrue, OnOk, OnErr, ◌↔◌};
ghost use Rattle.trace_model.specs.Image.{Missed as MissedReported};
ghost use Rattle.trace_model.specs.Parcel.{Parcel as ParcelSeen};
ghost use Rattle.trace_model.specs.ParcelBytes.{HasNumbers, AgreesWith};
ghost use Rattle.trace_model.specs.declared.limits.TheConstants.{MAX_CPUS};
ghost use Rattle.page_image.specs.Images.{missed_of};
ghost use Rattle.page_numbers.specs.Faults.{IsRefused, IsRefusedAs};

use crate::fault::ParcelFault;
use page_image::{ImageFault, Missed, number_at};
use trace_model::{CpuId, MAX_CPUS, RecordNo};

/// How many bytes the four numbers take.
pub(crate) const NUMBERS: usize = 32;

/// The fewest bytes of a parcel: its numbers, and an image without data.
const MIN_PARCEL: usize = 48;

/// The numbers of a parcel, as they are in its bytes.
#[derive(Clone, Copy)]
pub(crate) struct Numbers {
    cpu: u64,
    pub(crate) fill: u64,
    pub(crate) first: u64,
    pub(crate) missed: u64,
}

/// Looks whether `count` records from this number on, and the number after them, fit 64 bits, and whether there are
/// `missed` numbers before it.
pub(crate) fn check_numbers(first: RecordNo, count: u64, missed: u64) -> Result<(), ParcelFault>
    ensures numbers { OnOk result (first.0 + count < 2 ^ 64) }
    ensures missed { OnOk result (missed ≤ first.0) }
    ensures refused { IfErr result (λ fault. (parcel : ParcelSeen) (reported : MissedReported) → parcel.cpu < MAX_CPUS
        → parcel.first ≡ first.0 → length parcel.records ≡ count → parcel.missed ≡ missed
        → IsRefused parcel fault × IsRefusedAs parcel reported fault) }
{
    if first.0.checked_add(count).is_none() {
        return Err(ParcelFault::NumberOverflow);
    }
    if missed > first.0 {
        return Err(ParcelFault::MissedTooMany);
    }
    Ok(())
}

/// Reads the numbers of a parcel that has at least an image's header after them.
pub(crate) fn read_numbers(bytes: &[u8]) -> Result<Numbers, ParcelFault>
    ensures numbers { IfOk result (λ numbers. HasNumbers bytes.now numbers.cpu numbers.fill numbers.first
        numbers.missed (drop NUMBERS bytes.now)) }
    ensures long { OnOk result (MIN_PARCEL ≤ length bytes.now) }
    ensures fault { IfErr result (λ f. f ≡ ParcelFault.Image ImageFault.TooShort) }
    ensures short { OnErr result (length bytes.now < MIN_PARCEL) }
{
    if bytes.len() < MIN_PARCEL {
        return Err(ParcelFault::Image(ImageFault::TooShort));
    }
    Ok(Numbers {
        cpu: number_at(bytes, 0),
        fill: number_at(bytes, 8),
        first: number_at(bytes, 16),
        missed: number_at(bytes, 24),
    })
}

impl Numbers {
    /// The CPU that the first number names.
    pub(crate) fn cpu(self) -> Result<CpuId, ParcelFault>
        ensures cpu { IfOk result (λ cpu. cpu.0 ≡ self.cpu) }
        ensures known { OnOk result (self.cpu < MAX_CPUS) }
        ensures fault { IfErr result (λ f. f ≡ ParcelFault.BadCpu) }
        ensures unknown { OnErr result (MAX_CPUS ≤ self.cpu) }
    {
        if self.cpu < u64::from(MAX_CPUS) {
            Ok(CpuId(self.cpu as u32))
        } else {
            Err(ParcelFault::BadCpu)
        }
    }

    /// Whether the image states of missed records what the last number does.
    pub(crate) fn agree_with(self, reported: Missed) -> bool
        ensures { IsTrue result ↔ AgreesWith (missed_of reported) self.missed }
    {
        match reported {
            Missed::None => self.missed == 0,
            Missed::Unknown => self.missed > 0,
            Missed::Count(events) => self.missed > 0 && events == self.missed,
        }
    }
}
