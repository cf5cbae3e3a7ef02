//! One page.
ghost use Rattle.std.specs.Prelude.{◌≡◌, ◌<◌, IfOk};
ghost use Rattle.trace_model.specs.declared.limits.TheConstants.{MAX_CPUS};
ghost use Rattle.capture.specs.Pages.{Page, IsPageOf};
ghost use Rattle.page_lines.specs.Found.{IsFound};

use capture::{Capture, CaptureFault};
use page_image::{ImageFault, Missed};
use page_numbers::Parcel;
use std::alloc::Global;
use trace_model::CpuId;

/// What a page states of the records that were lost before it.
#[derive(Clone, Copy)]
pub struct Loss {
    /// How many were lost at least.
    pub least: u64,
    /// Whether their number isn't stated.
    pub is_unknown: bool,
}

impl Loss {
    ghost use Rattle.page_numbers.specs.Parcels.{ParcelValue};
    ghost use Rattle.page_lines.specs.Stating.{told_by};

    /// The same, if this is known of a loss of unknown number.
    pub(crate) fn told(self, known: Missed) -> Loss
        ensures { (page : Page) (parcel : ParcelValue) → IsFound (Found.Read self parcel) page
            → IsFound (Found.Read result parcel) (told_by known page) }
    {
        if !self.is_unknown {
            return self;
        }
        match known {
            Missed::None => Loss {
                least: 0,
                is_unknown: false,
            },
            Missed::Unknown => self,
            Missed::Count(least) => Loss {
                least,
                is_unknown: false,
            },
        }
    }
}

/// What is read of a page.
#[derive(Drop)]
pub enum Found {
    /// Its records, and what was lost before them.
    Read(Loss, Parcel),
    /// It can't be read.
    Damaged(ImageFault),
}

/// Reads a page. The numbers of its records begin after those that were lost before them.
pub fn find_page(alloc: Global, cpu: CpuId, image: &mut [u8]) -> Result<Found, CaptureFault>
    requires { cpu.0 < MAX_CPUS }
    ensures { IfOk result (λ found. (page : Page) × IsPageOf image.old page × IsFound found page) }
{
    let mut capture = Capture::new(alloc, cpu);
    capture.add_page(alloc, image, Missed::Unknown)?;
    let is_unknown = !capture.unknown.is_empty();
    if let Some(parcel) = capture.parcels.pop() {
        let loss = Loss {
            least: parcel.missed(),
            is_unknown,
        };
        return Ok(Found::Read(loss, parcel));
    }
    match capture.damaged.pop() {
        Some(damaged) => Ok(Found::Damaged(damaged.fault)),
        None => unreachable!(),
    }
}
