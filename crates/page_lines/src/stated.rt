//! What pages state of their losses.
ghost use Rattle.std.specs.Prelude.{IfOk, ◌∷◌, []};
ghost use Rattle.page_numbers.specs.Parcels.{ParcelValue};
ghost use Rattle.capture.specs.Pages.{Page};
ghost use Rattle.page_lines.specs.Found.{IsFound};
ghost use Rattle.page_lines.specs.Stating.{StatesMore};
ghost use Rattle.page_lines.specs.declared.page.Found.{Found};

use crate::page::Loss;
use capture::CaptureFault;

/// What pages state of the records that were lost before them.
#[derive(Clone, Copy, Debug, PartialEq, Eq)]
pub struct Stated {
    /// How many times records were lost whose number isn't stated.
    pub unknown: u64,
    /// How many records were lost at the other times.
    pub counted: u64,
}

impl Stated {
    /// With what one page more states.
    pub(crate) fn with(self, loss: Loss) -> Result<Stated, CaptureFault>
        ensures { (page : Page) (parcel : ParcelValue) → IsFound (Found.Read loss parcel) page
            → IfOk result (λ stated. StatesMore self (page ∷ []) stated) }
    {
        let Stated { unknown, counted } = self;
        if loss.is_unknown {
            let unknown = unknown.checked_add(1).ok_or(CaptureFault::Numbers)?;
            return Ok(Stated { unknown, counted });
        }
        let counted = counted.checked_add(loss.least);
        let counted = counted.ok_or(CaptureFault::Numbers)?;
        Ok(Stated { unknown, counted })
    }
}
