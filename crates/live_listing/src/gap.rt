//! What was lost between records.
ghost use Rattle.std.specs.Prelude.{◌≡◌};
ghost use Rattle.live_listing.specs.Gaps.{gap_seen, no_gap};

use capture::{CaptureFault, Damaged};
use page_image::ImageFault;
use page_lines::Loss;
use std::alloc::Global;
use trace_model::RecordNo;

/// What was lost of a CPU between two of its records that were read, before the first or after the last one.
#[derive(Drop)]
pub struct Gap {
    /// The number after that of the record before: the first one that is missing, if some are.
    pub from: RecordNo,
    /// The number of the record after. All before it, from the first one on, are missing.
    pub until: RecordNo,
    /// The numbers at which records were lost whose number isn't stated. One is counted for each.
    pub unknown: Vec<RecordNo>,
    /// The pages that can't be read.
    pub damaged: Vec<Damaged>,
}

impl Gap {
    ghost use Rattle.std.specs.Prelude.{◌≡◌, ◌+◌, ◌^◌, ◌<◌, ◌≤◌, Err, OnOk};
    ghost use Rattle.live_listing.specs.Gaps.{gap_seen, no_gap, with_least, with_page};

    /// Nothing was lost before the record of this number.
    pub(crate) fn none(alloc: Global, next: RecordNo) -> Gap
        ensures { gap_seen result ≡ no_gap next.0 }
    {
        Gap {
            from: next,
            until: next,
            unknown: Vec::new(alloc),
            damaged: Vec::new(alloc),
        }
    }

    /// Adds the loss that a page states.
    pub(crate) fn add_loss(&mut self, loss: Loss) -> Result<(), CaptureFault>
        ensures added { OnOk result (gap_seen self.new ≡ with_least loss (gap_seen self.old)) }
    {
        if loss.is_unknown {
            self.unknown.push(self.until)?;
        }
        let until = self.until.0.checked_add(loss.least);
        self.until = RecordNo(until.ok_or(CaptureFault::Numbers)?);
        Ok(())
    }

    /// Adds a page that can't be read, before which this many pages are.
    pub(crate) fn add_page(&mut self, page: u64, fault: ImageFault) -> Result<(), CaptureFault>
        ensures added { OnOk result (gap_seen self.new ≡ with_page page fault (gap_seen self.old)) }
    {
        self.damaged.push(Damaged {
            number: self.until,
            page,
            fault,
        })?;
        Ok(())
    }
}
