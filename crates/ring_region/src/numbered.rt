//! A page that was read, under its numbers.
use page_image::Page;
use page_numbers::Parcel;
use std::alloc::Global;
use std::marker::Model;
use trace_model::{CpuId, NoMemory};

/// A page whose data can be read, and whose records' numbers, and the number after the last one, fit 64 bits.
#[derive(Debug, Drop)]
pub(crate) struct Numbered {
    page: Page,
}

impl Model for Numbered {
    ghost use Rattle.page_image.specs.Contents.{Contents};
    ghost use Rattle.ring_region.specs.Numbered.{IsNumbered};

    ghost Value = { Contents };

    ghost view = { λ n. n.page };

    ghost invariant = { λ n. IsNumbered n.page };
}

impl Numbered {
    ghost use Rattle.std.specs.Prelude.{◌≡◌, ◌+◌, ◌<◌, ◌≤◌, length, IfOk};
    ghost use Rattle.trace_model.specs.declared.limits.TheConstants.{MAX_CPUS};
    ghost use Rattle.page_image.specs.Contents.{records_of_page};
    ghost use Rattle.ring_region.specs.Numbered.{IsNumbered};

    /// The page, which has its numbers.
    pub(crate) fn new(page: Page) -> Numbered
        requires { IsNumbered page }
        ensures { result ≡ page }
    {
        Numbered { page }
    }

    /// Its fill.
    pub(crate) fn fill(&self) -> u64
        ensures { result ≡ self.now.fill }
    {
        self.page.fill().0
    }

    /// The number of its first record.
    pub(crate) fn first(&self) -> u64
        ensures { result ≡ self.now.first }
    {
        self.page.first().0
    }

    /// The number after its last record's.
    pub(crate) fn end(&self) -> u64
        ensures { result ≡ self.now.first + length (records_of_page self.now) }
    {
        self.page.first().0 + self.page.count()
    }

    /// The page as a parcel of this CPU, with `missed` numbers missing before it.
    pub(crate) fn parcel(self, alloc: Global, cpu: CpuId, missed: u64) -> Result<Parcel, NoMemory>
        requires cpu { cpu.0 < MAX_CPUS }
        requires missed { missed ≤ self.first }
        ensures { IfOk result (λ parcel. parcel ≡ record { cpu = cpu.0; missed = missed; page = self }) }
    {
        let Numbered { page } = self;
        match Parcel::of(alloc, cpu, page, missed) {
            Ok(parcel) => Ok(parcel),
            Err(_refused) => Err(NoMemory),
        }
    }
}
