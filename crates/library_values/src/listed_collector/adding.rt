//! Parcels that are added: from their bytes, or from a page.
ghost use Rattle.std.specs.Prelude.{◌≡◌, ◌++◌, ℕ, List, IfOk, IfErr};
ghost use Rattle.trace_model.specs.ParcelBytes.{DecodesParcel};
ghost use Rattle.page_numbers.specs.Parcels.{as_parcel};
ghost use Rattle.library_values.specs.CollectorAdding.{IsNoParcel};

use crate::listed_collector::listed::ListedCollector;
use collector::{AddFault, Added};
use page_image::{Page, number_at};
use page_numbers::{Parcel, ParcelFault};
use std::alloc::Global;
use trace_model::{CpuId, MAX_IMAGE};

/// Why bytes aren't added. Nothing has changed.
#[derive(Clone, Copy, Debug, PartialEq, Eq)]
pub enum AddRefusal {
    /// They can't be read as a parcel.
    Parcel(ParcelFault),
    /// The parcel that they are isn't added.
    Add(AddFault),
}

/// Where the commit word of a parcel's image is, and where the data begins.
const COMMIT: usize = 40;

const DATA: usize = 48;

/// How many bytes a count of missed records takes, after the data.
const COUNT: usize = 8;

/// The most bytes of a parcel: its numbers, and the longest image.
const MAX_PARCEL: usize = 32 + MAX_IMAGE;

/// The lowest 30 bits of the commit word are the number of the data's bytes.
const SIZES: u64 = 1 << 30;

/// The front of a parcel's bytes, as far as what is read reaches: the rest of its page has no record. These bytes may
/// be no parcel.
fn read_part(bytes: &[u8]) -> &[u8]
    ensures { (rest : List ℕ) × (bytes.now ≡ result.now ++ rest) }
{
    if bytes.len() < DATA {
        return bytes;
    }
    let data = (number_at(bytes, COMMIT) % SIZES) as usize;
    let end = bytes.len().min(DATA + data + COUNT);
    &bytes[..end]
}

/// The parcel that the bytes are, in a page that has as many bytes as the parcel's data and a count, at most.
fn short_parcel(alloc: Global, bytes: &[u8]) -> Result<Parcel, ParcelFault>
    ensures reads { IfOk result (λ parcel. DecodesParcel bytes.now (as_parcel parcel)) }
    ensures fault { IfErr result (λ fault. IsNoParcel bytes.now fault) }
{
    if bytes.len() > MAX_PARCEL {
        return Parcel::from_bytes(alloc, bytes);
    }
    match Parcel::from_bytes(alloc, read_part(bytes)) {
        Ok(parcel) => Ok(parcel),
        Err(ParcelFault::NoMemory) => Err(ParcelFault::NoMemory),
        Err(_) => Parcel::from_bytes(alloc, bytes),
    }
}

impl ListedCollector {
    ghost use Rattle.std.specs.Prelude.{◌≡◌, ◌+◌, ◌^◌, ◌<◌, ◌≤◌, length};
    ghost use Rattle.trace_model.specs.declared.limits.TheConstants.{MAX_CPUS};
    ghost use Rattle.page_image.specs.Contents.{IsPage, records_of_page};
    ghost use Rattle.page_numbers.specs.Parcels.{parcel_of_page};
    ghost use Rattle.library_values.specs.CollectorAdding.{AddsSo, AddsPage};

    /// Reads a parcel from its bytes and adds it to the collector, which keeps no byte of the page's room that has no
    /// record. The listing stays.
    pub fn add(&mut self, alloc: Global, bytes: &[u8]) -> Result<Added, AddRefusal>
        ensures adds { AddsSo self.old.collector bytes.now result self.new.collector }
        ensures listing { self.new ≡ record self.old { collector = self.new.collector } }
    {
        let parcel = match short_parcel(alloc, bytes) {
            Ok(parcel) => parcel,
            Err(fault) => return Err(AddRefusal::Parcel(fault)),
        };
        match self.collector.add(parcel) {
            Ok(added) => Ok(added),
            Err(fault) => Err(AddRefusal::Add(fault)),
        }
    }

    /// Adds a copy of a page as a parcel of this CPU, with `missed` numbers missing before its records. The copy is as
    /// long as the page's data. The listing stays.
    pub fn add_page(
        &mut self,
        alloc: Global,
        cpu: CpuId,
        page: &Page,
        missed: u64,
    ) -> Result<Added, AddFault>
        requires page { IsPage page.now }
        requires cpu { cpu.0 < MAX_CPUS }
        requires numbers { page.now.first + length (records_of_page page.now) < 2 ^ 64 }
        requires missed { missed ≤ page.now.first }
        ensures adds { AddsPage self.old.collector (parcel_of_page cpu.0 page.now missed) result self.new.collector }
        ensures listing { self.new ≡ record self.old { collector = self.new.collector } }
    {
        let parcel = Parcel::fitted(alloc, cpu, page, missed)?;
        self.collector.add(parcel)
    }
}
