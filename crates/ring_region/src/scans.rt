//! The slots of a region, read one after the other.
ghost use Rattle.std.specs.Prelude.{◌≤◌, ◌<◌, length, IfOk};
ghost use Rattle.trace_model.specs.declared.limits.TheConstants.{MAX_CPUS, MAX_PAGES, MAX_SIZE};
ghost use Rattle.ring_region.specs.Headers.{region_len};
ghost use Rattle.ring_region.specs.Answers.{AreScanned};

use crate::faults::Damaged;
use crate::found::Found;
use crate::headers::{Header, slot_at};
use crate::limits::HEAD;
use crate::order::{damage_of, put_by_fill};
use crate::slots::{Reading, read_page};
use std::alloc::Global;
use trace_model::NoMemory;

/// What was read of the first slots.
#[derive(Drop)]
pub(crate) struct Scan {
    /// The pages that weren't passed, by fill.
    pub(crate) pages: Vec<Found>,
    /// The slots that aren't pages.
    pub(crate) damaged: Vec<Damaged>,
}

impl Scan {
    ghost use Rattle.std.specs.Prelude.{◌≡◌, ◌+◌, ◌≤◌, ◌<◌, List, [], length, OnOk};
    ghost use Rattle.trace_model.specs.declared.limits.TheConstants.{MAX_CPUS, MAX_PAGES, MAX_SIZE};
    ghost use Rattle.ring_region.specs.declared.limits.TheConstants.{HEAD};
    ghost use Rattle.ring_region.specs.Slots.{Slot};
    ghost use Rattle.ring_region.specs.Answers.{IsScanned, AddsSlot};

    /// Nothing was read.
    fn new(alloc: Global) -> Scan
        ensures { (header : Header) → IsScanned header [] result }
    {
        Scan {
            pages: Vec::new(alloc),
            damaged: Vec::new(alloc),
        }
    }

    /// Reads one slot more; a page that was passed is left out. Where there is no answer, what was read is of no use.
    fn add(
        &mut self,
        alloc: Global,
        header: Header,
        number: usize,
        slot: &[u8],
    ) -> Result<(), NoMemory>
        requires cpu { header.cpu.0 < MAX_CPUS }
        requires size { header.size ≤ MAX_SIZE }
        requires number { number ≤ MAX_PAGES }
        requires len { length slot.now ≡ HEAD + header.size }
        ensures { (slots : List Slot) → IsScanned header slots self.old → length slots ≡ number
            → OnOk result (AddsSlot header slot.now slots self.new) }
    {
        match read_page(alloc, header.cpu, slot)? {
            Reading::Blank => {}
            Reading::Page(page) => {
                if page.end() >= header.taken.0 {
                    put_by_fill(&mut self.pages, Found { slot: number, page })?;
                }
            }
            Reading::Damaged(fault) => {
                self.damaged.push(damage_of(header.size, number, fault))?;
            }
        }
        Ok(())
    }
}

/// Reads all slots of the region.
pub(crate) fn scan_slots(alloc: Global, header: Header, bytes: &[u8]) -> Result<Scan, NoMemory>
    requires cpu { header.cpu.0 < MAX_CPUS }
    requires size { header.size ≤ MAX_SIZE }
    requires pages { header.pages ≤ MAX_PAGES }
    requires there { region_len header.pages header.size ≤ length bytes.now }
    ensures { IfOk result (λ scan. AreScanned header bytes.now scan) }
{
    let mut scan = Scan::new(alloc);
    for number in 0..header.pages + 1 {
        let at = slot_at(header.size, number);
        scan.add(alloc, header, number, &bytes[at..at + HEAD + header.size])?;
    }
    Ok(scan)
}
