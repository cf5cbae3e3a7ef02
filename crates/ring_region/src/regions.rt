//! A region, read.
ghost use Rattle.std.specs.Prelude.{◌≡◌, ◌≢◌, ◌-◌, ◌<◌, ◌≤◌, ◌++◌, ℕ, List, map, Err, OnOk, IfOk, IfErr, MatchResult};
ghost use Rattle.std.specs.Prelude.{if◌then◌else◌};
ghost use Rattle.std.specs.Option.{option_map};
ghost use Rattle.trace_model.specs.declared.limits.TheConstants.{MAX_CPUS, MAX_SIZE};
ghost use Rattle.page_numbers.specs.Parcels.{as_parcels};
ghost use Rattle.parcel_streams.specs.Answers.{pieces_seen};
ghost use Rattle.ring_region.specs.Headers.{IsRegionFault};
ghost use Rattle.ring_region.specs.Order.{recovered_from};
ghost use Rattle.ring_region.specs.Regions.{Recovered, IsHeld, IsRegion, last_end};
ghost use Rattle.ring_region.specs.Answers.{unmissed, AreScanned, region_seen, end_pieces};

use crate::faults::{Damaged, RegionFault};
use crate::headers::{Header, read_header};
use crate::numbered::Numbered;
use crate::order::keep_pages;
use crate::scans::{Scan, scan_slots};
use page_numbers::Parcel;
use parcel_streams::{Mark, Piece};
use std::alloc::Global;
use trace_model::{NoMemory, RecordNo};

/// What a region holds.
#[derive(Debug, Drop)]
pub struct Region {
    /// What its header states.
    pub header: Header,
    /// Its pages as parcels, by rising fill, but for those that were passed, which end below `taken`. Before each of
    /// them the numbers from the end of the one before it on are missing; before the first one those from `taken` on,
    /// unless it begins below. If any slot is damaged, none is missing: nothing is known of what is between the
    /// others.
    pub parcels: Vec<Parcel>,
    /// The slots that are damaged: those that aren't pages, in their order, and then those that can't be beside others.
    pub damaged: Vec<Damaged>,
}

/// How many numbers are missing before a page, if all slots are sound: those from `end`, the end of the one before it,
/// on.
fn missing(sound: bool, end: u64, first: u64) -> u64
    ensures missed { result ≡ (if sound then first - end else 0) }
    ensures few { result ≤ first }
{
    if sound { first.saturating_sub(end) } else { 0 }
}

/// The pages as parcels; if all slots are sound, with what is missing before each.
fn number_pages(
    alloc: Global,
    header: Header,
    pages: Vec<Numbered>,
    sound: bool,
) -> Result<Vec<Parcel>, NoMemory>
    requires { header.cpu.0 < MAX_CPUS }
    ensures { IfOk result (λ parcels. as_parcels parcels.items
        ≡ (if sound then recovered_from header.taken.0 (map (unmissed header.cpu.0) pages.items)
        else map (unmissed header.cpu.0) pages.items)) }
{
    let mut parcels = Vec::new(alloc);
    let mut end = header.taken.0;
    for page in pages {
        let missed = missing(sound, end, page.first());
        end = page.end();
        parcels.push(page.parcel(alloc, header.cpu, missed)?)?;
    }
    Ok(parcels)
}

/// What a region holds, once its slots are read.
fn recover(alloc: Global, header: Header, scan: Scan) -> Result<Region, NoMemory>
    requires cpu { header.cpu.0 < MAX_CPUS }
    requires size { header.size ≤ MAX_SIZE }
    ensures { (bytes : List ℕ) → AreScanned header bytes scan
        → IfOk result (λ region. (region.header ≡ header) × IsHeld bytes (region_seen region)) }
{
    let Scan { pages, mut damaged } = scan;
    let kept = keep_pages(alloc, header.size, pages, &mut damaged)?;
    let parcels = number_pages(alloc, header, kept, damaged.is_empty())?;
    Ok(Region {
        header,
        parcels,
        damaged,
    })
}

/// Reads a region, whatever left it. Bytes after the last slot aren't looked at. Memory is asked for after all faults
/// of the header.
pub fn read_region(alloc: Global, bytes: &[u8]) -> Result<Region, RegionFault>
    ensures region { IfOk result (λ region. IsRegion bytes.now (region_seen region)) }
    ensures fault { IfErr result (λ fault. IsRegionFault bytes.now fault) }
    ensures first_fault { (fault : RegionFault) → fault ≢ RegionFault.NoMemory → IsRegionFault bytes.now fault
        → result ≡ Err fault }
    ensures read_back { (held : Recovered) → IsRegion bytes.now held
        → MatchResult result (λ region. region_seen region ≡ held) (λ fault. fault ≡ RegionFault.NoMemory) }
{
    read(alloc, bytes)
}

/// The region of the bytes, or their first fault, each fault by what it says.
fn read(alloc: Global, bytes: &[u8]) -> Result<Region, RegionFault>
    ensures region { IfOk result (λ region. IsRegion bytes.now (region_seen region)) }
    ensures fault { IfErr result (λ fault. IsRegionFault bytes.now fault) }
{
    let header = read_header(bytes)?;
    let scan = scan_slots(alloc, header, bytes)?;
    Ok(recover(alloc, header, scan)?)
}

/// The number after the last record of the last of these, or 0 if there is none.
fn last_end(parcels: &[Parcel]) -> u64
    ensures { result ≡ last_end (as_parcels parcels.now) }
{
    match parcels.last() {
        Some(parcel) => parcel.first().0 + parcel.count(),
        None => 0,
    }
}

/// Puts the mark of how many records the CPU has, if that is known.
fn put_end(pieces: &mut Vec<Piece>, header: Header, end: Option<RecordNo>) -> Result<(), NoMemory>
    ensures { OnOk result (pieces_seen pieces.new.items
        ≡ pieces_seen pieces.old.items ++ end_pieces header (option_map (λ end. end.0) end)) }
{
    if let Some(end) = end {
        pieces.push(Piece::Mark(header.stream, header.cpu, Mark::End(end.0)))?;
    }
    Ok(())
}

impl Region {
    ghost use Rattle.std.specs.Prelude.{◌≡◌, ℕ, max, None, Some, Option, IfOk, MatchOption};
    ghost use Rattle.std.specs.Option.{SomeIff};
    ghost use Rattle.parcel_streams.specs.Answers.{pieces_seen};
    ghost use Rattle.ring_region.specs.Regions.{IsClean, count_in};
    ghost use Rattle.ring_region.specs.Answers.{region_seen, pieces_of};

    /// How many records the CPU has, if nothing is lost that isn't missing: the ring was ended, and no slot is damaged.
    pub fn end(&self) -> Option<RecordNo>
        ensures { SomeIff result (IsClean (region_seen self.now)) (record { 0 = count_in (region_seen self.now) }) }
    {
        if !self.header.ended || !self.damaged.is_empty() {
            return None;
        }
        let end = last_end(&self.parcels);
        Some(RecordNo(self.header.taken.0.max(end)))
    }

    /// The region as pieces of its stream: its parcels, and how many records the CPU has, if that is known.
    pub fn pieces(&self, alloc: Global) -> Result<Vec<Piece>, NoMemory>
        ensures ended { IsClean (region_seen self.now) → IfOk result (λ pieces. pieces_seen pieces.items
            ≡ pieces_of self.now (Some (count_in (region_seen self.now)))) }
        ensures open { ¬ IsClean (region_seen self.now) → IfOk result (λ pieces. pieces_seen pieces.items
            ≡ pieces_of self.now None) }
    {
        let mut pieces = Vec::new(alloc);
        for parcel in &self.parcels {
            pieces.push(Piece::Parcel(self.header.stream, parcel.share()?))?;
        }
        put_end(&mut pieces, self.header, self.end())?;
        Ok(pieces)
    }
}
