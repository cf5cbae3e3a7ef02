//! One slot of a region.
ghost use Rattle.std.specs.Prelude.{◌≡◌, ℕ, ◌+◌, ◌-◌, ◌<◌, ◌≤◌, ◌^◌, length, take, IfOk};
ghost use Rattle.trace_model.specs.declared.limits.TheConstants.{MAX_CPUS, MAX_SIZE};
ghost use Rattle.page_image.specs.Contents.{Contents, IsPage, records_of_page};
ghost use Rattle.ring_region.specs.Slots.{Slot as SlotSeen, intact, IsSlotOf, IsUnmissed, slot_of_page, commit_in};
ghost use Rattle.ring_region.specs.Answers.{slot_seen, reading_seen, IsLocatedIn, IsWithin, offset_of, IsTold};
ghost use Rattle.ring_region.specs.Answers.{unmissed};
ghost use Rattle.ring_region.specs.declared.limits.TheConstants.{HEAD};

use crate::faults::{SlotCause, SlotFault};
use crate::limits::{COMMIT_AT, FILL_AT, FIRST_AT, HEAD, IMAGE_AT, MISSED_AT, SLOT_CPU_AT};
use crate::numbered::Numbered;
use page_image::{ImageFault, number_at, read_outline};
use page_numbers::Parcel;
use record_words::WordFault;
use std::alloc::Global;
use trace_model::{CpuId, FillNo, NoMemory, RecordNo};

/// What a slot holds.
#[derive(Debug, Drop)]
pub enum Slot {
    /// Nothing is committed.
    Blank,
    /// A page, of which nothing is missing.
    Page(Parcel),
    /// It isn't a page.
    Damaged(SlotFault),
}

/// What a slot holds, of a page its numbers and data alone.
#[derive(Drop)]
pub(crate) enum Reading {
    Blank,
    Page(Numbered),
    Damaged(SlotFault),
}

/// Reads a slot of a region of this CPU: 48 bytes, and as many as a page has data. What is after its commit isn't
/// looked at. Memory is asked for after all that may be wrong.
pub fn read_slot(alloc: Global, cpu: CpuId, slot: &[u8]) -> Result<Slot, NoMemory>
    requires cpu { cpu.0 < MAX_CPUS }
    requires head { HEAD ≤ length slot.now }
    requires limit { length slot.now ≤ HEAD + MAX_SIZE }
    ensures slot { IfOk result (λ read. IsSlotOf cpu.0 slot.now (slot_seen read)) }
    ensures at { IfOk result (λ read. IsLocatedIn read) }
    ensures read_back { (seen : SlotSeen) → IsSlotOf cpu.0 slot.now seen → IfOk result (λ read. slot_seen read ≡ seen) }
    ensures behind { (page : Contents) → IsPage page → page.first + length (records_of_page page) < 2 ^ 64
        → page.fill < 2 ^ 64 → 0 < length page.bytes
        → take (HEAD + length page.bytes) slot.now ≡ slot_of_page cpu.0 page
        → IfOk result (λ read. slot_seen read ≡ intact (unmissed cpu.0 page)) }
{
    read(alloc, cpu, slot)
}

/// Reads a slot, as `read_slot` does.
fn read(alloc: Global, cpu: CpuId, slot: &[u8]) -> Result<Slot, NoMemory>
    requires cpu { cpu.0 < MAX_CPUS }
    requires head { HEAD ≤ length slot.now }
    requires limit { length slot.now ≤ HEAD + MAX_SIZE }
    ensures slot { IfOk result (λ read. IsSlotOf cpu.0 slot.now (slot_seen read)) }
    ensures at { IfOk result (λ read. IsLocatedIn read) }
{
    Ok(match read_page(alloc, cpu, slot)? {
        Reading::Blank => Slot::Blank,
        Reading::Page(page) => Slot::Page(page.parcel(alloc, cpu, 0)?),
        Reading::Damaged(fault) => Slot::Damaged(fault),
    })
}

/// What is wrong at this offset of a slot.
fn damaged(at: usize, cause: SlotCause) -> Reading
    ensures { result ≡ Reading.Damaged (record { at = at; cause = cause }) }
{
    Reading::Damaged(SlotFault { at, cause })
}

/// What a fault of its image says of a slot: that a word can't be read. The head leaves no other but refused memory.
fn image_damaged(fault: ImageFault) -> Result<Reading, NoMemory>
    requires { HEAD + offset_of fault < 2 ^ 64 }
    ensures { IsTold fault result }
{
    let ImageFault::Word(word) = fault else {
        return Err(NoMemory);
    };
    let at = match word {
        WordFault::Cut(at) | WordFault::BadLength(at) | WordFault::TimeOverflow(at) => at,
    };
    Ok(damaged(HEAD + at, SlotCause::Word(word)))
}

/// Reads a slot up to its commit, which these bytes are: the head was looked at.
fn read_committed(alloc: Global, slot: &[u8]) -> Result<Reading, NoMemory>
    requires limit { length slot.now ≤ HEAD + MAX_SIZE }
    requires commit { HEAD + commit_in slot.now ≡ length slot.now }
    ensures reading { (cpu : ℕ) → cpu < MAX_CPUS → IsUnmissed cpu slot.now
        → IfOk result (λ read. IsSlotOf cpu slot.now (reading_seen cpu read)) }
    ensures within { IfOk result (λ read. IsWithin slot.now read) }
{
    let image = &slot[IMAGE_AT..];
    let outline = match read_outline(image) {
        Ok(outline) => outline,
        Err(fault) => return image_damaged(fault),
    };
    let first = RecordNo(number_at(slot, FIRST_AT));
    if first.0.checked_add(outline.count).is_none() {
        return Ok(damaged(FIRST_AT, SlotCause::NumberOverflow));
    }
    let page = outline.page(alloc, image)?;
    let fill = FillNo(number_at(slot, FILL_AT));
    Ok(Reading::Page(Numbered::new(page.numbered(first, fill))))
}

/// Reads a slot, the page alone.
pub(crate) fn read_page(alloc: Global, cpu: CpuId, slot: &[u8]) -> Result<Reading, NoMemory>
    requires cpu { cpu.0 < MAX_CPUS }
    requires head { HEAD ≤ length slot.now }
    requires limit { length slot.now ≤ HEAD + MAX_SIZE }
    ensures reading { IfOk result (λ read. IsSlotOf cpu.0 slot.now (reading_seen cpu.0 read)) }
    ensures within { IfOk result (λ read. IsWithin slot.now read) }
{
    let commit = number_at(slot, COMMIT_AT);
    if commit == 0 {
        return Ok(Reading::Blank);
    }
    if number_at(slot, SLOT_CPU_AT) != u64::from(cpu.0) {
        return Ok(damaged(SLOT_CPU_AT, SlotCause::OtherCpu));
    }
    if number_at(slot, MISSED_AT) != 0 {
        return Ok(damaged(MISSED_AT, SlotCause::Missed));
    }
    if commit > (slot.len() - HEAD) as u64 {
        return Ok(damaged(COMMIT_AT, SlotCause::BadCommit));
    }
    read_committed(alloc, &slot[..HEAD + commit as usize])
}
