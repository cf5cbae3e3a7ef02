//! The header of a slot.
//!
//! A body begins with the header of a slot: six numbers of eight bytes, the lowest byte first, which state what the
//! page in the body is. Whoever reads the body's memory while the ring is in use, or after its process was killed,
//! learns by them which records of the page are committed. No code of a ring reads them.
//!
//! | offset | number | stored |
//! |---|---|---|
//! | 0 | the CPU | by whoever makes the slot |
//! | 8 | the fill | as a page is begun |
//! | 16 | the number of the first record | as a page is begun |
//! | 24 | how many records were missed | never: it is 0 |
//! | 32 | the time | as the first record is put |
//! | 40 | commit: how many bytes of data are committed | as a page is begun, and as its records are committed |
ghost use Rattle.std.specs.Prelude.{◌≡◌, ◌+◌, ◌≤◌, length, replicate, IfOk};
ghost use Rattle.trace_model.specs.Image.{le64};
ghost use Rattle.trace_model.specs.Overwriting.{overwritten};
ghost use Rattle.trace_model.specs.declared.limits.TheConstants.{MAX_SIZE};
ghost use Rattle.page_image.specs.Slot.{StoresHeader, slot_bytes, no_header};

use byteorder::{ByteOrder, LittleEndian};
use std::alloc::Global;
use trace_model::{FillNo, NoMemory, RecordNo};

/// How many bytes the header of a slot takes.
pub const SLOT_HEADER: usize = 48;

/// Where the fill is.
const FILL: usize = 8;

/// Where the number of the first record is.
const FIRST: usize = 16;

/// Where the time is.
const TIME: usize = 32;

/// Where commit is.
const COMMIT: usize = 40;

/// A slot of zeros, for a page of `size` bytes of data.
pub(crate) fn blank_slot(alloc: Global, size: usize) -> Result<Vec<u8>, NoMemory>
    requires { size ≤ MAX_SIZE }
    ensures { IfOk result (λ slot. slot.items ≡ slot_bytes no_header (replicate size 0)) }
{
    let slot = vec![in alloc; 0; SLOT_HEADER + size]?;
    Ok(slot)
}

/// A slot with a header of zeros before this data.
pub(crate) fn slot_of(alloc: Global, contents: &[u8]) -> Result<Vec<u8>, NoMemory>
    requires { length contents.now ≤ MAX_SIZE }
    ensures { IfOk result (λ slot. slot.items ≡ slot_bytes no_header contents.now) }
{
    let mut slot = Vec::with_capacity(alloc, SLOT_HEADER + contents.len())?;
    slot.resize(SLOT_HEADER, 0)?;
    slot.extend_from_slice(contents)?;
    Ok(slot)
}

/// Stores this number in the eight bytes at `at`.
#[inline(always)]
fn put_number(slot: &mut [u8], at: usize, number: u64)
    requires { at + 8 ≤ length slot.old }
    ensures { slot.new ≡ overwritten slot.old at (le64 number) }
{
    LittleEndian::write_u64(&mut slot[at..], number);
}

/// Stores how many bytes of data are committed.
#[inline(always)]
pub(crate) fn put_commit(slot: &mut [u8], commit: u64)
    requires { SLOT_HEADER ≤ length slot.old }
    ensures { StoresHeader slot.old slot.new (λ was. record was { commit = commit }) }
{
    put_number(slot, COMMIT, commit);
}

/// Stores the time of the page.
#[inline(always)]
pub(crate) fn put_time(slot: &mut [u8], time: u64)
    requires { SLOT_HEADER ≤ length slot.old }
    ensures { StoresHeader slot.old slot.new (λ was. record was { time = time }) }
{
    put_number(slot, TIME, time);
}

/// Stores that a page is begun, of this fill and from the record of this number on, of which nothing is committed. That
/// nothing is comes first: so the old data is never taken for that of the new page.
pub(crate) fn put_begin(slot: &mut [u8], fill: FillNo, first: RecordNo)
    requires { SLOT_HEADER ≤ length slot.old }
    ensures { StoresHeader slot.old slot.new (λ was. record was { fill = fill.0; first = first.0; commit = 0 }) }
{
    put_commit(slot, 0);
    put_number(slot, FILL, fill.0);
    put_number(slot, FIRST, first.0);
}
