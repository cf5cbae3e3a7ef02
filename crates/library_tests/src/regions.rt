//! Regions, with their bytes written out: of a ring of three pages of 32 bytes, so with four slots of 128 bytes each.
use page_numbers::Parcel;
use parcel_streams::{Mark, Piece, StreamId};
use record_words::WordFault;
use ring_region::{
    Damaged, Region, RegionFault, Slot, SlotCause, SlotFault, read_region, read_slot,
};
use std::alloc::Global;
use std::process::Abort;
use std::test::Fail;
use trace_model::{CpuId, FillNo, NoMemory, RecordNo};

/// The header: of CPU 2 and stream 17; the numbers below 5 were taken, and the ring didn't end.
const HEADER: &[u8] = b"tracring\x01\0\0\0\0\0\0\0\
    \x03\0\0\0\0\0\0\0\x20\0\0\0\0\0\0\0\
    \x02\0\0\0\0\0\0\0\x11\0\0\0\0\0\0\0\
    \x05\0\0\0\0\0\0\0\0\0\0\0\0\0\0\0\
    \0\0\0\0\0\0\0\0\0\0\0\0\0\0\0\0\0\0\0\0\0\0\0\0\0\0\0\0\0\0\0\0\
    \0\0\0\0\0\0\0\0\0\0\0\0\0\0\0\0\0\0\0\0\0\0\0\0\0\0\0\0\0\0\0\0";

/// Fill 6, with record 7: `next` at 100. After its commit another record was being written.
const SIX: &[u8] = b"\x02\0\0\0\0\0\0\0\x06\0\0\0\0\0\0\0\
    \x07\0\0\0\0\0\0\0\0\0\0\0\0\0\0\0\
    \x64\0\0\0\0\0\0\0\x08\0\0\0\0\0\0\0\
    \x01\0\0\0next\x02\0\0\0late\xff\xff\xff\xff\xff\xff\xff\xff\xff\xff\xff\xff\xff\xff\xff\xff\
    \0\0\0\0\0\0\0\0\0\0\0\0\0\0\0\0\0\0\0\0\0\0\0\0\
    \0\0\0\0\0\0\0\0\0\0\0\0\0\0\0\0\0\0\0\0\0\0\0\0";

/// Fill 7, with the records 10 and 11: `four` at 200, `five` at 201.
const SEVEN: &[u8] = b"\x02\0\0\0\0\0\0\0\x07\0\0\0\0\0\0\0\
    \x0a\0\0\0\0\0\0\0\0\0\0\0\0\0\0\0\
    \xc8\0\0\0\0\0\0\0\x10\0\0\0\0\0\0\0\
    \x01\0\0\0four\x21\0\0\0five\0\0\0\0\0\0\0\0\0\0\0\0\0\0\0\0\
    \0\0\0\0\0\0\0\0\0\0\0\0\0\0\0\0\0\0\0\0\0\0\0\0\
    \0\0\0\0\0\0\0\0\0\0\0\0\0\0\0\0\0\0\0\0\0\0\0\0";

/// Nothing is committed, whatever else is there.
const BLANK: &[u8] = b"\x09\0\0\0\0\0\0\0\x08\0\0\0\0\0\0\0\
    \x0c\0\0\0\0\0\0\0\x01\0\0\0\0\0\0\0\
    \xff\xff\xff\xff\xff\xff\xff\xff\0\0\0\0\0\0\0\0\
    \x01\0\0\0more\x21\0\0\0more\0\0\0\0\0\0\0\0\0\0\0\0\0\0\0\0\
    \0\0\0\0\0\0\0\0\0\0\0\0\0\0\0\0\0\0\0\0\0\0\0\0\
    \0\0\0\0\0\0\0\0\0\0\0\0\0\0\0\0\0\0\0\0\0\0\0\0";

/// Fill 5, with four bytes of data in which its one word isn't whole.
const CUT: &[u8] = b"\x02\0\0\0\0\0\0\0\x05\0\0\0\0\0\0\0\
    \x06\0\0\0\0\0\0\0\0\0\0\0\0\0\0\0\
    \x64\0\0\0\0\0\0\0\x04\0\0\0\0\0\0\0\
    \x01\0\0\0most\0\0\0\0\0\0\0\0\0\0\0\0\0\0\0\0\0\0\0\0\0\0\0\0\
    \0\0\0\0\0\0\0\0\0\0\0\0\0\0\0\0\0\0\0\0\0\0\0\0\
    \0\0\0\0\0\0\0\0\0\0\0\0\0\0\0\0\0\0\0\0\0\0\0\0";

/// The region of these slots.
fn region_of(alloc: Global, slots: [&[u8]; 4]) -> Result<Vec<u8>, NoMemory> {
    let mut bytes = Vec::from_slice(alloc, HEADER)?;
    for slot in slots {
        bytes.extend_from_slice(slot)?;
    }
    Ok(bytes)
}

/// A copy of the bytes, with `piece` from `at` on.
fn changed(alloc: Global, bytes: &[u8], at: usize, piece: &[u8]) -> Result<Vec<u8>, NoMemory> {
    let mut copy = Vec::from_slice(alloc, bytes)?;
    for (slot, byte) in copy.iter_mut().skip(at).zip(piece) {
        *slot = *byte;
    }
    Ok(copy)
}

/// Compares a parcel of CPU 2: its fill, its first number, how many records it has, and how many numbers are missing.
fn compare(rt: &impl Abort, parcel: &Parcel, numbers: (u64, u64, u64, u64)) {
    assert!(rt; parcel.cpu() == CpuId(2) && parcel.fill() == FillNo(numbers.0));
    assert!(rt; parcel.first() == RecordNo(numbers.1) && parcel.count() == numbers.2);
    assert!(rt; parcel.missed() == numbers.3);
}

/// Compares both parcels of a region. `missed` is how many numbers are missing before the numbers 7 and 10.
fn compare_parcels(rt: &impl Abort, region: &Region, missed: (u64, u64)) {
    let [six, seven] = region.parcels.as_slice() else {
        panic!(rt; "other parcels");
    };
    compare(rt, six, (6, 7, 1, missed.0));
    compare(rt, seven, (7, 10, 2, missed.1));
}

/// Where a slot is damaged, the others are read, and nothing is missing.
#[test]
fn a_damaged_region_is_read(rt: HostRuntime) -> Result<(), Fail> {
    let bytes = region_of(rt.alloc(), [SEVEN, BLANK, SIX, CUT])?;
    let region = read_region(rt.alloc(), &bytes)?;
    compare_parcels(&rt, &region, (0, 0));
    let cut = Damaged {
        slot: 3,
        at: 560,
        cause: SlotCause::Word(WordFault::Cut(0)),
    };
    assert!(rt; region.damaged.as_slice() == [cut].as_slice());
    assert!(rt; region.header.stream == StreamId(17) && region.header.taken == RecordNo(5));
    assert!(rt; region.end().is_none() && region.pieces(rt.alloc())?.len() == 2);
    Ok(())
}

/// Where none is, all between the pages is missing, and what is between the taken ones and the first page. If the ring
/// ended, its CPU has no more records.
#[test]
fn a_whole_region_tells_what_is_missing(rt: HostRuntime) -> Result<(), Fail> {
    let bytes = region_of(rt.alloc(), [SEVEN, BLANK, SIX, BLANK])?;
    let region = read_region(rt.alloc(), &bytes)?;
    compare_parcels(&rt, &region, (2, 2));
    assert!(rt; region.damaged.is_empty() && region.end().is_none());
    let ended = changed(rt.alloc(), &bytes, 56, &[1])?;
    let region = read_region(rt.alloc(), &ended)?;
    assert!(rt; region.end() == Some(RecordNo(12)));
    let pieces = region.pieces(rt.alloc())?;
    let [
        Piece::Parcel(_, _),
        Piece::Parcel(_, _),
        Piece::Mark(stream, cpu, mark),
    ] = pieces.as_slice()
    else {
        panic!(rt; "other pieces");
    };
    assert!(rt; *stream == StreamId(17) && *cpu == CpuId(2) && *mark == Mark::End(12));
    Ok(())
}

/// Compares the pages of a region, some of whose numbers were taken: of the two only the last one is left, before which
/// `missed` are missing.
fn compare_last(rt: &impl Abort, region: &Region, missed: u64) {
    let [seven] = region.parcels.as_slice() else {
        panic!(rt; "other parcels");
    };
    compare(rt, seven, (7, 10, 2, missed));
    assert!(rt; region.damaged.is_empty());
}

/// Before a page that was taken nothing is missing. One that ends below the number that was taken is left out.
#[test]
fn taken_pages_are_read(rt: HostRuntime) -> Result<(), Fail> {
    let bytes = region_of(rt.alloc(), [SEVEN, BLANK, SIX, BLANK])?;
    for (taken, missed) in [(7, 0), (8, 0), (0, 7)] {
        let bytes = changed(rt.alloc(), &bytes, 48, &[taken])?;
        compare_parcels(&rt, &read_region(rt.alloc(), &bytes)?, (missed, 2));
    }
    for (taken, missed) in [(9, 1), (12, 0)] {
        let bytes = changed(rt.alloc(), &bytes, 48, &[taken])?;
        compare_last(&rt, &read_region(rt.alloc(), &bytes)?, missed);
    }
    let ended = changed(rt.alloc(), &bytes, 48, b"\x14\0\0\0\0\0\0\0\x01")?;
    let region = read_region(rt.alloc(), &ended)?;
    assert!(rt; region.parcels.is_empty() && region.damaged.is_empty());
    assert!(rt; region.end() == Some(RecordNo(20)));
    Ok(())
}

/// What is written at which offset, and what it damages: the slot, the offset of what is wrong, and the cause.
const DAMAGES: &[(usize, &[u8], usize, usize, SlotCause)] = &[
    (384, b"\x03", 2, 384, SlotCause::OtherCpu),
    (408, b"\x01", 2, 408, SlotCause::Missed),
    (424, b"\x21", 2, 424, SlotCause::BadCommit),
    (427, b"\x40", 2, 424, SlotCause::BadCommit),
    (431, b"\x80", 2, 424, SlotCause::BadCommit),
    (432, b"\0", 2, 432, SlotCause::Word(WordFault::BadLength(0))),
    (
        400,
        b"\xff\xff\xff\xff\xff\xff\xff\xff",
        2,
        400,
        SlotCause::NumberOverflow,
    ),
    (392, b"\x07", 2, 392, SlotCause::SameFill),
    (400, b"\x0a", 0, 144, SlotCause::Overlap),
];

/// A damaged slot is named, with what is wrong with it.
#[test]
fn damage_is_found(rt: HostRuntime) -> Result<(), Fail> {
    let bytes = region_of(rt.alloc(), [SEVEN, BLANK, SIX, BLANK])?;
    for &(place, piece, slot, at, cause) in DAMAGES {
        let bytes = changed(rt.alloc(), &bytes, place, piece)?;
        let region = read_region(rt.alloc(), &bytes)?;
        let damage = Damaged { slot, at, cause };
        assert!(rt; region.damaged.as_slice() == [damage].as_slice());
        assert!(rt; region.parcels.len() == 1);
    }
    Ok(())
}

/// What is written at which offset of the header, and the fault.
const FAULTS: &[(usize, &[u8], RegionFault, Option<usize>)] = &[
    (0, b"T", RegionFault::NotARegion, Some(0)),
    (8, b"\x02", RegionFault::BadVersion, Some(8)),
    (16, b"\x01", RegionFault::BadPages, Some(16)),
    (16, b"\x01\x04", RegionFault::BadPages, Some(16)),
    (24, b"\x1c", RegionFault::BadSize, Some(24)),
    (24, b"\x22", RegionFault::BadSize, Some(24)),
    (33, b"\x01", RegionFault::BadCpu, Some(32)),
    (56, b"\x02", RegionFault::BadEnd, Some(56)),
    (16, b"\x04", RegionFault::TooShort, None),
];

/// Compares the fault of a region.
fn compare_fault(
    rt: &(impl Abort + AllocGlobal),
    bytes: &[u8],
    fault: RegionFault,
    at: Option<usize>,
) {
    match read_region(rt.alloc(), bytes) {
        Ok(_) => panic!(rt; "a region"),
        Err(found) => assert!(rt; found == fault && found.at() == at),
    }
}

/// So is what is wrong with the header, or that slots aren't there.
#[test]
fn a_faulty_header_is_refused(rt: HostRuntime) -> Result<(), Fail> {
    let bytes = region_of(rt.alloc(), [SEVEN, BLANK, SIX, BLANK])?;
    for &(place, piece, fault, at) in FAULTS {
        let bytes = changed(rt.alloc(), &bytes, place, piece)?;
        compare_fault(&rt, &bytes, fault, at);
    }
    assert!(rt; bytes.len() == 640);
    for len in [127, 639] {
        compare_fault(&rt, &bytes[..len], RegionFault::TooShort, None);
    }
    Ok(())
}

/// A slot alone is read as it is in a region.
#[test]
fn a_slot_is_read(rt: HostRuntime) -> Result<(), Fail> {
    let (six, _) = SIX.split_at(80);
    match read_slot(rt.alloc(), CpuId(2), six)? {
        Slot::Page(parcel) => compare(&rt, &parcel, (6, 7, 1, 0)),
        _ => panic!(rt; "no page"),
    }
    assert!(rt; matches!(read_slot(rt.alloc(), CpuId(2), &BLANK[..80])?, Slot::Blank));
    for (cpu, at, cause) in [
        (CpuId(2), 48, SlotCause::Word(WordFault::Cut(0))),
        (CpuId(3), 0, SlotCause::OtherCpu),
    ] {
        match read_slot(rt.alloc(), cpu, &CUT[..80])? {
            Slot::Damaged(fault) => assert!(rt; fault == SlotFault { at, cause }),
            _ => panic!(rt; "not damaged"),
        }
    }
    Ok(())
}
