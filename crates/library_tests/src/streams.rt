//! Streams of parcels, packed and read, with their bytes written out. The checksums were computed by another program.
use page_numbers::Parcel;
use parcel_streams::{
    Mark, Piece, PieceFault, StreamFault, StreamId, is_stream, pack_mark, pack_parcel, read_piece,
    read_stream,
};
use std::process::Abort;
use std::test::Fail;
use trace_model::{CpuId, FillNo, RecordNo};

/// The number of the stream.
const STREAM_ID: StreamId = StreamId(0x1122_3344_5566_7788);

/// A parcel of CPU 0, fill 5, first number 7, one missing: a page with one record, and 24 bytes of room.
const WITH_ROOM: &[u8] = b"\0\0\0\0\0\0\0\0\x05\0\0\0\0\0\0\0\
    \x07\0\0\0\0\0\0\0\x01\0\0\0\0\0\0\0\
    \x64\0\0\0\0\0\0\0\x08\0\0\xc0\0\0\0\0\
    \x01\0\0\0\x01\x02\x03\x04\x01\0\0\0\0\0\0\0\
    \0\0\0\0\0\0\0\0\0\0\0\0\0\0\0\0";

/// The pieces of that parcel and of the end of its CPU, which has 8 records.
pub(crate) const STREAM: &[u8] = b"TRPARCEL\x01\0\0\0\0\0\0\0\
    \x60\0\0\0\0\0\0\0\x88\x77\x66\x55\x44\x33\x22\x11\
    \0\0\0\0\0\0\0\0\x05\0\0\0\0\0\0\0\
    \x07\0\0\0\0\0\0\0\x01\0\0\0\0\0\0\0\
    \x64\0\0\0\0\0\0\0\x08\0\0\x80\0\0\0\0\
    \x01\0\0\0\x01\x02\x03\x04\xc8\xc2\x11\x5a\0\0\0\0\
    TRPARCEL\x01\0\0\0\x01\0\0\0\
    \x38\0\0\0\0\0\0\0\x88\x77\x66\x55\x44\x33\x22\x11\
    \0\0\0\0\0\0\0\0\x08\0\0\0\0\0\0\0\
    \xa5\x1e\xac\xc5\0\0\0\0";

/// The two pieces of `STREAM`, the first one with kind 4.
const OTHER_KIND: &[u8] = b"TRPARCEL\x01\0\0\0\x04\0\0\0\
    \x60\0\0\0\0\0\0\0\x88\x77\x66\x55\x44\x33\x22\x11\
    \0\0\0\0\0\0\0\0\x05\0\0\0\0\0\0\0\
    \x07\0\0\0\0\0\0\0\x01\0\0\0\0\0\0\0\
    \x64\0\0\0\0\0\0\0\x08\0\0\x80\0\0\0\0\
    \x01\0\0\0\x01\x02\x03\x04\xd9\x4c\xdd\xe9\0\0\0\0\
    TRPARCEL\x01\0\0\0\x01\0\0\0\
    \x38\0\0\0\0\0\0\0\x88\x77\x66\x55\x44\x33\x22\x11\
    \0\0\0\0\0\0\0\0\x08\0\0\0\0\0\0\0\
    \xa5\x1e\xac\xc5\0\0\0\0";

/// The two pieces of `STREAM`, with a byte after the parcel's data.
const BYTE_BEHIND: &[u8] = b"TRPARCEL\x01\0\0\0\0\0\0\0\
    \x61\0\0\0\0\0\0\0\x88\x77\x66\x55\x44\x33\x22\x11\
    \0\0\0\0\0\0\0\0\x05\0\0\0\0\0\0\0\
    \x07\0\0\0\0\0\0\0\x01\0\0\0\0\0\0\0\
    \x64\0\0\0\0\0\0\0\x08\0\0\x80\0\0\0\0\
    \x01\0\0\0\x01\x02\x03\x04\0\xd5\xf4\x43\xaf\0\0\0\
    \0\x54\x52\x50\x41\x52\x43\x45\x4c\x01\0\0\0\x01\0\0\
    \0\x38\0\0\0\0\0\0\0\x88\x77\x66\x55\x44\x33\x22\
    \x11\0\0\0\0\0\0\0\0\x08\0\0\0\0\0\0\
    \0\xa5\x1e\xac\xc5\0\0\0\0";

/// The two pieces of `STREAM`, the end one of CPU 256.
const OTHER_CPU: &[u8] = b"TRPARCEL\x01\0\0\0\0\0\0\0\
    \x60\0\0\0\0\0\0\0\x88\x77\x66\x55\x44\x33\x22\x11\
    \0\0\0\0\0\0\0\0\x05\0\0\0\0\0\0\0\
    \x07\0\0\0\0\0\0\0\x01\0\0\0\0\0\0\0\
    \x64\0\0\0\0\0\0\0\x08\0\0\x80\0\0\0\0\
    \x01\0\0\0\x01\x02\x03\x04\xc8\xc2\x11\x5a\0\0\0\0\
    TRPARCEL\x01\0\0\0\x01\0\0\0\
    \x38\0\0\0\0\0\0\0\x88\x77\x66\x55\x44\x33\x22\x11\
    \0\x01\0\0\0\0\0\0\x08\0\0\0\0\0\0\0\
    \xa4\xe3\x22\xa2\0\0\0\0";

/// Of CPU 0 nothing below 5 is kept.
const FORGOTTEN: &[u8] = b"TRPARCEL\x01\0\0\0\x02\0\0\0\
    \x38\0\0\0\0\0\0\0\x88\x77\x66\x55\x44\x33\x22\x11\
    \0\0\0\0\0\0\0\0\x05\0\0\0\0\0\0\0\
    \xf1\x29\xe3\xbb\0\0\0\0";

/// Of CPU 0 the numbers 5 and 6 were given up.
const UNDELIVERED: &[u8] = b"TRPARCEL\x01\0\0\0\x03\0\0\0\
    \x40\0\0\0\0\0\0\0\x88\x77\x66\x55\x44\x33\x22\x11\
    \0\0\0\0\0\0\0\0\x05\0\0\0\0\0\0\0\
    \x07\0\0\0\0\0\0\0\xa3\x8c\x2b\x69\0\0\0\0";

/// The two marks.
const MARKS: &[(Mark, &[u8])] = &[
    (Mark::Forgotten(5), FORGOTTEN),
    (Mark::Undelivered(5, 7), UNDELIVERED),
];

/// Of CPU 0 nothing below 0 is kept.
const NO_BOUND: &[u8] = b"TRPARCEL\x01\0\0\0\x02\0\0\0\
    \x38\0\0\0\0\0\0\0\x88\x77\x66\x55\x44\x33\x22\x11\
    \0\0\0\0\0\0\0\0\0\0\0\0\0\0\0\0\
    \xbb\xd6\xc2\xd3\0\0\0\0";

/// Of CPU 0 the numbers from 7 up to 7 were given up.
const NO_NUMBER: &[u8] = b"TRPARCEL\x01\0\0\0\x03\0\0\0\
    \x40\0\0\0\0\0\0\0\x88\x77\x66\x55\x44\x33\x22\x11\
    \0\0\0\0\0\0\0\0\x07\0\0\0\0\0\0\0\
    \x07\0\0\0\0\0\0\0\xae\xe1\xdf\x88\0\0\0\0";

/// Streams with a fault each: the index of its piece, the byte at which that begins, and the fault.
const FAULTS: &[(&[u8], usize, usize, PieceFault)] = &[
    (OTHER_KIND, 0, 0, PieceFault::BadKind),
    (BYTE_BEHIND, 0, 0, PieceFault::Loose),
    (OTHER_CPU, 1, 96, PieceFault::BadMark),
    (NO_BOUND, 0, 0, PieceFault::BadMark),
    (NO_NUMBER, 0, 0, PieceFault::BadMark),
];

/// What is packed are the bytes, without the page's room.
#[test]
fn a_stream_is_packed(rt: HostRuntime) -> Result<(), Fail> {
    let parcel = Parcel::from_bytes(rt.alloc(), WITH_ROOM)?;
    let first = pack_parcel(rt.alloc(), STREAM_ID, &parcel)?;
    let second = pack_mark(rt.alloc(), STREAM_ID, CpuId(0), Mark::End(8))?;
    let (front, behind) = STREAM.split_at(96);
    assert!(rt; first.as_slice() == front);
    assert!(rt; second.as_slice() == behind);
    assert!(rt; is_stream(STREAM) && !is_stream(&STREAM[..7]));
    Ok(())
}

/// Compares the parcel of the stream.
fn compare_parcel(rt: &impl Abort, piece: &Piece) {
    let Piece::Parcel(stream, parcel) = piece else {
        panic!(rt; "no parcel");
    };
    assert!(rt; *stream == STREAM_ID && parcel.cpu() == CpuId(0) && parcel.fill() == FillNo(5));
    assert!(rt; parcel.first() == RecordNo(7) && parcel.count() == 1 && parcel.missed() == 1);
}

/// Compares a mark of CPU 0.
fn compare_mark(rt: &impl Abort, piece: &Piece, mark: Mark) {
    let Piece::Mark(stream, cpu, found) = piece else {
        panic!(rt; "no mark");
    };
    assert!(rt; *stream == STREAM_ID && *cpu == CpuId(0) && *found == mark);
}

/// And they are read as what was packed.
#[test]
fn a_stream_is_read(rt: HostRuntime) -> Result<(), Fail> {
    let (piece, len) = read_piece(rt.alloc(), STREAM)?;
    assert!(rt; len == 96);
    compare_parcel(&rt, &piece);
    let pieces = read_stream(rt.alloc(), STREAM)?;
    let [first, second] = pieces.as_slice() else {
        panic!(rt; "other pieces");
    };
    compare_parcel(&rt, first);
    compare_mark(&rt, second, Mark::End(8));
    Ok(())
}

/// Marks are packed, and read.
#[test]
fn marks_are_read(rt: HostRuntime) -> Result<(), Fail> {
    for &(mark, bytes) in MARKS {
        assert!(rt; mark.is_sound());
        let packed = pack_mark(rt.alloc(), STREAM_ID, CpuId(0), mark)?;
        assert!(rt; packed.as_slice() == bytes);
        let (piece, len) = read_piece(rt.alloc(), bytes)?;
        assert!(rt; len == bytes.len());
        compare_mark(&rt, &piece, mark);
    }
    Ok(())
}

/// Compares the fault of a stream.
fn compare_fault(
    rt: &(impl Abort + AllocGlobal),
    bytes: &[u8],
    index: usize,
    at: usize,
    fault: PieceFault,
) {
    match read_stream(rt.alloc(), bytes) {
        Ok(_) => panic!(rt; "a stream"),
        Err(found) => assert!(rt; found == StreamFault { index, at, fault }),
    }
}

/// A fault is named by its piece.
#[test]
fn a_fault_is_found(rt: HostRuntime) -> Result<(), Fail> {
    for &(bytes, index, at, fault) in FAULTS {
        compare_fault(&rt, bytes, index, at, fault);
    }
    compare_fault(&rt, &STREAM[..151], 1, 96, PieceFault::Cut);
    for (letter, fault) in [(b'T', PieceFault::Cut), (b'X', PieceFault::NotPacked)] {
        let mut longer = Vec::from_slice(rt.alloc(), STREAM)?;
        longer.push(letter)?;
        compare_fault(&rt, &longer, 2, 152, fault);
    }
    Ok(())
}
