//! A stream of parcels, read piece by piece from a source that gives a byte at a time.
ghost use Rattle.std.specs.Prelude.{◌≡◌, false};

use crate::streams::STREAM;
use command_io::{Source, Std};
use parcel_streams::PieceFault;
use parcel_streams::source::{Peeked, PieceReader, ReadPieceFault};
use std::io;
use std::io::{ErrorKind, Read};
use std::process::Abort;
use std::test::Fail;

/// Gives a byte at a time, and then ends, or fails.
#[derive(Drop)]
struct Trickle<'a> {
    bytes: &'a [u8],
    fails: bool,
}

impl Read for Trickle<'_> {
    fn read(&mut self, buf: &mut [u8]) -> io::Result<usize> {
        if let ([first, rest @ ..], [byte, ..]) = (self.bytes, buf) {
            *byte = *first;
            self.bytes = rest;
            return Ok(1);
        }
        if self.fails {
            return Err(io::Error::from(ErrorKind::Other));
        }
        Ok(0)
    }
}

/// How many pieces this many bytes of the stream have, and where the last one ends.
fn whole(len: usize) -> (u64, u64) {
    match len {
        0..96 => (0, 0),
        96..152 => (1, 96),
        _ => (2, 152),
    }
}

/// Compares how many pieces a source gives and where the last one ends, and why no more follow.
fn compare<R: Source + Drop>(
    rt: &(impl Abort + AllocGlobal),
    source: R,
    whole: (u64, u64),
    why: Option<ReadPieceFault>,
) -> Result<(), Fail>
    requires { R.failed source ≡ false }
{
    let mut reader = PieceReader::new(rt.alloc(), source)?;
    'pieces: for _ in 0..whole.0 {
        let piece = reader.next(rt.alloc())?;
        assert!(rt; piece.is_some() && !reader.bytes().is_empty());
    }
    assert!(rt; (reader.index(), reader.at()) == whole);
    match reader.next(rt.alloc()) {
        Ok(piece) => assert!(rt; piece.is_none() && why.is_none()),
        Err(fault) => assert!(rt; why == Some(fault)),
    }
    Ok(())
}

/// Cut at any byte, a stream has its whole pieces, and where it isn't cut between two, a fault after them.
#[test]
fn a_cut_stream_is_read(rt: HostRuntime) -> Result<(), Fail> {
    for len in 0..=STREAM.len() {
        let (bytes, fails) = (&STREAM[..len], false);
        let peeked = Peeked::new(Std::new(Trickle { bytes, fails }))?;
        assert!(rt; peeked.is_stream() == (len >= 8));
        let (index, at) = whole(len);
        let cut = at != len as u64;
        let why = cut.then_some(ReadPieceFault::Piece(PieceFault::Cut));
        compare(&rt, peeked, (index, at), why)?;
    }
    Ok(())
}

/// A source that fails in the middle of a stream gives the pieces before that, and then says so.
#[test]
fn a_failed_read_is_reported(rt: HostRuntime) -> Result<(), Fail> {
    for len in 0..=STREAM.len() {
        let (bytes, fails) = (&STREAM[..len], true);
        let source = Std::new(Trickle { bytes, fails });
        compare(&rt, source, whole(len), Some(ReadPieceFault::Read))?;
    }
    Ok(())
}
