//! A source whose first bytes were looked at.
ghost use Rattle.std.specs.Prelude.{◌≤◌};
ghost use Rattle.parcel_streams.specs.declared.source.peeked.TheConstants.{PEEKED};

use crate::is_stream;
use command_io::{Source, fill_piece};
use std::io;

/// How many bytes are looked at: the letters with which a stream begins.
pub(crate) const PEEKED: usize = 8;

/// A source of which the first eight bytes were read, or all, if it has fewer. It gives them again.
#[derive(Drop)]
pub struct Peeked<R> {
    reader: R,
    /// The bytes that were read.
    first: [u8; PEEKED],
    /// How many there are.
    len: usize,
    /// How many of them were given again.
    given: usize,
    /// How many bytes were given in all.
    count: u64,
    ghost within: { len ≤ PEEKED },
    ghost some: { given ≤ len },
}

impl<R> Peeked<R> {
    ghost use Rattle.std.specs.Prelude.{◌≡◌, ◌<◌, ◌≤◌, ◌↔◌, ◌++◌, IsTrue, length, take};
    ghost use Rattle.parcel_streams.specs.source.Reading.{BeginsStream};
    ghost use Rattle.parcel_streams.specs.source.Readers.{peeked_reader, peeked_unread, peeked_count};

    /// Whether the source begins as a stream of parcels does. It is asked for before anything is read of it.
    pub fn is_stream(&self) -> bool
        ensures { IsTrue result ↔ BeginsStream (peeked_unread self.now) }
    {
        is_stream(&self.first[self.given..self.len])
    }

    /// Whether the source has no byte. It is asked for before anything is read of it.
    pub fn is_empty(&self) -> bool
        ensures { IsTrue result ↔ (length (peeked_unread self.now) ≡ 0) }
    {
        self.first[self.given..self.len].is_empty()
    }

    /// Gives of the bytes that were looked at.
    fn give(&mut self, buf: &mut [u8]) -> usize
        ensures bound { result ≤ length buf.new }
        ensures taken { peeked_unread self.old ≡ take result buf.new ++ peeked_unread self.new }
        ensures some { self.old.given < self.old.len → result ≡ 0 → length buf.new ≡ 0 }
        ensures reader { peeked_reader self.new ≡ peeked_reader self.old }
        ensures count { peeked_count self.new ≡ peeked_count self.old }
    {
        let unread = &self.first[self.given..self.len];
        let count = unread.len().min(buf.len());
        buf[..count].copy_from_slice(&unread[..count]);
        self.given += count;
        count
    }
}

impl<R: Source> Peeked<R> {
    ghost use Rattle.std.specs.Prelude.{◌≡◌, ◌↔◌, false, length, IfOk, IfSome};
    ghost use Rattle.std.specs.Io.KnownBytes.{Keeps};
    ghost use Rattle.parcel_streams.specs.source.Reading.{BeginsStream};
    ghost use Rattle.parcel_streams.specs.source.Readers.{peeked_reader, peeked_unread, peeked_left};

    /// Reads the first bytes of a source.
    pub fn new(reader: R) -> io::Result<Peeked<R>>
    where
        R: Drop,
        requires { R.failed reader ≡ false }
        ensures left { IfOk result (λ peeked. Keeps (R.remaining reader) (peeked_left R.remaining peeked)) }
        ensures sound { IfOk result (λ peeked. R.failed (peeked_reader peeked) ≡ false) }
        ensures stream { IfOk result (λ peeked. IfSome (R.remaining reader) (λ bytes.
            BeginsStream (peeked_unread peeked) ↔ BeginsStream bytes)) }
        ensures empty { IfOk result (λ peeked. IfSome (R.remaining reader) (λ bytes.
            (length (peeked_unread peeked) ≡ 0) ↔ (length bytes ≡ 0))) }
    {
        let mut reader = reader;
        let mut first = [0; PEEKED];
        let len = fill_piece(&mut reader, &mut first)?;
        Ok(Peeked {
            reader,
            first,
            len,
            given: 0,
            count: 0,
        })
    }
}

impl<R: Source> Source for Peeked<R> {
    ghost use Rattle.parcel_streams.specs.source.Readers.{peeked_reader, peeked_left, peeked_count};

    ghost remaining = { peeked_left R.remaining };

    ghost failed = { λ peeked. R.failed (peeked_reader peeked) };

    ghost count = { peeked_count };

    fn read(&mut self, buf: &mut [u8]) -> io::Result<usize> {
        if self.given < self.len {
            let count = self.give(buf);
            self.count = self.count.saturating_add(count as u64);
            return Ok(count);
        }
        let count = self.reader.read(buf)?;
        self.count = self.count.saturating_add(count as u64);
        Ok(count)
    }
}
