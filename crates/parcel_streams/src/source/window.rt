//! The bytes of a source that are held.
ghost use Rattle.std.specs.Prelude.{◌≡◌, ◌≤◌, vec_len, vec_capacity};
ghost use Rattle.command_io.specs.declared.input.TheConstants.{READ_CHUNK};
ghost use Rattle.parcel_streams.specs.declared.source.limits.TheConstants.{ROOM};

use crate::source::limits::ROOM;
use command_io::{READ_CHUNK, Source};
use std::alloc::Global;
use std::io;
use trace_model::NoMemory;

/// Bytes of a source that were read: the piece that was given last, and after it those that weren't given yet.
#[derive(Drop)]
pub(crate) struct Window {
    /// What is read before the piece, the piece, and what wasn't given.
    bytes: Vec<u8>,
    /// Where the piece begins.
    from: usize,
    /// Where it ends.
    start: usize,
    /// Where bytes are read to.
    chunk: Vec<u8>,
    ghost piece_is: { from ≤ start },
    ghost within: { start ≤ vec_len bytes },
    ghost room: { ROOM ≤ vec_capacity bytes },
    ghost chunk_is: { vec_len chunk ≡ READ_CHUNK },
}

impl Window {
    ghost use Rattle.std.specs.Prelude.{◌≡◌, ◌≤◌, false, [], take, drop, length, IfOk, OnErr, is_err};
    ghost use Rattle.std.specs.Io.KnownBytes.{Keeps};
    ghost use Rattle.parcel_streams.specs.declared.limits.TheConstants.{MAX_PIECE};
    ghost use Rattle.parcel_streams.specs.source.Held.{held_unread, held_given};
    ghost use Rattle.parcel_streams.specs.source.Reading.{ReadsMore};

    /// A window in which nothing is.
    pub(crate) fn new(alloc: Global) -> Result<Window, NoMemory>
        ensures given { IfOk result (λ window. held_given window ≡ []) }
        ensures unread { IfOk result (λ window. held_unread window ≡ []) }
    {
        let bytes = Vec::with_capacity(alloc, ROOM)?;
        let chunk = vec![in alloc; 0u8; READ_CHUNK]?;
        Ok(Window {
            bytes,
            from: 0,
            start: 0,
            chunk,
        })
    }

    /// The bytes that weren't given yet.
    pub(crate) fn unread(&self) -> &[u8]
        ensures { result.now ≡ held_unread self.now }
    {
        &self.bytes[self.start..]
    }

    /// The bytes of the piece that was given last.
    pub(crate) fn given(&self) -> &[u8]
        ensures { result.now ≡ held_given self.now }
    {
        &self.bytes[self.from..self.start]
    }

    /// Gives the first bytes that weren't given yet.
    pub(crate) fn give(&mut self, len: usize)
        requires { len ≤ length (held_unread self.old) }
        ensures given { held_given self.new ≡ take len (held_unread self.old) }
        ensures unread { held_unread self.new ≡ drop len (held_unread self.old) }
    {
        self.from = self.start;
        self.start += len;
    }

    /// Moves what wasn't given to the front.
    fn move_up(&mut self)
        ensures given { held_given self.new ≡ [] }
        ensures unread { held_unread self.new ≡ held_unread self.old }
        ensures front { self.new.start ≡ 0 }
    {
        let left = self.bytes.len() - self.start;
        if self.start > 0 {
            self.bytes.copy_within(self.start.., 0);
            self.bytes.truncate(left);
        }
        self.from = 0;
        self.start = 0;
    }

    /// Reads more bytes, and answers how many: none only at the end of the source.
    pub(crate) fn read_more<R: Source>(&mut self, source: &mut R) -> io::Result<usize>
        requires sound { R.failed source.old ≡ false }
        requires room { length (held_unread self.old) ≤ MAX_PIECE }
        ensures given { held_given self.new ≡ [] }
        ensures read { IfOk result (λ count.
            ReadsMore (held_unread self.old) (held_unread self.new) (R.remaining source.old) (R.remaining source.new)
            count) }
        ensures unread { OnErr result (held_unread self.new ≡ held_unread self.old) }
        ensures kept { OnErr result (Keeps (R.remaining source.old) (R.remaining source.new)) }
        ensures fails { R.failed source.new ≡ is_err result }
    {
        self.move_up();
        let count = source.read(self.chunk.as_mut_slice())?;
        self.bytes.extend_from_slice(&self.chunk[..count]).unwrap();
        Ok(count)
    }
}
