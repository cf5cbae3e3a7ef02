//! The two ends of a command: what it reads from and what it writes to.
//!
//! They are std's `read` and `write` under contracts that also say whether an end has failed. A read or
//! a write is asked for only of an end that has not failed, so whatever is proved over these ends stops
//! at the first failure: after a failed read nothing more is read, after a failed write nothing more is
//! written.
ghost use Rattle.std.specs.Prelude.{◌≡◌, ℕ, Bool, true, false, List, length, Option, IsErrAnd, IsTrue, ◌↔◌, ◌≢◌};
ghost use Rattle.std.specs.Io.{ReadsAtMost, WritesAtMost};
ghost use Rattle.std.specs.Io.KnownBytes.{ReadConsumes, WriteAppends};
ghost use Rattle.command_io.specs.Counting.{count_more};
ghost use Rattle.command_io.specs.Failing.{read_fails, write_fails};

use std::io::{ErrorKind, Read, Write};
use std::{fmt, io};

/// What a command reads from.
pub trait Source {
    // The bytes that it has not given yet, if they are known.
    ghost remaining: { Self → Option (List ℕ) };
    // Whether a read has failed so far.
    ghost failed: { Self → Bool };
    // How many bytes it has given so far; the count stops at 2^64 - 1.
    ghost count: { Self → ℕ };

    /// Reads some bytes into the beginning of `buf` and returns their number: 0 at the end, or for an empty `buf`.
    /// After a read that failed there is no other.
    fn read(&mut self, buf: &mut [u8]) -> io::Result<usize>
        requires { failed self.old ≡ false }
        ensures bound { ReadsAtMost result buf.new }
        ensures bytes { ReadConsumes (remaining self.old) (remaining self.new) result buf.new }
        ensures fails { failed self.new ≡ read_fails result }
        ensures counts { count self.new ≡ count_more (count self.old) result };
}

/// What a command writes to.
pub trait Sink {
    // The bytes that it has taken, if they are known.
    ghost contents: { Self → Option (List ℕ) };
    // Whether a write has failed so far.
    ghost failed: { Self → Bool };

    /// Takes some bytes from the beginning of `buf` and returns their number. Taking none of one or more bytes is a
    /// failure, as an `Err` is. After a write that failed there is no other.
    fn write(&mut self, buf: &[u8]) -> io::Result<usize>
        requires { failed self.old ≡ false }
        ensures bound { WritesAtMost result buf.now }
        ensures bytes { WriteAppends (contents self.old) (contents self.new) result buf.now }
        ensures fails { failed self.new ≡ write_fails result (length buf.now) };
}

/// Whether an end can still be used.
#[derive(Clone, Copy)]
enum State {
    /// No read or write has failed.
    Sound,
    /// A write has failed, as it is to a pipe that nobody reads any more.
    NoReader,
    /// A read or a write has failed for another reason.
    Failed,
}

/// The state after a call that failed by an error of this kind.
fn state_after(kind: ErrorKind) -> State
    ensures no_reader { kind ≡ ErrorKind.BrokenPipe → result ≡ State.NoReader }
    ensures failed { kind ≢ ErrorKind.BrokenPipe → result ≡ State.Failed }
{
    match kind {
        ErrorKind::BrokenPipe => State::NoReader,
        _ => State::Failed,
    }
}

/// An end of std as an end of a command, with a note whether it has failed, and how many bytes it has given.
#[derive(Drop)]
pub struct Std<T> {
    inner: T,
    state: State,
    count: u64,
}

impl<T> Std<T> {
    ghost use Rattle.command_io.specs.Ends.{inner_of, has_failed, has_no_reader, count_of};

    /// The end `inner`, which has not failed yet, and has given nothing.
    pub fn new(inner: T) -> Std<T>
        ensures inner { inner_of result ≡ inner }
        ensures fresh { has_failed result ≡ false }
        ensures none { count_of result ≡ 0 }
    {
        Std {
            inner,
            state: State::Sound,
            count: 0,
        }
    }

    /// Whether a read or a write of it has failed.
    pub fn has_failed(&self) -> bool
        ensures { IsTrue result ↔ (has_failed self.now ≡ true) }
    {
        match self.state {
            State::Sound => false,
            State::NoReader | State::Failed => true,
        }
    }

    /// Whether a write of it has failed since nobody reads any more what is written, as of a pipe that its reader has
    /// closed.
    pub fn has_no_reader(&self) -> bool
        ensures { IsTrue result ↔ (has_no_reader self.now ≡ true) }
    {
        match self.state {
            State::NoReader => true,
            State::Sound | State::Failed => false,
        }
    }

    /// How many bytes it has given to those who read from it; the count stops at 2^64 - 1.
    pub fn count(&self) -> u64
        ensures { result ≡ count_of self.now }
    {
        self.count
    }
}

/// Whether it has failed, and how many bytes it has given.
impl<T> fmt::Debug for Std<T> {
    fn fmt<W: fmt::Write>(&self, f: &mut fmt::Formatter<W>) -> fmt::Result {
        f.debug_struct("Std")
            .field("failed", &self.has_failed())
            .field("count", &self.count)
            .finish_non_exhaustive()
    }
}

impl<T: Read> Source for Std<T> {
    ghost use Rattle.command_io.specs.Ends.{inner_of, has_failed, count_of};

    ghost remaining = { λ s. T.remaining (inner_of s) };

    ghost failed = { has_failed };

    ghost count = { count_of };

    fn read(&mut self, buf: &mut [u8]) -> io::Result<usize> {
        let result = self.inner.read(buf);
        match &result {
            Ok(count) => self.count = self.count.saturating_add(*count as u64),
            Err(_) => self.state = State::Failed,
        }
        result
    }
}

impl<T: Write> Sink for Std<T> {
    ghost use Rattle.std.specs.IoError.{error_kind};
    ghost use Rattle.command_io.specs.Ends.{inner_of, has_failed, has_no_reader};

    ghost contents = { λ s. T.contents (inner_of s) };

    ghost failed = { has_failed };

    fn write(&mut self, buf: &[u8]) -> io::Result<usize>
        requires { has_failed self.old ≡ false }
        ensures bound { WritesAtMost result buf.now }
        ensures bytes { WriteAppends (T.contents (inner_of self.old)) (T.contents (inner_of self.new)) result buf.now }
        ensures fails { has_failed self.new ≡ write_fails result (length buf.now) }
        ensures no_reader { (has_no_reader self.new ≡ true)
            ↔ IsErrAnd result (λ error. error_kind error ≡ ErrorKind.BrokenPipe) }
    {
        let result = self.inner.write(buf);
        match &result {
            Ok(0) if !buf.is_empty() => self.state = State::Failed,
            Ok(_) => {}
            Err(error) => self.state = state_after(error.kind()),
        }
        result
    }
}
