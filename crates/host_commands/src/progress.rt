//! How far a long reading or writing is.
use std::cell::Cell;
use std::io;
use std::io::{Read, Write};
use std::rt::Clock;
use std::time::Instant;

/// One MB of what is reported. After as many bytes the clock is read again.
const MEGABYTE: u64 = 1_000_000;

/// Takes away what is on the line.
fn clear_line<R: Eprint>(rt: &R) {
    let _ = eprint!(rt; "\r\x1b[K");
}

/// How far something is.
#[derive(Clone, Copy)]
struct Passed {
    /// How many bytes have passed.
    bytes: u64,
    /// After how many the clock is read again.
    next: u64,
    /// When it was last reported, or begun. `None` if nothing is to be reported.
    told: Option<Instant>,
    /// Whether something is on the line.
    is_shown: bool,
}

/// Reports on standard error how many bytes have passed, and of how many if that is known: at most once a second, after
/// the first second. The report is removed when this is dropped. What passes through several ends is one sum.
pub struct Progress<'a, R: Eprint + Clock> {
    rt: &'a R,
    /// What is done with the bytes.
    what: &'static str,
    /// How many bytes there are in all, if that is known.
    total: Option<u64>,
    passed: Cell<Passed>,
}

impl<'a, R: Eprint + Clock> Progress<'a, R> {
    /// Begins now, and reports nothing unless `is_wanted`. `what` is done with the bytes, as in "read"; `total` is how
    /// many there are, if that is known.
    pub fn begin(
        rt: &'a R,
        what: &'static str,
        total: Option<u64>,
        is_wanted: bool,
    ) -> Progress<'a, R> {
        let told = if is_wanted {
            Instant::now(rt).ok()
        } else {
            None
        };
        Progress {
            rt,
            what,
            total,
            passed: Cell::new(Passed {
                bytes: 0,
                next: MEGABYTE,
                told,
                is_shown: false,
            }),
        }
    }

    /// `count` bytes more have passed.
    fn pass(&self, count: usize) {
        let mut passed = self.passed.get();
        passed.bytes = passed.bytes.saturating_add(count as u64);
        if passed.bytes >= passed.next {
            passed.next = passed.bytes.saturating_add(MEGABYTE);
            self.look(&mut passed);
        }
        self.passed.set(passed);
    }

    /// As many bytes more have passed as a read gave. At the end the report is removed.
    pub(crate) fn note(&self, count: &io::Result<usize>) {
        match count {
            Ok(0) | Err(_) => self.end(),
            Ok(count) => self.pass(*count),
        }
    }

    /// Reports how many bytes have passed, if a second is over.
    fn look(&self, passed: &mut Passed) {
        let Some(told) = passed.told else {
            return;
        };
        let Ok(now) = Instant::now(self.rt) else {
            return;
        };
        if now.duration_since(told).as_secs() > 0 {
            passed.told = Some(now);
            passed.is_shown = true;
            self.show(passed.bytes);
        }
    }

    /// Puts a report on the line.
    fn show(&self, bytes: u64) {
        let (megabytes, what) = (bytes / MEGABYTE, self.what);
        let _ = match self.total {
            Some(total) if bytes <= total => {
                let total = total / MEGABYTE;
                eprint!(self.rt; "\rtracering: {megabytes} of {total} MB {what}\x1b[K")
            }
            _ => eprint!(self.rt; "\rtracering: {megabytes} MB {what}\x1b[K"),
        };
    }

    /// Removes the report.
    fn end(&self) {
        let mut passed = self.passed.get();
        if passed.is_shown {
            passed.is_shown = false;
            self.passed.set(passed);
            clear_line(self.rt);
        }
    }
}

impl<'a, R: Eprint + Clock> Drop for Progress<'a, R> {
    fn drop(self) {
        let Progress {
            rt,
            what: _,
            total: _,
            passed,
        } = self;
        if passed.get().is_shown {
            clear_line(rt);
        }
    }
}

/// A reader or writer that reports how many bytes have passed.
#[derive(Drop)]
pub struct Watched<'a, R: Eprint + Clock, T> {
    inner: T,
    progress: &'a Progress<'a, R>,
}

impl<'a, R: Eprint + Clock, T> Watched<'a, R, T> {
    ghost use Rattle.std.specs.Prelude.{◌≡◌};
    ghost use Rattle.host_commands.specs.Watches.{inner_of};

    /// The end `inner`, watched.
    pub fn new(inner: T, progress: &'a Progress<'a, R>) -> Watched<'a, R, T>
        ensures { inner_of result ≡ inner }
    {
        Watched { inner, progress }
    }
}

impl<'a, R: Eprint + Clock, T: Read> Read for Watched<'a, R, T> {
    ghost use Rattle.host_commands.specs.Watches.{inner_of};

    ghost remaining = { λ w. T.remaining (inner_of w) };

    fn read(&mut self, buf: &mut [u8]) -> io::Result<usize> {
        let result = self.inner.read(buf);
        self.progress.note(&result);
        result
    }
}

impl<'a, R: Eprint + Clock, T: Write> Write for Watched<'a, R, T> {
    ghost use Rattle.host_commands.specs.Watches.{inner_of};

    ghost contents = { λ w. T.contents (inner_of w) };

    fn write(&mut self, buf: &[u8]) -> io::Result<usize> {
        let result = self.inner.write(buf);
        if let Ok(count) = &result {
            self.progress.pass(*count);
        }
        result
    }

    fn flush(&mut self) -> io::Result<()> {
        self.inner.flush()
    }
}
