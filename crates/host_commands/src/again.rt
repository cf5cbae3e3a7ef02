//! A file that is read again.
use crate::progress::Progress;
use std::cell::Cell;
use std::fs::File;
use std::io;
use std::io::{ErrorKind, Read, Take};

/// What was read before up to its end, and is read again: no more of it than there was, and it is reported how much. A
/// read fails at its end if there is less now.
#[derive(Drop)]
pub struct Again<'a> {
    left: Take<&'a File>,
    /// Whether a read failed for another reason.
    has_failed: &'a Cell<bool>,
    progress: &'a Progress<'a, HostRuntime>,
}

impl<'a> Again<'a> {
    /// So many bytes of what `file` has.
    pub fn new(
        file: &'a File,
        length: u64,
        has_failed: &'a Cell<bool>,
        progress: &'a Progress<'a, HostRuntime>,
    ) -> Again<'a> {
        Again {
            left: file.take(length),
            has_failed,
            progress,
        }
    }
}

/// What it gives isn't known: it may have changed.
impl<'a> Read for Again<'a> {
    fn read(&mut self, buf: &mut [u8]) -> io::Result<usize> {
        let result = self.left.read(buf);
        self.progress.note(&result);
        match result {
            Ok(0) if !buf.is_empty() && self.left.limit() > 0 => {
                Err(io::Error::from(ErrorKind::UnexpectedEof))
            }
            Ok(count) => Ok(count),
            Err(error) => {
                self.has_failed.set(true);
                Err(error)
            }
        }
    }
}
