//! The thread that reads an input.
ghost use Rattle.std.specs.Prelude.{◌≡◌, ◌<◌, ◌≤◌, false, vec_len, IfOk, IfSome, OnOk, Ok, None};
ghost use Rattle.std.specs.Io.KnownBytes.{Consumes, IsAtEnd};

use crate::inputs::open_feed;
use crate::message::Trouble;
use command_io::{Source, Std, fill_piece};
use crossbeam_channel::Sender;
use std::alloc::Global;
use std::io;
use std::io::ErrorKind;
use std::sync::{Arc, Wait};
use std::thread::Parker;

/// What a thread gives of its input.
#[derive(Debug, Drop)]
pub(crate) enum Piece {
    /// A page, or the last bytes before the input's end. It is never empty.
    Page(Vec<u8>),
    /// The input can't be opened, or not be read on.
    Failed(Trouble),
    /// Memory was refused.
    NoMemory,
}

/// What wakes the thread that takes the pieces.
pub(crate) type Bell = Arc<Parker, Global>;

/// Where a thread puts its pieces.
#[derive(Drop)]
pub(crate) struct Outlet {
    pub pieces: Sender<Piece>,
    pub bell: Bell,
}

impl Outlet {
    /// Gives a piece, as soon as there is room. Whether somebody wants more.
    fn give<T: Wait>(&self, threads: &T, piece: Piece) -> bool {
        let is_taken = self.pieces.send(threads, piece).is_ok();
        self.bell.unpark();
        is_taken
    }

    /// Gives nothing more.
    fn close(self) {
        let Outlet { pieces, bell } = self;
        drop(pieces);
        bell.unpark();
    }
}

/// What is given if an input can't be opened.
fn failure(error: io::Error) -> Piece {
    match error.kind() {
        ErrorKind::OutOfMemory => Piece::NoMemory,
        _ => Piece::Failed(Trouble::Unopened),
    }
}

/// The next page of a source, or what is left before its end; `None` at its end. If a read fails, what was read of the
/// page is lost.
fn next_page<S: Source>(
    alloc: Global,
    source: &mut S,
    page: usize,
) -> Result<Option<Vec<u8>>, Piece>
    requires sound { S.failed source.old ≡ false }
    requires page { 0 < page }
    ensures sound { OnOk result (S.failed source.new ≡ false) }
    ensures page { IfOk result (λ found. IfSome found (λ bytes.
        Consumes (S.remaining source.old) (S.remaining source.new) bytes.items
        × (0 < vec_len bytes) × (vec_len bytes ≤ page)
        × (vec_len bytes < page → IsAtEnd (S.remaining source.new)))) }
    ensures end { result ≡ Ok None → IsAtEnd (S.remaining source.new) }
{
    let Ok(mut bytes) = vec![in alloc; 0u8; page] else {
        return Err(Piece::NoMemory);
    };
    match fill_piece(source, bytes.as_mut_slice()) {
        Ok(0) => Ok(None),
        Ok(count) => {
            bytes.truncate(count);
            Ok(Some(bytes))
        }
        Err(_) => Err(Piece::Failed(Trouble::Unread)),
    }
}

/// Gives all that comes of a source.
fn give_pages<T: Wait, S: Source>(
    threads: &T,
    alloc: Global,
    source: &mut S,
    page: usize,
    outlet: &Outlet,
)
    requires sound { S.failed source.old ≡ false }
    requires page { 0 < page }
{
    for _ in threads.forever() {
        match next_page(alloc, source, page) {
            Ok(None) => return,
            Ok(Some(bytes)) => {
                if !outlet.give(threads, Piece::Page(bytes)) {
                    return;
                }
            }
            Err(piece) => {
                outlet.give(threads, piece);
                return;
            }
        }
    }
}

/// Reads a file while it is written. To open a pipe is to wait for its writer, so this is done here too.
pub(crate) fn read_file<T: Wait + Drop>(
    rt: HostRuntime,
    threads: T,
    path: String,
    page: usize,
    outlet: Outlet,
)
    requires { 0 < page }
{
    match open_feed(&rt, path.as_str()) {
        Ok(feed) => give_pages(&threads, rt.alloc(), &mut Std::new(feed), page, &outlet),
        Err(error) => {
            outlet.give(&threads, failure(error));
        }
    }
    outlet.close();
}
