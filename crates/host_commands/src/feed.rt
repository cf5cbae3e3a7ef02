//! What an input's bytes come from.
use std::io;
use std::io::Read;

/// What an input's bytes come from: a file, or standard input.
#[derive(Drop)]
pub enum Feed<F, S> {
    /// A file.
    File(F),
    /// Standard input.
    Standard(S),
}

impl<F: Read, S: Read> Read for Feed<F, S> {
    ghost use Rattle.host_commands.specs.Feeds.{left_in};

    ghost remaining = { left_in F.remaining S.remaining };

    fn read(&mut self, buf: &mut [u8]) -> io::Result<usize> {
        match self {
            Feed::File(file) => file.read(buf),
            Feed::Standard(input) => input.read(buf),
        }
    }
}
