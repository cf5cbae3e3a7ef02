//! Bytes that go into a caller's buffer.
ghost use Rattle.library_values.specs.Buffer.{PutsSo};

/// What became of bytes that were to go to the front of a buffer.
#[derive(Clone, Copy, Debug, PartialEq, Eq)]
pub enum Put {
    /// They are there; how many they are.
    Done(usize),
    /// The buffer is shorter than they are. Nothing was put. The number is theirs.
    NoRoom(usize),
}

/// Puts the bytes to the front of `out`, if it has room for them.
pub(crate) fn put_front(out: &mut [u8], bytes: &[u8]) -> Put
    ensures { PutsSo bytes.now out.old result out.new }
{
    if out.len() < bytes.len() {
        return Put::NoRoom(bytes.len());
    }
    out[..bytes.len()].copy_from_slice(bytes);
    Put::Done(bytes.len())
}
