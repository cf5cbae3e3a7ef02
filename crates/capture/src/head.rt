//! The head of a page: its time and its commit word, of eight bytes each.
ghost use Rattle.std.specs.Prelude.{◌≡◌, ◌≤◌, length};
ghost use Rattle.capture.specs.stamps.Restored.{stated_size};

use page_image::number_at;

/// How many bytes the head of a page takes.
pub(crate) const HEADER: usize = 16;

/// Bits 0 to 29 of a commit word, below this bit, are the size of the data.
const SIZE_LIMIT: u64 = 1 << 30;

/// How many bytes of data the head of a page states.
pub(crate) fn stated_size(page: &[u8]) -> usize
    requires { 16 ≤ length page.now }
    ensures { result ≡ stated_size page.now }
{
    (number_at(page, 8) % SIZE_LIMIT) as usize
}
