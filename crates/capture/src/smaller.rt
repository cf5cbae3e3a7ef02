//! Several pages that are read as one.
ghost use Rattle.std.specs.Prelude.{◌≡◌, ◌≤◌, length, map};
ghost use Rattle.capture.specs.Smaller.{has_plain_bits, begins_page, comes_after, has_page_at, first_shown, smaller_in};

use crate::head::{HEADER, stated_size};
use page_image::number_at;

/// The sizes of a kernel's pages, in bytes, but for the largest one.
const SMALL_SIZES: [u32; 4] = [4096, 8192, 16384, 32768];

/// Times are taken to be of one capture if they are less than this apart: 2^48.
const APART: u64 = 1 << 48;

/// Whether bits 32 to 63 of the commit word are as kernels write them: none of them is set, or all are.
fn has_plain_bits(bytes: &[u8]) -> bool
    requires { 16 ≤ length bytes.now }
    ensures { result ≡ has_plain_bits bytes.now }
{
    let bits = number_at(bytes, 8) / (1 << 32);
    bits == 0 || bits == (1 << 32) - 1
}

/// Whether bytes begin with the head of a page of this size, with data.
fn begins_page(size: usize, bytes: &[u8]) -> bool
    requires { 16 ≤ length bytes.now }
    ensures { result ≡ begins_page size bytes.now }
{
    let data = stated_size(bytes);
    0 < data && HEADER + data <= size && has_plain_bits(bytes)
}

/// Whether a time is as late as another one, or later by less than 2^48.
fn comes_after(before: u64, time: u64) -> bool
    ensures { result ≡ comes_after before time }
{
    before <= time && time - before < APART
}

/// Whether what is read as one page has another one, this many bytes after its beginning.
fn has_page_at(size: usize, page: &[u8]) -> bool
    ensures { result ≡ has_page_at size page.now }
{
    if page.len() < HEADER || page.len() - HEADER < size {
        return false;
    }
    let other = &page[size..];
    HEADER + stated_size(page) <= size
        && begins_page(size, other)
        && comes_after(number_at(page, 0), number_at(other, 0))
}

/// Of sizes the first at which there is another page.
fn first_shown(sizes: &[u32], page: &[u8]) -> Option<u32>
    ensures { result ≡ first_shown sizes.now page.now }
{
    for size in sizes {
        if has_page_at(*size as usize, page) {
            return Some(*size);
        }
    }
    None
}

/// The size, in bytes, of the smaller pages that what is read as one page has, if it has several.
#[tactic(auto, unfolding(crate::specs::Smaller::smaller_in))]
pub fn smaller_in(page: &[u8]) -> Option<u32>
    ensures { result ≡ smaller_in page.now }
{
    first_shown(&SMALL_SIZES, page)
}
