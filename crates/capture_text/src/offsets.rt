//! Where the pages of a CPU begin, of several parts.
ghost use Rattle.std.specs.Prelude.{◌≡◌, ◌*◌, ◌<◌};
ghost use Rattle.capture_text.specs.Printing.{page_count, offset_of};

use capture::Part;

/// How many pages a part has.
fn page_count(part: &Part) -> u64
    ensures { result ≡ page_count part.now }
{
    if part.size == 0 {
        return 0;
    }
    part.length.div_ceil(part.size)
}

/// The place of the first byte of a page, in the bytes of its part.
fn place_in(part: Part, index: u64) -> u64
    requires { index < page_count part }
    ensures { result ≡ part.size * index }
{
    part.size * index
}

/// The place of the first byte of a page, in the bytes of all parts.
pub(crate) fn offset_of(parts: &[Part], index: u64) -> u128
    ensures { result ≡ offset_of parts.now index }
{
    let mut before = 0;
    let mut left = index;
    for part in parts {
        let pages = page_count(part);
        if left < pages {
            return before + u128::from(place_in(*part, left));
        }
        before += u128::from(part.length);
        left -= pages;
    }
    before
}
