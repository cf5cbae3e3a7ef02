//! The words of links.
ghost use Rattle.std.specs.Prelude.{◌≡◌, ◌≢◌, ◌%◌, ◌<◌};
ghost use Rattle.trace_model.specs.declared.limits.TheConstants.{LINK_FILLS, LINK_PAGES};
ghost use Rattle.trace_model.specs.Links.{word_of, FitsWord, normal_link, header_link, update_link};
ghost use Rattle.link_marks.specs.ModelLinks.{link_of};

use link_marks::{Link, header, normal, update};
use trace_model::FillNo;

/// The link of this word.
pub(crate) fn link_in(word: u64) -> Link
    requires mark { word % 4 ≢ 3 }
    ensures word { word_of (link_of result) ≡ word }
    ensures fits { FitsWord (link_of result) }
{
    match Link::unpack(word) {
        Some(link) => link,
        None => unreachable!(),
    }
}

/// The word of the link that states nothing of the page.
pub(crate) fn normal_word(page: u16, fill: FillNo) -> u64
    requires page_fits { page < LINK_PAGES }
    requires fill_fits { fill.0 < LINK_FILLS }
    ensures { result ≡ word_of (normal_link page fill.0) }
{
    normal(page, fill.0).pack()
}

/// The word of the link to the head.
pub(crate) fn header_word(page: u16, fill: FillNo) -> u64
    requires page_fits { page < LINK_PAGES }
    requires fill_fits { fill.0 < LINK_FILLS }
    ensures { result ≡ word_of (header_link page fill.0) }
{
    header(page, fill.0).pack()
}

/// The word of the link to a page away from which the head is moved.
pub(crate) fn update_word(page: u16, fill: FillNo) -> u64
    requires page_fits { page < LINK_PAGES }
    requires fill_fits { fill.0 < LINK_FILLS }
    ensures { result ≡ word_of (update_link page fill.0) }
{
    update(page, fill.0).pack()
}
