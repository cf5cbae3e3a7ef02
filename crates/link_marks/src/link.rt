//! A link into a position of the ring, and the word that holds it.

ghost use Rattle.std.specs.Prelude.{◌≡◌, ◌+◌, ◌≤◌, ◌<◌};
ghost use Rattle.trace_model.specs.Links.{normal_link, header_link, update_link, FitsWord};
ghost use Rattle.trace_model.specs.declared.limits.TheConstants.{MAX_PAGES, LINK_FILLS};
ghost use Rattle.link_marks.specs.FirstLinks.{IsFirstLink};
ghost use Rattle.link_marks.specs.ModelLinks.{link_of};

use trace_model::LINK_PAGES;

/// The page of a link counts from bit 2 of its word on.
const PAGE_UNIT: u64 = 4;

/// The fill of a link counts from bit 16 of its word on.
const FILL_UNIT: u64 = 65_536;

/// What a link says of the page that it leads to.
#[derive(Clone, Copy, Debug, PartialEq, Eq)]
pub enum Mark {
    /// Nothing is stated of the page.
    Normal,
    /// The page is the head: the oldest one that is neither taken nor lost.
    Header,
    /// A writer moves the head away from the page.
    Update,
}

/// A link into a position: the page that is there, and the fill that the mark refers to.
#[derive(Clone, Copy, Debug, PartialEq, Eq)]
pub struct Link {
    /// What the link says of the page.
    pub mark: Mark,
    /// The number of the page, below `LINK_PAGES`.
    pub page: u16,
    /// The number of the fill, below `LINK_FILLS`.
    pub fill: u64,
}

impl Link {
    ghost use Rattle.std.specs.Prelude.{◌≡◌, ◌%◌, ◌<◌, ◌↔◌, IsNone, IfSome};
    ghost use Rattle.trace_model.specs.Links.{word_of, FitsWord};
    ghost use Rattle.trace_model.specs.declared.limits.TheConstants.{LINK_FILLS, LINK_PAGES};
    ghost use Rattle.link_marks.specs.ModelLinks.{link_of};

    /// The word of this link: the mark in bits 0 and 1, the page in bits 2 to 15, the fill in bits 16
    /// to 63.
    pub fn pack(&self) -> u64
        requires page_fits { self.now.page < LINK_PAGES }
        requires fill_fits { self.now.fill < LINK_FILLS }
        ensures { result ≡ word_of (link_of self.now) }
    {
        let mark = match self.mark {
            Mark::Normal => 0,
            Mark::Header => 1,
            Mark::Update => 2,
        };
        mark + PAGE_UNIT * self.page as u64 + FILL_UNIT * self.fill
    }

    /// The link whose word this is, or `None` where the two low bits are those of no mark.
    pub fn unpack(word: u64) -> Option<Link>
        ensures none { IsNone result ↔ (word % 4 ≡ 3) }
        ensures word_is { IfSome result (λ l. word_of (link_of l) ≡ word) }
        ensures fits { IfSome result (λ l. FitsWord (link_of l)) }
        ensures back { (l : Link) → FitsWord (link_of l) → word_of (link_of l) ≡ word → result ≡ Some l }
    {
        let mark = match word % 4 {
            0 => Mark::Normal,
            1 => Mark::Header,
            2 => Mark::Update,
            _ => return None,
        };
        Some(Link {
            mark,
            page: (word / PAGE_UNIT % LINK_PAGES) as u16,
            fill: word / FILL_UNIT,
        })
    }
}

/// The link that states nothing of the page.
pub fn normal(page: u16, fill: u64) -> Link
    ensures { link_of result ≡ normal_link page fill }
{
    Link {
        mark: Mark::Normal,
        page,
        fill,
    }
}

/// The link to the head.
pub fn header(page: u16, fill: u64) -> Link
    ensures { link_of result ≡ header_link page fill }
{
    Link {
        mark: Mark::Header,
        page,
        fill,
    }
}

/// The link to a page away from which the head is moved.
pub fn update(page: u16, fill: u64) -> Link
    ensures { link_of result ≡ update_link page fill }
{
    Link {
        mark: Mark::Update,
        page,
        fill,
    }
}

/// The link into a position of a new ring with `positions` of them, whose first fill has the number `start`: each leads
/// to the page of its number, and the first fill is the head.
pub fn first_link(position: u16, positions: u64, start: u64) -> Link
    requires position { position < positions }
    requires most { positions ≤ MAX_PAGES }
    requires start { start + positions < LINK_FILLS }
    ensures first { IsFirstLink positions start position (link_of result) }
    ensures fits { FitsWord (link_of result) }
{
    let fill = start + (position as u64 + positions - start % positions) % positions;
    if fill == start {
        header(position, fill)
    } else {
        normal(position, fill)
    }
}
