//! What the reader finds where it looks for the head.
ghost use Rattle.std.specs.Prelude.{◌≡◌, ◌≢◌, ◌+◌, ◌-◌, ◌<◌, ◌≤◌};
ghost use Rattle.trace_model.specs.declared.limits.TheConstants.{LINK_FILLS};
ghost use Rattle.link_marks.specs.declared.link.Mark.TheVariants.{Normal, Header, Update};

use link_marks::{Link, Mark};

/// What a link means to a take that looks for the head.
#[derive(Clone, Copy, Debug)]
pub enum HeadSeen {
    /// This page is the head, as this fill.
    Head { page: u16, fill: u64 },
    /// A move of the head isn't finished; each fill below this one is passed. The take answers so.
    Unfinished { fill: u64 },
    /// The fills below this one are passed, and the take looks there.
    Passed { fill: u64 },
}

/// What the link into the position of the hint means, in a ring of this number of pages.
#[inline(always)]
pub fn head_seen(link: Link, hint: u64, pages: u64) -> HeadSeen
    requires fits { link.fill < LINK_FILLS }
    requires passed { link.mark ≡ Normal → link.fill ≢ hint → pages ≤ link.fill + 1 }
    ensures header { link.mark ≡ Header → result ≡ HeadSeen.Head link.page link.fill }
    ensures update { link.mark ≡ Update → result ≡ HeadSeen.Unfinished (link.fill + 1) }
    ensures owed { link.mark ≡ Normal → link.fill ≡ hint → result ≡ HeadSeen.Unfinished hint }
    ensures passed { link.mark ≡ Normal → link.fill ≢ hint → result ≡ HeadSeen.Passed (link.fill + 1 - pages) }
{
    let Link { mark, page, fill } = link;
    match mark {
        Mark::Header => HeadSeen::Head { page, fill },
        Mark::Update => HeadSeen::Unfinished { fill: fill + 1 },
        Mark::Normal if fill == hint => HeadSeen::Unfinished { fill: hint },
        Mark::Normal => HeadSeen::Passed {
            fill: fill + 1 - pages,
        },
    }
}
