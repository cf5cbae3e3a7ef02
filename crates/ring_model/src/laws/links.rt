//! Laws of a ring's links: each occurs once, one is the HEADER, and an UPDATE has an owner.
ghost use Rattle.ring_model.specs.LinkLaws.{HeadersAreOwed, HeadersAreSetOnce, LinksFitWords, LinksStandOnce};
ghost use Rattle.ring_model.specs.LinkLaws.{OneHeader, OwnersClear, StepsRaiseLinks, UpdatesAreClaimed};

/// Each link of the ring, and the spare's, fits a word, if the ring has fewer than `LINK_PAGES` pages.
pub fn links_fit_words()
    ensures fit { LinksFitWords }
{}

/// Each step leaves a link or makes it a later one: so a link value occurs once at its position, and a compare and
/// exchange that comes late fails (there is no ABA).
pub fn links_stand_once()
    ensures steps { StepsRaiseLinks }
    ensures once { LinksStandOnce }
{}

/// One position has a HEADER at most, and it states the head. For one head at most one step sets it, over the NORMAL
/// that waited for it, if there is none or with the swap that takes the one before.
pub fn one_header()
    ensures alone { OneHeader }
    ensures owed { HeadersAreOwed }
    ensures once { HeadersAreSetOnce }
{}

/// An UPDATE is set over the head's HEADER, in a full ring, by a frame that then owns it; only that frame clears it,
/// and only after the next HEADER is set.
pub fn owners_clear()
    ensures claims { UpdatesAreClaimed }
    ensures clears { OwnersClear }
{}
