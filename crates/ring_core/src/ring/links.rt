//! The links of a ring, and the positions of its fills.
use crate::ring::Core;
use link_marks::Link;

impl Core {
    ghost use Rattle.std.specs.Prelude.{◌≡◌, ◌%◌, ◌<◌, ◌≤◌, ◌↔◌, length, IsTrue, true, false};
    ghost use Rattle.trace_model.specs.declared.limits.TheConstants.{MIN_PAGES, MAX_PAGES};
    ghost use Rattle.trace_model.specs.Ring.{link_into, links_with, page_at};
    ghost use Rattle.link_marks.specs.ModelLinks.{link_of};

    /// How many positions the ring has.
    pub(crate) fn positions(&self) -> u64
        ensures positions { result ≡ length self.now.links }
        ensures some { MIN_PAGES ≤ result }
        ensures most { result ≤ MAX_PAGES }
    {
        self.links.len() as u64
    }

    /// The position of a fill.
    pub(crate) fn position(&self, fill: u64) -> usize
        ensures position { result ≡ fill % length self.now.links }
        ensures below { result < length self.now.links }
    {
        (fill % self.positions()) as usize
    }

    /// The link into the position of a fill.
    pub(crate) fn link_into(&self, fill: u64) -> Link
        ensures { link_of result ≡ link_into (length self.now.links) self.now.links fill }
    {
        self.links[self.position(fill)]
    }

    /// The page at the position of a fill.
    pub(crate) fn page_at(&self, fill: u64) -> u16
        ensures { result ≡ page_at (length self.now.links) self.now.order fill }
    {
        self.order[self.position(fill)]
    }

    /// Sets the link into the position of a fill.
    pub(crate) fn set_link(&mut self, fill: u64, link: Link)
        ensures { self.new ≡ record self.old {
          links = links_with (length self.old.links) self.old.links fill (link_of link);
        } }
    {
        let position = self.position(fill);
        self.links[position] = link;
    }

    /// Sets the link into the position of a fill, if it is this one: a compare and exchange.
    pub(crate) fn compare_exchange(&mut self, fill: u64, from: Link, to: Link) -> bool
        ensures met { IsTrue result ↔ link_into (length self.old.links) self.old.links fill ≡ link_of from }
        ensures exchanged { result ≡ true → self.new ≡ record self.old {
          links = links_with (length self.old.links) self.old.links fill (link_of to);
        } }
        ensures kept { result ≡ false → self.new ≡ self.old }
    {
        if self.link_into(fill) != from {
            return false;
        }
        self.set_link(fill, to);
        true
    }
}
