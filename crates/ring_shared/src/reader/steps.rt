//! The steps of a take, each on one word.
use crate::reader::Reader;
use crate::take::Look;
use link_marks::header;
use page_image::{Body, Page};
use ring_frames::{HeadSeen, ReaderPhase, head_seen};
use trace_model::FillNo;

impl Reader {
    ghost use Rattle.std.specs.Prelude.{◌≡◌, length};
    ghost use Rattle.trace_model.specs.Ring.{page_at};
    ghost use Rattle.ring_frames.specs.declared.reader.ReaderPhase.TheVariants.{LoadingHead, LoadingDone};
    ghost use Rattle.ring_frames.specs.declared.reader.ReaderPhase.TheVariants.{StoringSpareLink, Swapping};
    ghost use Rattle.ring_shared.specs.Takes.{IsReader, KeepsNoEmpty, MakesLook, MakesSwap};

    /// The next look of a take, or the head that it found, if no look is left before the swap.
    pub(crate) fn look(&mut self) -> Look
        requires taking { KeepsNoEmpty self.old }
        ensures { MakesLook self.old result self.new }
    {
        match self.at.phase {
            ReaderPhase::LoadingHead => self.load_head(),
            ReaderPhase::LoadingDone { page, fill } => self.load_done(page, fill),
            ReaderPhase::StoringSpareLink { page, fill } => self.store_spare_link(page, fill),
            ReaderPhase::Swapping { page, fill } => Look::Found { page, fill },
        }
    }

    /// The page at the position of a fill.
    fn page_at(&self, fill: u64) -> u16
        requires reader { IsReader self.now }
        ensures { result ≡ page_at self.now.shape.pages self.now.order fill }
    {
        self.order[(fill % self.order.len() as u64) as usize]
    }

    /// A load of the link into the position of the hint.
    fn load_head(&mut self) -> Look
        requires taking { KeepsNoEmpty self.old }
        requires phase { self.old.at.phase ≡ LoadingHead }
        ensures { MakesLook self.old result self.new }
    {
        let hint = self.at.hint;
        let pages = self.order.len() as u64;
        let front = self.page_at(hint + pages - 1);
        let link = self.seat.load_head(front);
        match head_seen(link, hint, pages) {
            HeadSeen::Head { page, fill } => {
                self.at.phase = ReaderPhase::LoadingDone { page, fill };
                self.at.hint = fill;
                Look::Continues
            }
            HeadSeen::Unfinished { fill } => {
                self.at.hint = fill;
                Look::Moving(FillNo(fill))
            }
            HeadSeen::Passed { fill } => {
                self.at.hint = fill;
                Look::Continues
            }
        }
    }

    /// A load of the number of closed fills: this fill, which the reader found at the head, is closed, or no closed
    /// fill is unread.
    fn load_done(&mut self, page: u16, fill: u64) -> Look
        requires taking { KeepsNoEmpty self.old }
        requires phase { self.old.at.phase ≡ LoadingDone page fill }
        ensures { MakesLook self.old result self.new }
    {
        let done = self.seat.load_done();
        self.at.seen = done;
        if done <= fill {
            self.at.phase = ReaderPhase::LoadingHead;
            return Look::Empty(done);
        }
        self.at.phase = ReaderPhase::StoringSpareLink { page, fill };
        Look::Continues
    }

    /// A store of the spare's link: it will lead to the fill after the one that is taken.
    fn store_spare_link(&mut self, page: u16, fill: u64) -> Look
        requires taking { KeepsNoEmpty self.old }
        requires phase { self.old.at.phase ≡ StoringSpareLink page fill }
        ensures { MakesLook self.old result self.new }
    {
        let behind = header(self.page_at(fill + 1), fill + 1);
        self.seat.store_spare_link(self.spare, behind);
        self.at.phase = ReaderPhase::Swapping { page, fill };
        Look::Continues
    }

    /// A compare and exchange of the link to the head, this page as this fill, from HEADER to NORMAL: the swap. It
    /// answers the page with the count of the records that were lost before it; or the body is returned, since the head
    /// has moved.
    pub(crate) fn swap_head(
        &mut self,
        page: u16,
        fill: u64,
        body: Body,
    ) -> Result<(Page, u64), Body>
        requires taking { KeepsNoEmpty self.old }
        requires size { length body ≡ self.old.shape.size }
        requires phase { self.old.at.phase ≡ Swapping page fill }
        ensures { MakesSwap self.old body result self.new }
    {
        let pages = self.order.len() as u64;
        let front = self.page_at(fill + pages - 1);
        let swapped = self
            .seat
            .swap_head(front, page, FillNo(fill), self.spare, body);
        self.at.phase = ReaderPhase::LoadingHead;
        self.at.hint = fill + 1;
        let taken = swapped?;
        self.order[(fill % pages) as usize] = self.spare;
        self.spare = page;
        let first = taken.first().0;
        let missed = first - self.at.expected;
        self.at.expected = first + taken.count();
        Ok((taken, missed))
    }
}
