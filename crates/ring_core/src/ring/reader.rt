//! The steps of the reader.
use crate::event::Answer;
use crate::ring::Core;
use link_marks::{header, normal};
use page_image::{Body, Page};
use ring_frames::{HeadSeen, ReaderPhase, TakeState, head_seen};
use trace_model::{FillNo, RecordNo};

impl Core {
    ghost use Rattle.std.specs.Prelude.{◌≡◌, ◌+◌, ◌-◌, ◌^◌, ◌<◌, ◌≤◌, length, Some, None, slice_get, slice_set};
    ghost use Rattle.trace_model.specs.declared.limits.TheConstants.{LINK_FILLS};
    ghost use Rattle.trace_model.specs.Steps as model;
    ghost use Rattle.ring_frames.specs.declared.reader.ReaderPhase.TheVariants.{LoadingHead, LoadingDone};
    ghost use Rattle.ring_frames.specs.declared.reader.ReaderPhase.TheVariants.{StoringSpareLink, Swapping};
    ghost use Rattle.ring_frames.specs.declared.answer.Answer.TheVariants.{Taken};
    ghost use Rattle.ring_core.specs.Steps.{MakesStep, MakesRead, IsReachedCore};
    ghost use Rattle.ring_core.specs.Taking.{with_spare_home, with_head_taken};

    /// The reader makes one step. It keeps the body only if it takes a page.
    #[inline(never)]
    pub(crate) fn read(&mut self, body: Body) -> Answer
        requires ring { IsReachedCore self.old }
        requires size { length body ≡ self.old.stack.size }
        ensures { MakesRead self.old body result self.new }
    {
        match self.reader.phase {
            ReaderPhase::LoadingHead => self.load_head(body),
            ReaderPhase::LoadingDone { page, fill } => self.load_done(page, fill, body),
            ReaderPhase::StoringSpareLink { page, fill } => self.store_spare_link(page, fill, body),
            ReaderPhase::Swapping { page, fill } => self.swap_head(page, fill, body),
        }
    }

    /// The reader continues in this phase, with this hint.
    fn reader_at(&mut self, phase: ReaderPhase, hint: u64)
        ensures { self.new ≡ record self.old { reader = record self.old.reader { phase = phase; hint = hint } } }
    {
        self.reader = TakeState {
            phase,
            hint,
            ..self.reader
        };
    }

    /// A load of the link into the position of the hint.
    fn load_head(&mut self, body: Body) -> Answer
        requires ring { IsReachedCore self.old }
        requires phase { self.old.reader.phase ≡ LoadingHead }
        ensures { MakesRead self.old body result self.new }
    {
        let hint = self.reader.hint;
        let link = self.link_into(hint);
        match head_seen(link, hint, self.positions()) {
            HeadSeen::Head { page, fill } => {
                self.reader_at(ReaderPhase::LoadingDone { page, fill }, fill);
                Answer::Looking(body)
            }
            HeadSeen::Unfinished { fill } => {
                self.reader_at(ReaderPhase::LoadingHead, fill);
                Answer::Moving(FillNo(fill), body)
            }
            HeadSeen::Passed { fill } => {
                self.reader_at(ReaderPhase::LoadingHead, fill);
                Answer::Looking(body)
            }
        }
    }

    /// A load of the number of closed fills.
    fn load_done(&mut self, page: u16, fill: u64, body: Body) -> Answer
        requires ring { IsReachedCore self.old }
        requires phase { self.old.reader.phase ≡ LoadingDone page fill }
        ensures { MakesRead self.old body result self.new }
    {
        let done = self.frames.done();
        self.reader.seen = done;
        if done <= fill {
            self.reader.phase = ReaderPhase::LoadingHead;
            return Answer::Empty(done, body);
        }
        self.reader.phase = ReaderPhase::StoringSpareLink { page, fill };
        Answer::Looking(body)
    }

    /// A store of the spare's link: it will lead to the fill after the one that is taken.
    fn store_spare_link(&mut self, page: u16, fill: u64, body: Body) -> Answer
        requires ring { IsReachedCore self.old }
        requires phase { self.old.reader.phase ≡ StoringSpareLink page fill }
        ensures { MakesRead self.old body result self.new }
    {
        self.spare_link = header(self.page_at(fill + 1), fill + 1);
        self.reader.phase = ReaderPhase::Swapping { page, fill };
        Answer::Looking(body)
    }

    /// A compare and exchange of the link to the head from HEADER to NORMAL: the swap.
    fn swap_head(&mut self, page: u16, fill: u64, body: Body) -> Answer
        requires ring { IsReachedCore self.old }
        requires size { length body ≡ self.old.stack.size }
        requires phase { self.old.reader.phase ≡ Swapping page fill }
        ensures { MakesRead self.old body result self.new }
    {
        let behind = normal(self.spare, fill + self.positions());
        if !self.compare_exchange(fill, header(page, fill), behind) {
            self.reader_at(ReaderPhase::LoadingHead, fill + 1);
            return Answer::Looking(body);
        }
        match self.bring_home(page, body) {
            Some(taken) => self.take(page, fill, taken),
            None => unreachable!(),
        }
    }

    /// The spare is at home with this body, and the head's page is let go.
    fn bring_home(&mut self, page: u16, body: Body) -> Option<Page>
        requires spare { self.old.spare < length self.old.homes }
        requires page { page < length self.old.homes }
        ensures homes { self.new ≡ record self.old {
          homes = slice_set (with_spare_home self.old (length body)) page None;
        } }
        ensures page { slice_get (with_spare_home self.old (length body)) page ≡ Some result }
    {
        self.homes[self.spare as usize] = Some(Page::fresh(body, RecordNo(0), FillNo(0)));
        self.homes[page as usize].take()
    }

    /// The head, which is on this page as this fill, becomes the reader's, and the reader's own page is put in its
    /// place.
    fn take(&mut self, page: u16, fill: u64, taken: Page) -> Answer
        requires next { fill + 1 < LINK_FILLS }
        requires expected { self.old.reader.expected ≤ taken.first }
        requires numbers { taken.first + taken.count < 2 ^ 64 }
        ensures taken { result ≡ Taken taken (taken.first - self.old.reader.expected) }
        ensures swapped { self.new ≡ with_head_taken self.old page fill (taken.first + taken.count) }
    {
        let position = self.position(fill);
        let next = self.link_into(fill + 1);
        self.set_link(fill + 1, self.spare_link);
        self.order[position] = self.spare;
        self.spare_link = next;
        self.spare = page;
        let first = taken.first().0;
        let missed = first - self.reader.expected;
        self.reader = TakeState {
            phase: ReaderPhase::LoadingHead,
            hint: fill + 1,
            seen: self.reader.seen,
            expected: first + taken.count(),
        };
        Answer::Taken(taken, missed)
    }

    /// The reader wishes for the fill after those that it knows to be closed.
    pub(crate) fn store_wish(&mut self) -> Answer
        requires ring { IsReachedCore self.old }
        ensures step { MakesStep self.old model.wishes result self.new }
        ensures stack { self.new.stack ≡ self.old.stack }
    {
        self.wish = self.reader.seen + 1;
        Answer::Wished(FillNo(self.reader.seen))
    }
}
