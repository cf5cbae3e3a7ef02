//! The take, and what else a reader is asked.
use crate::reader::Reader;
use crate::take::{Look, Take};
use page_image::{Body, Page};
use trace_model::FillNo;

impl Reader {
    ghost use Rattle.std.specs.Prelude.{◌≡◌, ◌+◌, ⊤, length};
    ghost use Rattle.trace_model.specs.Steps.{wishes, wished_for};
    ghost use Rattle.ring_steps.specs.Views.{reading_after};
    ghost use Rattle.ring_steps.specs.Seats.{IsReaderStep};
    ghost use Rattle.ring_shared.specs.Takes.{IsReader, KeepsNoEmpty, IsTake, TakesSteps, EmptyAfter, SameRing};
    ghost use Rattle.ring_shared.specs.Takes.{IsOfSize, empty_of};

    /// Takes the oldest page that is closed and unread, for which `body`, of the ring's data size in bytes, goes into
    /// the ring; with any other answer a body of that size is returned. It answers as soon as one of its steps does. It
    /// makes at most two steps for each page of the ring and eight; if none of these has an answer, it answers
    /// `Moving`, and the next take continues where this one stopped.
    pub fn take(&mut self, body: Body) -> Take
        requires reader { IsReader self.old }
        requires size { length body ≡ self.old.shape.size }
        ensures took { IsTake self.old.shape self.old.part body result self.new.part }
        ensures steps { TakesSteps self.old.shape self.old.part result self.new.part }
        ensures size { IsOfSize self.old.shape.size result }
        ensures empty_at { self.new.empty_at ≡ empty_of result }
        ensures ring { SameRing self.old self.new }
        ensures reader { IsReader self.new }
    {
        self.empty_at = None;
        let took = self.take_by_steps(body);
        if let Take::Empty(done, _) = &took {
            self.empty_at = Some(*done);
        }
        took
    }

    /// The steps of a take.
    fn take_by_steps(&mut self, body: Body) -> Take
        requires taking { KeepsNoEmpty self.old }
        requires size { length body ≡ self.old.shape.size }
        ensures took { IsTake self.old.shape self.old.part body result self.new.part }
        ensures steps { TakesSteps self.old.shape self.old.part result self.new.part }
        ensures empty { EmptyAfter self.new result }
        ensures ring { SameRing self.old self.new }
        ensures taking { KeepsNoEmpty self.new }
    {
        let mut body = body;
        for made in 0..2 * self.order.len() + 8 {
            let _made = made;
            match self.look() {
                Look::Continues => {}
                Look::Empty(done) => return Take::Empty(done, body),
                Look::Moving(fill) => return Take::Moving(fill, body),
                Look::Found { page, fill } => match self.swap_head(page, fill, body) {
                    Ok((taken, missed)) => return Take::Page(taken, missed),
                    Err(back) => body = back,
                },
            }
        }
        Take::Moving(FillNo(self.at.hint), body)
    }

    /// Wishes for the tail page to be closed, after the fills that the reader knows to be closed: answers the number of
    /// the fill that it wished for. A writer that finds nothing left to close looks for the wish.
    pub fn wish(&mut self) -> FillNo
        requires reader { IsReader self.old }
        ensures fill { result.0 ≡ self.old.part.reader.seen }
        ensures step { IsReaderStep self.old.shape self.old.part (λ _. ⊤) wishes (wished_for result.0) self.new.part }
        ensures wished { self.new ≡ record self.old {
          part = reading_after self.old.part.made record { event = wishes; answer = wished_for result.0 }
              (record self.old.part { wish = result.0 + 1 });
        } }
        ensures ring { SameRing self.old self.new }
        ensures reader { IsReader self.new }
    {
        let fill = FillNo(self.at.seen);
        self.seat.store_wish(fill);
        fill
    }

    /// The number of the oldest fill that isn't closed, as the last take answered it, if it found nothing to take.
    pub fn empty_at(&self) -> Option<u64>
        ensures { result ≡ self.now.empty_at }
    {
        self.empty_at
    }

    /// The body of a page that was taken, to be given for another one.
    pub fn give_back(&mut self, page: Page) -> Body
        ensures size { length result ≡ page.size }
        ensures stays { self.new ≡ self.old }
    {
        page.into_body()
    }
}
