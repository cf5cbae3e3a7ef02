//! What the frame on top is allotted: the place of its record, or the answer that a page is needed.
use crate::fault::WriteFault;
use crate::frame::{Frame, Progress, Purpose, Pushed, Slot};
use crate::stack::WriterStack;
use record_words::{EXTEND_FROM, Place, size_of};
use trace_model::LINK_FILLS;

/// What a frame gets.
#[derive(Clone, Copy, Debug, PartialEq, Eq)]
pub enum Allot {
    /// The place of its record's payload; for a close frame, which needs no page, a place of length 0.
    Fits(Place),
    /// A page is needed first.
    NeedsPage,
}

impl WriterStack {
    ghost use Rattle.std.specs.Prelude.{◌≡◌, ℕ, ◌↔◌, max, [], ◌∷◌, List, Option, IsTrue, IfSome, IfOk, IfErr, OnOk};
    ghost use Rattle.trace_model.specs.History.{HistoryEvent, reserve};
    ghost use Rattle.nested_writer.specs.Stack.{next_number};
    ghost use Rattle.nested_writer.specs.Calls.{with_progress, after_leave, IsTop, WantsPage, IsCrowded, IsWorn};
    ghost use Rattle.nested_writer.specs.Calls.{ReservesRecord, HasRecordRoom, IsTopSlot};
    ghost use Rattle.nested_writer.specs.Ends.{MayEndTop};
    ghost use Rattle.nested_writer.specs.Kept.{SameFills, SamePages};
    ghost use Rattle.nested_writer.specs.Next.{IsReadyForPage, IsAllottedTo, IsSameFrame, IsRefusedTo};
    ghost use Rattle.nested_writer.specs.PlainTop.{IsPlainTop};
    ghost use Rattle.nested_writer.specs.IsStack.{IsStack, IsReachedStack};
    ghost use Rattle.nested_writer.specs.Allotted.{IsAllotted, HasEvents};
    ghost use Rattle.nested_writer.specs.Answered.{IsAllotAnswer};
    ghost use Rattle.nested_writer.specs.Promises.{Allots};
    ghost use Rattle.record_words.specs.declared.put.Place.{Place};
    ghost use Rattle.nested_writer.specs.declared.frame.Slot.{Slot};
    ghost use Rattle.nested_writer.specs.declared.frame.Frame.{Frame};
    ghost use Rattle.nested_writer.specs.declared.frame.Purpose.TheVariants.{Record};
    ghost use Rattle.nested_writer.specs.declared.frame.Progress.TheVariants.{Waiting};

    /// The frame on top has this progress from now on.
    #[inline(always)]
    fn go_on(&mut self, progress: Progress)
        ensures { (top : Frame) (below : List Frame) → IsTop self.old top below
            → self.new ≡ with_progress self.old top below progress }
    {
        self.top.go_on(progress);
    }

    /// The frame on top, which has one below it, leaves.
    #[cold]
    #[inline(never)]
    fn pop(&mut self)
        ensures after { (top : Frame) (next : Frame) (below : List Frame) → IsTop self.old top (next ∷ below)
            → self.new ≡ record self.old { frames = next ∷ below } }
        ensures kept { SamePages self.old self.new }
    {
        let fill = self.tail_fill();
        if let Some(next) = self.below.pop_front() {
            self.top.put_back(next, fill);
        }
    }

    /// The frame on top leaves: the bottom one stays.
    #[inline(always)]
    pub(crate) fn leave(&mut self)
        ensures after { (top : Frame) (below : List Frame) → IsTop self.old top below
            → self.new ≡ after_leave self.old top below }
        ensures kept { SamePages self.old self.new }
    {
        if self.below.is_empty() {
            self.top.leave_on();
        } else {
            self.pop();
        }
    }

    /// Whether a page is needed for the frame on top, which has no record.
    #[inline(always)]
    fn wants_page(&self, top: Frame) -> bool
        requires stack { IsReachedStack self.now }
        requires top { (below : List Frame) × IsTop self.now top below }
        ensures { IsTrue result ↔ WantsPage self.now top.purpose top.progress }
    {
        match (top.purpose, top.progress) {
            (Purpose::Record { moment, len }, Progress::Waiting(_)) => {
                let delta = moment.max(self.last_moment) - self.last_moment;
                let end = self.tail.end();
                self.size < end + size_of(len, delta, end == 0)
            }
            (Purpose::Close, Progress::Waiting(noted)) => {
                self.tail.end() > 0 && noted.unwrap_or(self.opened()) == self.opened()
            }
            (Purpose::Close, Progress::Through(noted)) => {
                self.tail.end() > 0 && noted == self.opened()
            }
            _ => false,
        }
    }

    /// A page is needed for the frame on top: it notes that, or is refused and leaves.
    #[inline(always)]
    fn note_need(&mut self, top: Frame) -> Result<Allot, WriteFault>
        requires top { (below : List Frame) × IsTop self.old top below }
        requires wants { WantsPage self.old top.purpose top.progress }
        ensures crowded { result ≡ Err WriteFault.Crowded ↔ IsCrowded self.old }
        ensures worn { result ≡ Err WriteFault.Worn ↔ ((IsCrowded self.old → ⊥) × IsWorn self.old) }
        ensures noted { result ≡ Ok Allot.NeedsPage ↔ ((IsCrowded self.old → ⊥) × (IsWorn self.old → ⊥)) }
        ensures after { IsAllotted self.old self.old.frames result self.new }
        ensures answered { (start : ℕ) (history : List HistoryEvent)
            → IsStack start history self.old
            → IsAllotAnswer self.old history self.old.frames result }
        ensures kept { SameFills self.old self.new }
        ensures page { result ≡ Ok Allot.NeedsPage → IsReadyForPage self.old self.new }
        ensures next { IfOk result (λ allot. IsAllottedTo self.old self.new allot) }
        ensures same { OnOk result (IsSameFrame self.old self.new) }
        ensures refused { IfErr result (λ fault. IsRefusedTo self.old self.new fault) }
    {
        if self.older.len() + 1 == self.pages {
            self.leave();
            return Err(WriteFault::Crowded);
        }
        let opened = self.opened();
        if opened + self.pages as u64 >= LINK_FILLS {
            self.leave();
            return Err(WriteFault::Worn);
        }
        self.top.note(opened);
        Ok(Allot::NeedsPage)
    }

    /// Reserves the record of the frame on top, which fits in the tail, and whose moment is raised to `raised`.
    #[inline(always)]
    fn reserve_any(&mut self, moment: u64, raised: u64, len: usize) -> Place
        requires stack { IsReachedStack self.old }
        requires top { (top : Frame) × (below : List Frame) × (noted : Option ℕ) × IsTop self.old top below
            × (top.purpose ≡ Record moment len) × (top.progress ≡ Waiting noted) }
        requires raised { raised ≡ max moment self.old.last_moment }
        requires room { HasRecordRoom self.old moment len }
        ensures reserved { (top : Frame) (below : List Frame) → IsTop self.old top below
            → ReservesRecord self.old top below moment len result self.new }
        ensures stack { HasEvents self.old (reserve ∷ []) self.new }
    {
        let number = self.tail.first_number().0 + self.tail.count();
        let fill = self.tail.fill_number().0;
        let place = self.tail.put(self.last_moment, raised, len);
        self.last_moment = raised;
        let slot = Slot {
            number,
            fill,
            place,
        };
        self.top.hold_any(moment, len, slot);
        place
    }

    /// What the frame on top was pushed with, if it is a record frame that tried nothing yet, and its record is plain
    /// (`docs/GLOSSARY.md`): short, and far enough from the page's end for any short record. `None` says nothing of the
    /// frame.
    #[inline(always)]
    pub fn plain_top(&self) -> Option<Pushed>
        requires stack { IsReachedStack self.now }
        ensures { IfSome result (λ pushed. IsPlainTop self.now pushed) }
    {
        let pushed = self.top.waiting()?;
        if self.tail.end().wrapping_sub(1) >= self.plain_end {
            return None;
        }
        if pushed.moment.wrapping_sub(self.last_moment) >= EXTEND_FROM {
            return None;
        }
        Some(pushed)
    }

    /// Reserves the record of the frame on top, which `plain_top` answered.
    #[inline(always)]
    fn hold_plain(&mut self, pushed: Pushed) -> Slot
        requires stack { IsReachedStack self.old }
        requires plain { IsPlainTop self.old pushed }
        ensures reserved { (top : Frame) (below : List Frame) → IsTop self.old top below
            → ReservesRecord self.old top below pushed.moment pushed.len result.place self.new }
        ensures stack { HasEvents self.old (reserve ∷ []) self.new }
        ensures number { result.number ≡ next_number self.old }
        ensures slot { IsTopSlot self.new.frames result }
    {
        let number = self.tail.first_number().0 + self.tail.count();
        let fill = self.tail.fill_number().0;
        let place = self
            .tail
            .put_plain(self.last_moment, pushed.moment, pushed.len);
        self.last_moment = pushed.moment;
        let slot = Slot {
            number,
            fill,
            place,
        };
        self.top.hold(slot);
        slot
    }

    /// Reserves the record of the frame on top, which `plain_top` answered, and answers its number: what `allot` does
    /// with it.
    #[inline(always)]
    pub fn reserve_plain(&mut self, pushed: Pushed) -> u64
        requires stack { IsReachedStack self.old }
        requires plain { IsPlainTop self.old pushed }
        ensures number { result ≡ next_number self.old }
        ensures slot { (slot : Slot) × IsTopSlot self.new.frames slot × (slot.number ≡ result) }
        ensures after { (place : Place) × IsAllotted self.old self.old.frames (Ok (Allot.Fits place)) self.new }
        ensures stays { IsReachedStack self.new }
        ensures answered { (start : ℕ) (history : List HistoryEvent)
            → IsStack start history self.old
            → (place : Place) × IsAllotAnswer self.old history self.old.frames (Ok (Allot.Fits place)) }
        ensures kept { SameFills self.old self.new }
        ensures may_end { MayEndTop self.new.frames }
    {
        self.hold_plain(pushed).number
    }

    /// `allot`, if `plain_top` answers nothing: a record frame without a record tries here, any other frame in
    /// `allot_other`.
    #[inline(never)]
    fn allot_any(&mut self) -> Result<Allot, WriteFault>
        requires stack { IsReachedStack self.old }
        ensures { Allots self.old result self.new }
    {
        let Some((pushed, noted)) = self.top.trying() else {
            return self.allot_other();
        };
        let Pushed { moment, len } = pushed;
        let raised = moment.max(self.last_moment);
        let end = self.tail.end();
        if self.size < end + size_of(len, raised - self.last_moment, end == 0) {
            return self.note_need(Frame {
                purpose: Purpose::Record { moment, len },
                progress: Progress::Waiting(noted),
            });
        }
        Ok(Allot::Fits(self.reserve_any(moment, raised, len)))
    }

    /// `allot`, for a frame of any other kind: one that has its record, a close frame, one that has left; or for none.
    #[inline(never)]
    fn allot_other(&mut self) -> Result<Allot, WriteFault>
        requires stack { IsReachedStack self.old }
        ensures { Allots self.old result self.new }
    {
        let Some(top) = self.top.get(self.tail_fill()) else {
            return Err(WriteFault::NoFrame);
        };
        let noted = match top.progress {
            Progress::Left(_) => return Err(WriteFault::NotReserved),
            Progress::Reserved(slot) => return Ok(Allot::Fits(slot.place)),
            Progress::Waiting(noted) => noted,
            Progress::Through(noted) => Some(noted),
        };
        if self.wants_page(top) {
            return self.note_need(top);
        }
        match top.purpose {
            Purpose::Record { moment, len } => {
                let raised = moment.max(self.last_moment);
                Ok(Allot::Fits(self.reserve_any(moment, raised, len)))
            },
            Purpose::Close => {
                let noted = noted.unwrap_or(self.opened());
                self.go_on(Progress::Through(noted));
                Ok(Allot::Fits(Place { start: 0, len: 0 }))
            }
        }
    }

    /// Reserves the record of the frame on top, whose moment is raised to that of the last one, or answers that a page
    /// is needed; a reserved frame gets its place again. For a close frame a page is needed if the tail holds a record
    /// and no page was added since its first call; else it gets a place of length 0. A frame that is refused as
    /// `Crowded` or `Worn` leaves without a record.
    #[inline(always)]
    pub fn allot(&mut self) -> Result<Allot, WriteFault>
        requires stack { IsReachedStack self.old }
        ensures { Allots self.old result self.new }
    {
        let Some(pushed) = self.plain_top() else {
            return self.allot_any();
        };
        Ok(Allot::Fits(self.hold_plain(pushed).place))
    }
}
