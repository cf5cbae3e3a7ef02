//! The frame on top, kept so that the calls of a record move few words and test one.
ghost use Rattle.std.specs.Prelude.{◌≡◌, ◌≤◌, ℕ, Some, None, IfSome, IsTrue, ◌↔◌, ◌⊎◌, option_to_list};
ghost use Rattle.record_words.specs.declared.format.TheConstants.{SHORT_LIMIT};
ghost use Rattle.record_words.specs.declared.put.Place.{Place};
ghost use Rattle.nested_writer.specs.Calls.{tops_close, IsTopSlot, LacksSlot};
ghost use Rattle.nested_writer.specs.TopFrame.{whole, in_tail, frame_in};
ghost use Rattle.nested_writer.specs.declared.frame.Frame.{Frame};
ghost use Rattle.nested_writer.specs.declared.frame.Purpose.TheVariants.{Record};
ghost use Rattle.nested_writer.specs.declared.frame.Progress.TheVariants.{Waiting, Reserved, Left};

use crate::frame::{Frame, Progress, Purpose, Pushed, Slot};
use record_words::{Place, SHORT_LIMIT};
use std::marker::Model;

/// Which fields hold the frame on top.
#[derive(Clone, Copy)]
enum Tag {
    /// The stack is empty.
    Empty,
    /// A record frame that noted nothing, for a payload of 1 to `SHORT_LIMIT` bytes: what it was pushed with.
    Waits,
    /// Any other record frame whose record isn't reserved yet: what it was pushed with, and what it noted.
    Tries,
    /// A record frame whose record is in the tail: what it was pushed with, and the slot but its fill.
    Holds,
    /// Any other record frame whose record is reserved: what it was pushed with, and the slot.
    HoldsOlder,
    /// A close frame that has a slot, as no frame of a ring ever has: the slot.
    HoldsClose,
    /// A record frame that left and noted nothing: what it was pushed with.
    Stays,
    /// Any other frame, which has no slot: itself.
    Other,
}

/// The frame on top, if there is one. Of a record in the tail it keeps all but the fill's number, which a caller who
/// needs it passes in.
#[derive(Drop)]
pub(crate) struct Top {
    tag: Tag,
    /// What a record frame was pushed with, except for one that `other` holds.
    pushed: Pushed,
    /// The number of begun fills that a frame noted which tries.
    noted: Option<u64>,
    /// The slot of a frame whose record is reserved; if that is in the tail, with any fill.
    slot: Slot,
    /// The frame that no other field holds.
    other: Frame,
}

impl Model for Top {
    ghost use Rattle.nested_writer.specs.TopFrame.{TopFrame};

    ghost Value = { TopFrame };

    ghost use Rattle.nested_writer.specs.OnTop.{frame_on_top, IsKeptForm};

    ghost view = { frame_on_top };

    ghost invariant = { IsKeptForm };
}

impl Top {
    /// No frame.
    pub(crate) fn none() -> Top
        ensures { result ≡ whole None }
    {
        Top {
            tag: Tag::Empty,
            pushed: Pushed { moment: 0, len: 0 },
            noted: None,
            slot: Slot {
                number: 0,
                fill: 0,
                place: Place { start: 0, len: 0 },
            },
            other: Frame {
                purpose: Purpose::Close,
                progress: Progress::Waiting(None),
            },
        }
    }

    /// Whether the stack is empty.
    #[inline(always)]
    pub(crate) fn is_none(&self) -> bool
        ensures { (fill : ℕ) → IsTrue result ↔ frame_in self.now fill ≡ None }
    {
        matches!(self.tag, Tag::Empty)
    }

    /// Whether it is a close frame.
    #[inline(always)]
    pub(crate) fn is_close(&self) -> bool
        ensures { (fill : ℕ) → result ≡ tops_close (option_to_list (frame_in self.now fill)) }
    {
        match self.tag {
            Tag::Other => matches!(self.other.purpose, Purpose::Close),
            Tag::HoldsClose => true,
            _ => false,
        }
    }

    /// The frame, if the tail is this fill.
    #[inline(always)]
    pub(crate) fn get(&self, fill: u64) -> Option<Frame>
        ensures { result ≡ frame_in self.now fill }
    {
        let purpose = Purpose::Record {
            moment: self.pushed.moment,
            len: self.pushed.len,
        };
        match self.tag {
            Tag::Empty => None,
            Tag::Waits => Some(Frame {
                purpose,
                progress: Progress::Waiting(None),
            }),
            Tag::Tries => Some(Frame {
                purpose,
                progress: Progress::Waiting(self.noted),
            }),
            Tag::Holds => Some(Frame {
                purpose,
                progress: Progress::Reserved(Slot { fill, ..self.slot }),
            }),
            Tag::HoldsOlder => Some(Frame {
                purpose,
                progress: Progress::Reserved(self.slot),
            }),
            Tag::HoldsClose => Some(Frame {
                purpose: Purpose::Close,
                progress: Progress::Reserved(self.slot),
            }),
            Tag::Stays => Some(Frame {
                purpose,
                progress: Progress::Left(None),
            }),
            Tag::Other => Some(self.other),
        }
    }

    /// What the frame was pushed with, if it is a record frame that tried nothing yet, for a payload of 1 to
    /// `SHORT_LIMIT` bytes; `None` may be answered even then.
    #[inline(always)]
    pub(crate) fn waiting(&self) -> Option<Pushed>
        ensures frame { IfSome result (λ pushed. self.now
            ≡ whole (Some (record { purpose = Record pushed.moment pushed.len; progress = Waiting None }))) }
        ensures some { IfSome result (λ pushed. 1 ≤ pushed.len) }
        ensures short { IfSome result (λ pushed. pushed.len ≤ SHORT_LIMIT) }
    {
        if matches!(self.tag, Tag::Waits) {
            Some(self.pushed)
        } else {
            None
        }
    }

    /// The slot, if a record is reserved, and if the tail is this fill.
    #[inline(always)]
    pub(crate) fn slot(&self, fill: u64) -> Option<Slot>
        ensures some { IfSome result (λ slot. IsTopSlot (option_to_list (frame_in self.now fill)) slot) }
        ensures none { result ≡ None
            ↔ (frame_in self.now fill ≡ None) ⊎ LacksSlot (option_to_list (frame_in self.now fill)) }
    {
        match self.tag {
            Tag::Holds => Some(Slot { fill, ..self.slot }),
            Tag::HoldsOlder | Tag::HoldsClose => Some(self.slot),
            _ => None,
        }
    }

    /// The place of the record in the tail; `None` says that it isn't known to be there.
    #[inline(always)]
    pub(crate) fn place_in_tail(&self) -> Option<Place>
        ensures { IfSome result (λ place. (moment : ℕ) × (len : ℕ) × (number : ℕ)
            × (self.now ≡ in_tail moment len number place)) }
    {
        if matches!(self.tag, Tag::Holds) {
            return Some(self.slot.place);
        }
        None
    }

    /// Whether it is a record frame whose record is in the tail; `false` may be answered even then.
    #[inline(always)]
    pub(crate) fn holds_record(&self) -> bool
        ensures { IsTrue result → (moment : ℕ) × (len : ℕ) × (number : ℕ) × (place : Place)
            × (self.now ≡ in_tail moment len number place) }
    {
        matches!(self.tag, Tag::Holds)
    }

    /// The stack is empty from now on.
    #[inline(always)]
    pub(crate) fn clear(&mut self)
        ensures { self.new ≡ whole None }
    {
        self.tag = Tag::Empty;
    }

    /// The frame is this one from now on.
    pub(crate) fn put(&mut self, frame: Frame)
        ensures { self.new ≡ whole (Some frame) }
    {
        match (frame.purpose, frame.progress) {
            (Purpose::Record { moment, len }, Progress::Waiting(None))
                if len.wrapping_sub(1) < SHORT_LIMIT => { self.wait(moment, len) }
            (Purpose::Record { moment, len }, Progress::Waiting(noted)) => {
                self.tag = Tag::Tries;
                self.pushed = Pushed { moment, len };
                self.noted = noted;
            }
            (Purpose::Record { moment, len }, Progress::Reserved(slot)) => {
                self.tag = Tag::HoldsOlder;
                self.pushed = Pushed { moment, len };
                self.slot = slot;
            }
            (Purpose::Close, Progress::Reserved(slot)) => {
                self.tag = Tag::HoldsClose;
                self.slot = slot;
            }
            _ => {
                self.tag = Tag::Other;
                self.other = frame;
            }
        }
    }

    /// The frame is this one from now on, and the tail is this fill: with fewer tests if its record is there.
    #[inline(always)]
    pub(crate) fn put_back(&mut self, frame: Frame, fill: u64)
        ensures { frame_in self.new fill ≡ Some frame }
    {
        match (frame.purpose, frame.progress) {
            (Purpose::Record { moment, len }, Progress::Reserved(slot)) if slot.fill == fill => {
                self.hold_any(moment, len, slot)
            }
            _ => self.put(frame),
        }
    }

    /// It is a record frame that tried nothing yet, for a payload of 1 to `SHORT_LIMIT` bytes.
    #[inline(always)]
    pub(crate) fn wait(&mut self, moment: u64, len: usize)
        requires some { 1 ≤ len }
        requires short { len ≤ SHORT_LIMIT }
        ensures { self.new ≡ whole (Some (record { purpose = Record moment len; progress = Waiting None })) }
    {
        self.tag = Tag::Waits;
        self.pushed = Pushed { moment, len };
    }

    /// The record frame, which tried nothing yet, has this slot, in the tail.
    #[inline(always)]
    pub(crate) fn hold(&mut self, slot: Slot)
        requires { (moment : ℕ) × (len : ℕ) × (self.old
            ≡ whole (Some (record { purpose = Record moment len; progress = Waiting None }))) }
        ensures { (moment len : ℕ)
            → self.old ≡ whole (Some (record { purpose = Record moment len; progress = Waiting None }))
            → self.new ≡ in_tail moment len slot.number slot.place }
    {
        self.tag = Tag::Holds;
        self.slot.number = slot.number;
        self.slot.place = slot.place;
    }

    /// What the frame was pushed with, and what it noted, if it is a record frame whose record isn't reserved yet;
    /// `None` may be answered even then.
    #[inline(always)]
    pub(crate) fn trying(&self) -> Option<(Pushed, Option<u64>)>
        ensures { IfSome result (λ tries. self.now
            ≡ whole (Some (record { purpose = Record tries.0.moment tries.0.len; progress = Waiting tries.1 }))) }
    {
        match self.tag {
            Tag::Waits => Some((self.pushed, None)),
            Tag::Tries => Some((self.pushed, self.noted)),
            _ => None,
        }
    }

    /// The frame noted that `opened` fills were begun.
    #[inline(always)]
    pub(crate) fn note(&mut self, opened: u64)
        ensures { (frame : Frame) (fill : ℕ) → frame_in self.old fill ≡ Some frame
            → self.new ≡ whole (Some (record frame { progress = Waiting (Some opened) })) }
    {
        if matches!(self.tag, Tag::Waits | Tag::Tries) {
            self.tag = Tag::Tries;
            self.noted = Some(opened);
        } else {
            self.go_on(Progress::Waiting(Some(opened)));
        }
    }

    /// It is a record frame that has this slot, in the tail.
    #[inline(always)]
    pub(crate) fn hold_any(&mut self, moment: u64, len: usize, slot: Slot)
        ensures { self.new ≡ in_tail moment len slot.number slot.place }
    {
        self.tag = Tag::Holds;
        self.pushed = Pushed { moment, len };
        self.slot.number = slot.number;
        self.slot.place = slot.place;
    }

    /// It is a record frame that left.
    #[inline(always)]
    pub(crate) fn leave(&mut self, moment: u64, len: usize)
        ensures { self.new ≡ whole (Some (record { purpose = Record moment len; progress = Left None })) }
    {
        self.tag = Tag::Stays;
        self.pushed = Pushed { moment, len };
    }

    /// The frame has this progress from now on.
    pub(crate) fn go_on(&mut self, progress: Progress)
        ensures { (frame : Frame) (fill : ℕ) → frame_in self.old fill ≡ Some frame
            → self.new ≡ whole (Some (record frame { progress = progress })) }
    {
        // The fill is in no frame's purpose, which is all that stays.
        if let Some(frame) = self.get(0) {
            self.put(Frame { progress, ..frame });
        }
    }

    /// The frame left.
    #[inline(always)]
    pub(crate) fn leave_on(&mut self)
        ensures { (frame : Frame) (fill : ℕ) → frame_in self.old fill ≡ Some frame
            → self.new ≡ whole (Some (record frame { progress = Left None })) }
    {
        if matches!(self.tag, Tag::Holds) {
            self.tag = Tag::Stays;
        } else {
            self.go_on(Progress::Left(None));
        }
    }
}
