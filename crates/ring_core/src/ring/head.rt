//! The steps of a frame that needs a page, up to the fill's beginning: it looks for a free position, and moves the head
//! if there is none.
//!
//! Another frame may have begun the noted fill meanwhile: then such a step loads and sets nothing, and its frame begins
//! again. `clear_update` doesn't test that, nor does an owner in `load_next` and `mark_head`.
use crate::ring::Core;
use link_marks::{Mark, header, normal, update};
use ring_frames::{Phase, Role, StepAnswer};

impl Core {
    ghost use Rattle.std.specs.Prelude.{◌≡◌, ◌≢◌, ℕ, true, false, []};
    ghost use Rattle.trace_model.specs.Steps as model;
    ghost use Rattle.ring_frames.specs.declared.phase.Phase.TheVariants.{Looking, Claiming, LookingNext, Marking};
    ghost use Rattle.ring_frames.specs.declared.phase.Phase.TheVariants.{Clearing};
    ghost use Rattle.ring_core.specs.Heads.{HasHeaderMark, ClaimsHead};
    ghost use Rattle.ring_frames.specs.Phases.{as_answer};
    ghost use Rattle.ring_frames.specs.Answers.{KeepsPayloads};
    ghost use Rattle.ring_core.specs.Steps.{MakesStep, IsReachedCore};

    /// A load of the link into the position of the fill to open: it is free, or its page is the head, or a frame below
    /// is moving the head.
    #[inline(never)]
    pub(crate) fn load_link(&mut self, noted: u64) -> StepAnswer
        requires ring { IsReachedCore self.old }
        requires top { self.old.stack.frames ≢ [] }
        requires phase { self.old.phase ≡ Looking noted }
        ensures makes { MakesStep self.old model.steps (as_answer result) self.new }
        ensures payloads { KeepsPayloads self.old.stack self.new.stack }
    {
        if noted != self.frames.opened() {
            return self.begin_again();
        }
        let link = self.link_into(noted);
        let page = link.page;
        let phase = match link.mark {
            Mark::Normal => Phase::Opening { noted, page },
            Mark::Header => Phase::Claiming { noted, page },
            Mark::Update => Phase::LookingNext {
                role: Role::Helper,
                noted,
                page,
            },
        };
        self.go_on(phase)
    }

    /// A compare and exchange of the link into the position of the fill to open, from HEADER to UPDATE, by which the
    /// head is lost.
    #[inline(never)]
    pub(crate) fn claim_head(&mut self, noted: u64, page: u16) -> StepAnswer
        requires ring { IsReachedCore self.old }
        requires top { self.old.stack.frames ≢ [] }
        requires phase { self.old.phase ≡ Claiming noted page }
        ensures makes { MakesStep self.old model.steps (as_answer result) self.new }
        ensures payloads { KeepsPayloads self.old.stack self.new.stack }
    {
        if noted != self.frames.opened() {
            return self.begin_again();
        }
        let phase = if self.exchange_head(noted, page) {
            Phase::LookingNext {
                role: Role::Owner,
                noted,
                page,
            }
        } else {
            Phase::Looking { noted }
        };
        self.go_on(phase)
    }

    /// Sets the UPDATE in place of the HEADER, if that states that this page is the head, as the fill a round before
    /// the noted one.
    fn exchange_head(&mut self, noted: u64, page: u16) -> bool
        ensures claimed { result ≡ true → (lost : ℕ) × ClaimsHead self.old noted page lost self.new }
        ensures kept { result ≡ false
            → (self.new ≡ self.old) × ((lost : ℕ) → HasHeaderMark self.old noted page lost → ⊥) }
    {
        match noted.checked_sub(self.positions()) {
            Some(lost) => self.compare_exchange(noted, header(page, lost), update(page, lost)),
            None => false,
        }
    }

    /// A load of the next link: does it still wait for the HEADER?
    #[inline(never)]
    pub(crate) fn load_next(&mut self, role: Role, noted: u64, page: u16) -> StepAnswer
        requires ring { IsReachedCore self.old }
        requires top { self.old.stack.frames ≢ [] }
        requires phase { self.old.phase ≡ LookingNext role noted page }
        ensures makes { MakesStep self.old model.steps (as_answer result) self.new }
        ensures payloads { KeepsPayloads self.old.stack self.new.stack }
    {
        if self.frames.stops(role, noted) {
            return self.begin_again();
        }
        let after_lost = noted - self.positions() + 1;
        let link = self.link_into(after_lost);
        let phase = match link.mark {
            Mark::Normal if link.fill == after_lost => Phase::Marking {
                role,
                noted,
                page,
                next: link.page,
            },
            _ => role.after_next(noted, page),
        };
        self.go_on(phase)
    }

    /// A compare and exchange of the next link from NORMAL to HEADER. If it fails, a frame that interrupted this one
    /// has set that HEADER already; this frame goes on either way.
    #[inline(never)]
    pub(crate) fn mark_head(&mut self, role: Role, noted: u64, page: u16, next: u16) -> StepAnswer
        requires ring { IsReachedCore self.old }
        requires top { self.old.stack.frames ≢ [] }
        requires phase { self.old.phase ≡ Marking role noted page next }
        ensures makes { MakesStep self.old model.steps (as_answer result) self.new }
        ensures payloads { KeepsPayloads self.old.stack self.new.stack }
    {
        if self.frames.stops(role, noted) {
            return self.begin_again();
        }
        let after_lost = noted - self.positions() + 1;
        self.compare_exchange(
            after_lost,
            normal(next, after_lost),
            header(next, after_lost),
        );
        self.go_on(role.after_next(noted, page))
    }

    /// The link of the claim, which has the frame's own UPDATE, becomes NORMAL. The model compares and exchanges; as
    /// that always succeeds, a store does.
    #[inline(never)]
    pub(crate) fn clear_update(&mut self, noted: u64, page: u16) -> StepAnswer
        requires ring { IsReachedCore self.old }
        requires top { self.old.stack.frames ≢ [] }
        requires phase { self.old.phase ≡ Clearing noted page }
        ensures makes { MakesStep self.old model.steps (as_answer result) self.new }
        ensures payloads { KeepsPayloads self.old.stack self.new.stack }
    {
        self.set_link(noted, normal(page, noted));
        self.go_on(Phase::Opening { noted, page })
    }
}
