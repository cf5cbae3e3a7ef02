//! The steps of a frame that needs a page, up to the fill's beginning, each on the word of one link: it looks for a
//! free position, and moves the head if there is none.
//!
//! Another frame may have begun the noted fill meanwhile: then such a step loads and sets nothing, and its frame begins
//! again. `clear_update` doesn't test that, nor does an owner in `load_next` and `mark_head`.
use crate::writer::Writer;
use link_marks::Mark;
use ring_frames::{Phase, Role, StepAnswer};
use trace_model::FillNo;

impl Writer {
    ghost use Rattle.std.specs.Prelude.{◌≡◌, ◌+◌, ◌≤◌};
    ghost use Rattle.trace_model.specs.declared.limits.TheConstants.{MAX_PAGES};
    ghost use Rattle.trace_model.specs.Steps as model;
    ghost use Rattle.ring_frames.specs.declared.phase.Phase.TheVariants.{Looking, Claiming, LookingNext, Marking};
    ghost use Rattle.ring_frames.specs.declared.phase.Phase.TheVariants.{Clearing};
    ghost use Rattle.ring_steps.specs.Linking.{tail_in};
    ghost use Rattle.ring_frames.specs.Answers.{KeepsPayloads};
    ghost use Rattle.ring_frames.specs.Phases.{as_answer};
    ghost use Rattle.ring_shared.specs.Calls.{IsWriter, MakesSome};
    ghost use Rattle.ring_shared.specs.Nearer.{IsNearer};
    ghost use Rattle.ring_shared.specs.Promises.{HasFrame, MovesHead};

    /// The page of the last fill that is begun.
    fn tail(&self) -> u16
        requires writer { IsWriter self.now }
        ensures { result ≡ tail_in self.now.part }
    {
        match self.pages.back() {
            Some(page) => *page,
            None => unreachable!(),
        }
    }

    /// A load of the link into the position of the fill to open, from the tail's word: it is free, or its page is the
    /// head, or a frame below is moving the head.
    #[inline(always)]
    pub(crate) fn load_link(&mut self, noted: u64) -> StepAnswer
        requires framed { HasFrame self.old }
        requires phase { self.old.frames.phase ≡ Looking noted }
        ensures makes { MakesSome self.old model.steps (as_answer result) self.new }
        ensures nearer { IsNearer self.old self.new }
        ensures payloads { KeepsPayloads self.old.frames.stack self.new.frames.stack }
    {
        if noted != self.frames.opened() {
            return self.begin_again();
        }
        let tail = self.tail();
        let link = self.seat.load_link(tail);
        let page = link.page;
        let phase = match link.mark {
            Mark::Normal => Phase::Opening { noted, page },
            Mark::Header => Phase::Claiming { noted, page },
            Mark::Update => Phase::LookingNext {
                role: Role::Helper,
                noted,
                page,
            },
        };
        self.frames.go_on(phase)
    }

    /// A compare and exchange of the link into the position of the fill to open, from HEADER to UPDATE, by which the
    /// head is lost.
    #[inline(always)]
    pub(crate) fn claim_head(&mut self, noted: u64, page: u16) -> StepAnswer
        requires framed { HasFrame self.old }
        requires phase { self.old.frames.phase ≡ Claiming noted page }
        ensures makes { MakesSome self.old model.steps (as_answer result) self.new }
        ensures nearer { IsNearer self.old self.new }
        ensures payloads { KeepsPayloads self.old.frames.stack self.new.frames.stack }
    {
        if noted != self.frames.opened() {
            return self.begin_again();
        }
        let tail = self.tail();
        let lost = FillNo(noted - self.frames.pages() as u64);
        let phase = if self.seat.claim_head(tail, page, lost) {
            Phase::LookingNext {
                role: Role::Owner,
                noted,
                page,
            }
        } else {
            Phase::Looking { noted }
        };
        self.frames.go_on(phase)
    }

    /// The fill after the one that is lost for the fill that the frame on top noted, which moves the head on for it.
    #[inline(always)]
    fn after_lost(&self, noted: u64) -> u64
        requires framed { HasFrame self.now }
        requires phase { MovesHead self.now.frames.phase noted }
        ensures fill { result + self.now.shape.pages ≡ noted + 1 }
        ensures few { self.now.shape.pages ≤ MAX_PAGES }
    {
        noted + 1 - self.frames.pages() as u64
    }

    /// A load of the next link, from the word of the page that is passed, to see whether that link still waits for its
    /// HEADER.
    #[inline(always)]
    pub(crate) fn load_next(&mut self, role: Role, noted: u64, page: u16) -> StepAnswer
        requires framed { HasFrame self.old }
        requires phase { self.old.frames.phase ≡ LookingNext role noted page }
        ensures makes { MakesSome self.old model.steps (as_answer result) self.new }
        ensures nearer { IsNearer self.old self.new }
        ensures payloads { KeepsPayloads self.old.frames.stack self.new.frames.stack }
    {
        if self.frames.stops(role, noted) {
            return self.begin_again();
        }
        let after_lost = self.after_lost(noted);
        let link = self.seat.load_next(page, FillNo(after_lost));
        let phase = match link.mark {
            Mark::Normal if link.fill == after_lost => Phase::Marking {
                role,
                noted,
                page,
                next: link.page,
            },
            _ => role.after_next(noted, page),
        };
        self.frames.go_on(phase)
    }

    /// A compare and exchange of the next link from NORMAL to HEADER. If it fails, a frame that interrupted this one
    /// has set that HEADER already; this frame goes on either way.
    #[inline(always)]
    pub(crate) fn mark_head(&mut self, role: Role, noted: u64, page: u16, next: u16) -> StepAnswer
        requires framed { HasFrame self.old }
        requires phase { self.old.frames.phase ≡ Marking role noted page next }
        ensures makes { MakesSome self.old model.steps (as_answer result) self.new }
        ensures nearer { IsNearer self.old self.new }
        ensures payloads { KeepsPayloads self.old.frames.stack self.new.frames.stack }
    {
        if self.frames.stops(role, noted) {
            return self.begin_again();
        }
        let after_lost = self.after_lost(noted);
        let _marked = self.seat.mark_head(page, next, FillNo(after_lost));
        self.frames.go_on(role.after_next(noted, page))
    }

    /// A compare and exchange of the link of the claim from the frame's own UPDATE to NORMAL. It never fails: no other
    /// frame replaces that UPDATE.
    #[inline(always)]
    pub(crate) fn clear_update(&mut self, noted: u64, page: u16) -> StepAnswer
        requires framed { HasFrame self.old }
        requires phase { self.old.frames.phase ≡ Clearing noted page }
        ensures makes { MakesSome self.old model.steps (as_answer result) self.new }
        ensures nearer { IsNearer self.old self.new }
        ensures payloads { KeepsPayloads self.old.frames.stack self.new.frames.stack }
    {
        let front = self.pages[(noted - 1 - self.frames.done()) as usize];
        let _cleared = self.seat.clear_update(front, page, FillNo(noted));
        self.frames.go_on(Phase::Opening { noted, page })
    }
}
