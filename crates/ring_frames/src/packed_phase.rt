//! How far the frame on top has come, kept so that the calls of a record store one byte of it.
use crate::phase::{Phase, Role};
use std::marker::Model;

/// Which phase it is, and so which fields belong to it.
#[derive(Clone, Copy)]
enum Tag {
    /// Nothing is noted.
    Idle,
    /// The fill that is noted.
    Looking,
    /// The fill that is noted, and its page.
    Claiming,
    /// Who moves the head, the fill that is noted, and its page.
    LookingNext,
    /// All fields.
    Marking,
    /// The fill that is noted, and its page.
    Clearing,
    /// The fill that is noted, and its page.
    Opening,
    /// Nothing is noted.
    Releasing,
    /// Nothing is noted.
    Wishing,
}

/// How far the frame on top has come.
#[derive(Drop)]
pub(crate) struct PackedPhase {
    tag: Tag,
    role: Role,
    noted: u64,
    page: u16,
    next: u16,
}

impl Model for PackedPhase {
    ghost use Rattle.ring_frames.specs.declared.phase.Phase.{Phase};
    ghost use Rattle.ring_frames.specs.PackedPhase.{phase_in};

    ghost Value = { Phase };

    ghost view = { phase_in };
}

impl PackedPhase {
    ghost use Rattle.std.specs.Prelude.{◌≡◌, ◌↔◌, IsTrue};
    ghost use Rattle.ring_frames.specs.declared.phase.Phase.TheVariants.{Idle, Releasing, Wishing};

    /// The phase `Idle`.
    pub(crate) fn idle() -> PackedPhase
        ensures { result ≡ Idle }
    {
        PackedPhase {
            tag: Tag::Idle,
            role: Role::Owner,
            noted: 0,
            page: 0,
            next: 0,
        }
    }

    /// The phase.
    #[inline(always)]
    pub(crate) fn get(&self) -> Phase
        ensures { result ≡ self.now }
    {
        let noted = self.noted;
        let page = self.page;
        match self.tag {
            Tag::Idle => Phase::Idle,
            Tag::Looking => Phase::Looking { noted },
            Tag::Claiming => Phase::Claiming { noted, page },
            Tag::LookingNext => Phase::LookingNext {
                role: self.role,
                noted,
                page,
            },
            Tag::Marking => Phase::Marking {
                role: self.role,
                noted,
                page,
                next: self.next,
            },
            Tag::Clearing => Phase::Clearing { noted, page },
            Tag::Opening => Phase::Opening { noted, page },
            Tag::Releasing => Phase::Releasing,
            Tag::Wishing => Phase::Wishing,
        }
    }

    /// Whether the phase is `Idle`: one test, while `get` moves all fields.
    #[inline(always)]
    pub(crate) fn is_idle(&self) -> bool
        ensures { IsTrue result ↔ self.now ≡ Idle }
    {
        matches!(self.tag, Tag::Idle)
    }

    /// Whether the phase is `Wishing`.
    #[inline(always)]
    pub(crate) fn is_wishing(&self) -> bool
        ensures { IsTrue result ↔ self.now ≡ Wishing }
    {
        matches!(self.tag, Tag::Wishing)
    }

    /// The phase becomes `Idle`.
    #[inline(always)]
    pub(crate) fn set_idle(&mut self)
        ensures { self.new ≡ Idle }
    {
        self.tag = Tag::Idle;
    }

    /// The phase becomes `Releasing`.
    #[inline(always)]
    pub(crate) fn set_releasing(&mut self)
        ensures { self.new ≡ Releasing }
    {
        self.tag = Tag::Releasing;
    }

    /// The phase becomes `Wishing`.
    #[inline(always)]
    pub(crate) fn set_wishing(&mut self)
        ensures { self.new ≡ Wishing }
    {
        self.tag = Tag::Wishing;
    }

    /// The phase becomes this one.
    #[inline(always)]
    pub(crate) fn set(&mut self, phase: Phase)
        ensures { self.new ≡ phase }
    {
        match phase {
            Phase::Idle => self.set_idle(),
            Phase::Looking { noted } => {
                self.tag = Tag::Looking;
                self.noted = noted;
            }
            Phase::Claiming { noted, page } => {
                self.tag = Tag::Claiming;
                self.noted = noted;
                self.page = page;
            }
            Phase::LookingNext { role, noted, page } => {
                self.tag = Tag::LookingNext;
                self.role = role;
                self.noted = noted;
                self.page = page;
            }
            Phase::Marking {
                role,
                noted,
                page,
                next,
            } => {
                self.tag = Tag::Marking;
                self.role = role;
                self.noted = noted;
                self.page = page;
                self.next = next;
            }
            Phase::Clearing { noted, page } => {
                self.tag = Tag::Clearing;
                self.noted = noted;
                self.page = page;
            }
            Phase::Opening { noted, page } => {
                self.tag = Tag::Opening;
                self.noted = noted;
                self.page = page;
            }
            Phase::Releasing => self.set_releasing(),
            Phase::Wishing => self.set_wishing(),
        }
    }
}
