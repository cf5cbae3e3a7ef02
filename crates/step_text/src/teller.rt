//! The text of a replay's steps, with what is known of each ring.
ghost use Rattle.std.specs.Prelude.{◌≡◌, ℕ, ◌++◌, ◌<◌, List, length, All, OnOk, IfOk};
ghost use Rattle.world_model.specs.Lanes.{Lane, IsNewLane};
ghost use Rattle.step_model.specs.RunTexts.{new_rings_text, trace_line};
ghost use Rattle.script_replay.specs.Known.{StepTextValue, Knows};
ghost use Rattle.step_text.specs.Known.{known_in, step_text_of};
ghost use Rattle.step_text.specs.Tells.{MayTellOf, TellsStepOf};

use crate::changes::put_changes;
use crate::fates::{put_fates, put_gains};
use crate::new_rings::{copies_of, new_ring, put_new_rings, put_trace_line};
use crate::seen::Parts;
use crate::step_line::put_step_line;
use link_marks::Link;
use page_numbers::Parcel;
use ring_core::{Answer, Core};
use script_replay::log::{At, LogLine, put_log_line};
use script_replay::{Asked, Teller};
use std::alloc::Global;
use std::marker::Model;
use trace_model::NoMemory;
use trace_script::Script;

/// What is known of a ring: all that its step text says of it.
#[derive(Drop)]
pub(crate) struct Known {
    /// The link into each position.
    pub(crate) links: Vec<Link>,
    /// The page at each position.
    pub(crate) order: Vec<u16>,
    pub(crate) parts: Parts,
}

impl Known {
    /// It is known that the ring is in this state now.
    fn learn(&mut self, ring: &Core, now: Parts)
        requires links { length (known_in self.old).links ≡ length ring.now.links }
        requires order { length (known_in self.old).order ≡ length ring.now.order }
        ensures { known_in self.new ≡ record { links = ring.now.links; order = ring.now.order; parts = now } }
    {
        self.links.copy_from_slice(ring.links());
        self.order.copy_from_slice(ring.order());
        self.parts = now;
    }

    /// Tells a step of the ring by this text, and knows its state after it.
    fn tell(
        &mut self,
        text: &mut Vec<u8>,
        at: At,
        asked: Asked,
        answer: &Answer,
        ring: &Core,
    ) -> Result<(), NoMemory>
        requires { MayTellOf asked answer.now ring.now (known_in self.old) }
        ensures { OnOk result (TellsStepOf at.line at.cpu.0 asked.entry answer.now ring.now (known_in self.old)
            text.old.items text.new.items (known_in self.new)) }
    {
        let now = self.parts.after(answer, ring);
        put_step_line(text, at, asked, answer, self, ring.links())?;
        put_changes(text, self, ring, &now)?;
        put_fates(text, asked, answer, &self.parts, ring, &now)?;
        self.learn(ring, now);
        Ok(())
    }
}

/// The text of a replay's steps, with what is known of the ring of each CPU: a step's text is what isn't known yet.
#[derive(Drop)]
pub struct StepText {
    text: Vec<u8>,
    rings: Vec<Known>,
}

impl Model for StepText {
    ghost Value = { StepTextValue };

    ghost view = { step_text_of };
}

impl StepText {
    /// The text of a script before its first line: what its rings are, each of them new.
    pub fn new(alloc: Global, script: &Script) -> Result<StepText, NoMemory>
        ensures text { IfOk result (λ told. (lanes : List Lane)
            → length lanes ≡ script.now.cpus
            → All (IsNewLane script.now.pages script.now.start) lanes
            → told.text ≡ trace_line script.now ++ new_rings_text lanes) }
        ensures knows { IfOk result (λ told. (cpu : ℕ) (lane : Lane)
            → cpu < script.now.cpus
            → IsNewLane script.now.pages script.now.start lane
            → Knows told cpu lane.core) }
    {
        let known = new_ring(alloc, script)?;
        let mut text = Vec::new(alloc);
        put_trace_line(&mut text, script)?;
        put_new_rings(&mut text, script.cpus(), &known)?;
        let rings = copies_of(alloc, &known, script.cpus())?;
        Ok(StepText { text, rings })
    }

    /// The text.
    pub fn into_text(self) -> Vec<u8>
        ensures { result.items ≡ self.text }
    {
        self.text
    }
}

impl Teller for StepText {
    ghost use Rattle.std.specs.Prelude.{Some, true};
    ghost use Rattle.std.proofs.lemmas.Bool.{true≢false};

    const TELLS: bool = true;

    ghost TELLS = { true };

    ghost told = { λ text. Some text };

    ghost untold = { λ untold _. absurd (true≢false untold) };

    fn tell(&mut self, at: At, asked: Asked, answer: &Answer, ring: &Core) -> Result<(), NoMemory> {
        self.rings[at.cpu.0 as usize].tell(&mut self.text, at, asked, answer, ring)
    }

    fn tell_delivery(&mut self, logged: &LogLine) -> Result<(), NoMemory> {
        put_log_line(&mut self.text, logged)
    }

    fn tell_gains(&mut self, parcel: &Parcel) -> Result<(), NoMemory> {
        put_gains(&mut self.text, parcel)
    }
}
