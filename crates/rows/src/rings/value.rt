//! The ring as a value, one event at a time: a call of the running ring's ends is made of its single steps.
ghost use Rattle.std.specs.Prelude.{◌≡◌};
ghost use Rattle.ring_core.specs.Value.{CoreValue};
ghost use Rattle.ring_core.specs.Steps.{IsReachedCore};

use crate::rings::reply::{unread_text, unsettled};
use crate::rings::request::Shape;
use crate::rings::ring::{Ring, fill};
use nested_writer::{Ended, WriteFault};
use page_image::{Body, Page};
use ring_core::{Core, Event};
use ring_frames::Answer;
use std::alloc::Global;
use std::marker::Model;
use trace_model::{MAX_FRAMES, NoMemory};

/// More steps than a frame makes before it has reserved or is gone.
const MOST_FRAME_STEPS: u32 = 10_000;

/// A ring as a value.
#[derive(Drop)]
pub struct Value {
    core: Core,
    shape: Shape,
    /// For each frame, from the bottom one on, whether it is a close frame.
    closes: [bool; MAX_FRAMES],
    kept: Option<(Page, u64)>,
}

impl Model for Value {
    ghost Value = { CoreValue };

    ghost view = { λ v. v.core };

    ghost invariant = { λ v. IsReachedCore v.core
        × (v.core.stack.size ≡ v.shape.size) };
}

impl Value {
    /// A new ring of this shape.
    pub fn new(alloc: Global, shape: Shape) -> Result<Value, NoMemory> {
        let core = Core::new_at(alloc, shape.pages, shape.size, shape.start)?;
        Ok(Value {
            core,
            shape,
            closes: [false; MAX_FRAMES],
            kept: None,
        })
    }

    /// One step of the reader.
    pub fn read(&mut self, alloc: Global) -> Result<Answer, NoMemory> {
        let body = Body::new(alloc, self.shape.size)?;
        Ok(self.core.step(Event::Read(body)))
    }

    /// Keeps whether the next frame, above `depth` others, is a close frame.
    fn note(&mut self, depth: usize, closes: bool) {
        if depth < MAX_FRAMES {
            self.closes[depth] = closes;
        }
    }

    /// Whether the one on top of `depth` frames is a close frame.
    fn is_close(&self, depth: usize) -> bool {
        match depth {
            0 => false,
            _ => self.closes.get(depth - 1) == Some(&true),
        }
    }

    /// The payload is put to the beginning of the slot of the frame on top, if its record is reserved.
    fn put(&mut self, payload: &[u8]) -> Result<(), WriteFault> {
        fill(self.core.top_mut()?, payload);
        Ok(())
    }

    /// What is unread, if there is no frame and no closed fill is unread.
    pub fn settled(self, alloc: Global) -> Result<String, NoMemory> {
        let mut value = self;
        value.close_and_take(alloc)
    }

    /// What is unread: the tail, which is closed and taken for it.
    fn close_and_take(&mut self, alloc: Global) -> Result<String, NoMemory> {
        if self.depth() != 0 || !matches!(self.take(alloc)?, Answer::Empty(_, _)) {
            return unsettled(alloc);
        }
        self.push_close();
        self.finish();
        match self.take(alloc)? {
            Answer::Taken(page, _) => unread_text(alloc, Some(&page)),
            _ => unread_text(alloc, None),
        }
    }
}

impl Ring for Value {
    fn push(&mut self, moment: u64, len: usize) -> Answer {
        let depth = self.core.depth();
        self.note(depth, false);
        self.core.step(Event::Push { moment, len })
    }

    fn push_close(&mut self) -> Answer {
        let depth = self.core.depth();
        self.note(depth, true);
        self.core.step(Event::PushClose)
    }

    fn step(&mut self) -> Answer {
        self.core.step(Event::Step)
    }

    /// A record frame that is refused makes no further step; a close frame makes steps until it is gone.
    fn finish(&mut self) -> Answer {
        let depth = self.core.depth();
        let closes = self.is_close(depth);
        let mut met = None;
        for _ in 0..MOST_FRAME_STEPS {
            match self.step() {
                Answer::Going => {}
                Answer::Refused(fault) if closes && self.core.depth() == depth => {
                    met = met.or(Some(fault));
                }
                answer => return met.map_or(answer, Answer::Refused),
            }
        }
        Answer::Going
    }

    fn end(&mut self, payload: &[u8]) -> Answer {
        let _put = self.put(payload);
        self.core.step(Event::End)
    }

    fn write(&mut self, moment: u64, payload: &[u8]) -> Result<(), WriteFault> {
        let depth = self.core.depth();
        if let Answer::Refused(fault) = self.push(moment, payload.len()) {
            return Err(fault);
        }
        if let Answer::Refused(fault) = self.finish() {
            if self.core.depth() > depth {
                self.finish();
            }
            return Err(fault);
        }
        if let Answer::Ended(Ended::Full) = self.end(payload) {
            self.finish();
        }
        Ok(())
    }

    /// At most two steps for each page of the ring and eight, as the reader's end makes.
    fn take(&mut self, alloc: Global) -> Result<Answer, NoMemory> {
        let mut answer = self.read(alloc)?;
        for _ in 0..self.shape.pages.saturating_mul(2).saturating_add(7) {
            if !matches!(&answer, Answer::Looking(_)) {
                return Ok(answer);
            }
            answer = self.read(alloc)?;
        }
        Ok(answer)
    }

    fn wish(&mut self) -> Answer {
        self.core.step(Event::Wish)
    }

    fn lent(&mut self) -> Result<usize, WriteFault> {
        let slot: &mut [u8] = self.core.top_mut()?;
        Ok(slot.len())
    }

    fn depth(&self) -> usize {
        self.core.depth()
    }

    fn keep(&mut self, page: Page, missed: u64) {
        self.kept = Some((page, missed));
    }

    fn kept(&self) -> Option<(&Page, u64)> {
        self.kept.as_ref().map(|(page, missed)| (page, *missed))
    }
}
