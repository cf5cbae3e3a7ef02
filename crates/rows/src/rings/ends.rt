//! The two ends of one running ring, in one thread.
ghost use Rattle.std.specs.Prelude.{◌≡◌, length, IfOk};
ghost use Rattle.ring_shared.specs.Value.{WriterValue, ReaderValue};
ghost use Rattle.ring_shared.specs.Calls.{IsWriter};
ghost use Rattle.ring_shared.specs.Takes.{IsReader};

use crate::rings::reply::{unread_text, unsettled};
use crate::rings::request::Shape;
use crate::rings::ring::{Ring, fill};
use nested_writer::WriteFault;
use page_image::{Body, Page};
use ring_frames::Answer;
use ring_shared::{Reader, Take, Writer, ring_at, settle};
use std::alloc::Global;
use std::marker::Model;
use trace_model::NoMemory;

/// The ends of one ring.
#[derive(Drop)]
pub struct Ends {
    writer: Writer,
    reader: Reader,
    shape: Shape,
    kept: Option<(Page, u64)>,
}

impl Model for Ends {
    ghost Value = { WriterValue × ReaderValue };

    ghost view = { λ e. (e.writer, e.reader) };

    ghost invariant = { λ e. IsWriter e.writer
        × IsReader e.reader
        × (e.reader.table ≡ e.writer.table)
        × (e.reader.shape.size ≡ e.shape.size) };
}

impl Ends {
    /// The ends of a new ring of this shape.
    pub fn new(alloc: Global, shape: Shape) -> Result<Ends, NoMemory> {
        let (writer, reader) = ring_at(alloc, shape.pages, shape.size, shape.start)?;
        Ok(Ends {
            writer,
            reader,
            shape,
            kept: None,
        })
    }

    /// A body for the next take: that of the page that was taken last, or a new one.
    fn body(&mut self, alloc: Global) -> Result<Body, NoMemory>
        ensures { IfOk result (λ body. length body ≡ self.new.1.shape.size) }
    {
        if let Some((page, _)) = self.kept.take() {
            let body = self.reader.give_back(page);
            if body.size() == self.shape.size {
                return Ok(body);
            }
        }
        Body::new(alloc, self.shape.size)
    }

    /// The payload is put to the beginning of the slot of the frame on top, if its record is reserved.
    fn put(&mut self, payload: &[u8]) -> Result<(), WriteFault> {
        fill(self.writer.top_mut()?, payload);
        Ok(())
    }

    /// What is unread once both ends are joined: there is no frame, and the last take found no closed fill unread.
    pub fn settled(self, alloc: Global) -> Result<String, NoMemory> {
        let Ends { writer, reader, .. } = self;
        if writer.depth() != 0 || reader.empty_at() != Some(writer.done()) {
            return unsettled(alloc);
        }
        let Ok(settled) = settle(alloc, writer, reader) else {
            return Err(NoMemory);
        };
        unread_text(alloc, settled.unread())
    }
}

impl Ring for Ends {
    fn push(&mut self, moment: u64, len: usize) -> Answer {
        self.writer.begin(moment, len)
    }

    fn push_close(&mut self) -> Answer {
        self.writer.begin_close()
    }

    fn step(&mut self) -> Answer {
        self.writer.step()
    }

    fn finish(&mut self) -> Answer {
        self.writer.finish_top()
    }

    fn end(&mut self, payload: &[u8]) -> Answer {
        let _put = self.put(payload);
        self.writer.end()
    }

    fn write(&mut self, moment: u64, payload: &[u8]) -> Result<(), WriteFault> {
        self.writer.write(moment, payload)
    }

    fn take(&mut self, alloc: Global) -> Result<Answer, NoMemory> {
        let body = self.body(alloc)?;
        Ok(match self.reader.take(body) {
            Take::Page(page, missed) => Answer::Taken(page, missed),
            Take::Empty(done, body) => Answer::Empty(done, body),
            Take::Moving(fill, body) => Answer::Moving(fill, body),
        })
    }

    fn wish(&mut self) -> Answer {
        Answer::Wished(self.reader.wish())
    }

    fn lent(&mut self) -> Result<usize, WriteFault> {
        let slot: &mut [u8] = self.writer.top_mut()?;
        Ok(slot.len())
    }

    fn depth(&self) -> usize {
        self.writer.depth()
    }

    fn keep(&mut self, page: Page, missed: u64) {
        self.kept = Some((page, missed));
    }

    fn kept(&self) -> Option<(&Page, u64)> {
        self.kept.as_ref().map(|(page, missed)| (page, *missed))
    }
}
