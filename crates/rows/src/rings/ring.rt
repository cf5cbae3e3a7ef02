//! What is asked of a ring, whichever it is.
use crate::rings::reply::{answer_text, image_text, refused};
use crate::rings::request::Request;
use nested_writer::WriteFault;
use page_image::Page;
use ring_frames::Answer;
use std::alloc::Global;
use trace_model::NoMemory;

/// A ring that answers events.
pub trait Ring {
    /// A frame is pushed for a record of this moment and length.
    fn push(&mut self, moment: u64, len: usize) -> Answer;

    /// A close frame is pushed.
    fn push_close(&mut self) -> Answer;

    /// The frame on top makes one step.
    fn step(&mut self) -> Answer;

    /// The frame on top makes steps until its record is reserved or refused, or it is gone.
    fn finish(&mut self) -> Answer;

    /// The payload is put to the beginning of the slot of the frame on top, if its record is reserved; the frame is
    /// ended.
    fn end(&mut self, payload: &[u8]) -> Answer;

    /// A record is written whole.
    fn write(&mut self, moment: u64, payload: &[u8]) -> Result<(), WriteFault>;

    /// The reader makes steps until the take has an answer.
    fn take(&mut self, alloc: Global) -> Result<Answer, NoMemory>;

    /// The reader wishes for the tail page.
    fn wish(&mut self) -> Answer;

    /// How many bytes are lent for the payload of the frame on top.
    fn lent(&mut self) -> Result<usize, WriteFault>;

    /// How many frames there are.
    fn depth(&self) -> usize;

    /// Keeps a page that was taken, and how many numbers are missing before it.
    fn keep(&mut self, page: Page, missed: u64);

    /// The page that was taken last.
    fn kept(&self) -> Option<(&Page, u64)>;
}

/// The page that was taken, and how many numbers are missing before it.
fn page_of(answer: Answer) -> Option<(Page, u64)> {
    match answer {
        Answer::Taken(page, missed) => Some((page, missed)),
        Answer::Looking(_body) => None,
        Answer::Empty(_done, _body) => None,
        Answer::Moving(_fill, _body) => None,
        Answer::Pushed | Answer::Going | Answer::Gone => None,
        Answer::Reserved(_) | Answer::Ended(_) | Answer::Refused(_) | Answer::Wished(_) => None,
    }
}

/// What a ring answers to a step of its reader, whose page is kept.
pub fn kept_text<R: Ring>(ring: &mut R, alloc: Global, answer: Answer) -> Result<String, NoMemory> {
    let text = answer_text(alloc, &answer);
    if let Some((page, missed)) = page_of(answer) {
        ring.keep(page, missed);
    }
    text
}

/// What a ring answers to a request of its writer, or to a wish; nothing to any other request.
fn step_answer<R: Ring>(ring: &mut R, request: &Request) -> Option<Answer> {
    match request {
        Request::Push { moment, len } => Some(ring.push(*moment, *len)),
        Request::PushClose => Some(ring.push_close()),
        Request::Step => Some(ring.step()),
        Request::Finish => Some(ring.finish()),
        Request::End(payload) => Some(ring.end(payload.as_slice())),
        Request::Wish => Some(ring.wish()),
        _ => None,
    }
}

/// What a ring answers to a whole write, a question, or a take.
fn whole_answer<R: Ring>(
    ring: &mut R,
    alloc: Global,
    request: &Request,
) -> Result<String, NoMemory> {
    match request {
        Request::Write { moment, payload } => match ring.write(*moment, payload.as_slice()) {
            Ok(()) => Ok(String::from_str(alloc, "written")?),
            Err(fault) => refused(alloc, fault),
        },
        Request::Top => match ring.lent() {
            Ok(len) => Ok(format!(in alloc; "{len} bytes")?),
            Err(fault) => refused(alloc, fault),
        },
        Request::Depth => Ok(format!(in alloc; "{}", ring.depth())?),
        Request::Image => image_text(alloc, ring.kept()),
        _ => {
            let answer = ring.take(alloc)?;
            kept_text(ring, alloc, answer)
        }
    }
}

/// What a ring answers to a request that both rings can make, and after which both go on.
pub fn answer<R: Ring>(ring: &mut R, alloc: Global, request: &Request) -> Result<String, NoMemory> {
    match step_answer(ring, request) {
        Some(answer) => answer_text(alloc, &answer),
        None => whole_answer(ring, alloc, request),
    }
}

/// Puts the beginning of a payload, as far as it has room in a slot.
pub fn fill(slot: &mut [u8], payload: &[u8])
    ensures { length slot.new ≡ length slot.old }
{
    let len = payload.len().min(slot.len());
    slot[..len].copy_from_slice(&payload[..len]);
}

ghost use Rattle.std.specs.Prelude.{◌≡◌, length};
