//! The first line of a step: who makes it, which one it is, and what is answered.
ghost use Rattle.std.specs.Prelude.{◌≡◌, ◌++◌, ◌∷◌, ◌<◌, ◌^◌, [], ℕ, suc, Bool, if◌then◌else◌, List, OnOk, codes, map};
ghost use Rattle.trace_model.specs.Ring as model;
ghost use Rattle.trace_model.specs.Steps as steps;
ghost use Rattle.link_marks.specs.ModelLinks.{link_of};
ghost use Rattle.ring_frames.specs.Answers.{IsAnswerOf};
ghost use Rattle.ring_frames.specs.Value.{phase_of};
ghost use Rattle.ring_frames.specs.ReaderPhases.{reader_phase_of};
ghost use Rattle.step_model.specs.StepTexts.{answer_text, done_text, exchange_text, frame_step_name};
ghost use Rattle.step_model.specs.StepTexts.{links_differ, outcome_text, read_step_name, spaced, step_line};
ghost use Rattle.world_model.specs.Lanes.{event_on_top};
ghost use Rattle.step_text.specs.Seen.{ArePartsOf, frame_in};
ghost use Rattle.step_text.specs.Known.{IsKnownOf, known_in};
ghost use Rattle.step_text.specs.Exchanges.{begins_again_in, frame_exchanges_in, is_exchange_in};
ghost use Rattle.script_replay.specs.Tells.{IsAsked};

use crate::put::put_spaced;
use crate::seen::{FrameSeen, FrameState, Parts};
use crate::teller::Known;
use link_marks::Link;
use nested_writer::Ended;
use ring_core::Answer;
use ring_frames::{Phase, ReaderPhase, Role};
use script_replay::Asked;
use script_replay::log::{At, put_fault, put_front};
use trace_model::NoMemory;

/// Whether a frame of this phase finds that another one has begun the fill which it noted, and begins again.
fn begins_again(opened: u64, phase: Phase) -> bool
    ensures { result ≡ begins_again_in opened (phase_of phase) }
{
    match phase {
        Phase::Looking { noted }
        | Phase::Claiming { noted, .. }
        | Phase::Opening { noted, .. }
        | Phase::LookingNext {
            role: Role::Helper,
            noted,
            ..
        }
        | Phase::Marking {
            role: Role::Helper,
            noted,
            ..
        } => noted != opened,
        _ => false,
    }
}

/// The name of the step that a frame in this phase makes.
fn put_frame_step(out: &mut Vec<u8>, opened: u64, phase: Phase) -> Result<(), NoMemory>
    ensures { OnOk result (out.new.items ≡ out.old.items ++ frame_step_name opened (phase_of phase)) }
{
    if begins_again(opened, phase) {
        out.extend_from_slice(b"begin_again")?;
        return Ok(());
    }
    match phase {
        Phase::Idle => out.extend_from_slice(b"reserve")?,
        Phase::Looking { .. } => out.extend_from_slice(b"load_link")?,
        Phase::Claiming { .. } => out.extend_from_slice(b"claim_head")?,
        Phase::LookingNext { .. } => out.extend_from_slice(b"load_next")?,
        Phase::Marking { .. } => out.extend_from_slice(b"mark_head")?,
        Phase::Clearing { .. } => out.extend_from_slice(b"clear_update")?,
        Phase::Opening { .. } => out.extend_from_slice(b"open_fill")?,
        Phase::Releasing => out.extend_from_slice(b"release_fill")?,
        Phase::Wishing => out.extend_from_slice(b"load_wish")?,
    }
    Ok(())
}

/// The step of the frame on top; the end of its record, if that is reserved.
fn put_top_step(out: &mut Vec<u8>, old: &Parts) -> Result<(), NoMemory>
    ensures { OnOk result ((before : model.Core) (payload : List ℕ)
        → ArePartsOf old.now before
        → out.new.items ≡ out.old.items ++ done_text before (event_on_top before.frames (payload ∷ []))) }
{
    out.extend_from_slice(b" frame")?;
    put_spaced(out, old.depth)?;
    match old.top {
        None => out.extend_from_slice(b" step")?,
        Some(
            FrameSeen {
                state: FrameState::Reserved(_),
                ..
            },
        ) => out.extend_from_slice(b" end")?,
        Some(frame) => {
            out.push(b' ')?;
            put_frame_step(out, old.counts.opened, frame.phase)?;
        }
    }
    Ok(())
}

/// A frame that is pushed.
fn put_push(out: &mut Vec<u8>, depth: u64, name: &[u8]) -> Result<(), NoMemory>
    requires { depth < 2 ^ 63 }
    ensures { OnOk result (out.new.items
        ≡ out.old.items ++ (codes " frame" ++ spaced (suc depth) ++ name.now)) }
{
    out.extend_from_slice(b" frame")?;
    put_spaced(out, depth + 1)?;
    out.extend_from_slice(name)?;
    Ok(())
}

/// The step that the reader makes in this phase.
fn put_read_step(out: &mut Vec<u8>, phase: ReaderPhase) -> Result<(), NoMemory>
    ensures { OnOk result (out.new.items
        ≡ out.old.items ++ (codes " reader " ++ read_step_name (reader_phase_of phase))) }
{
    match phase {
        ReaderPhase::LoadingHead => out.extend_from_slice(b" reader load_head")?,
        ReaderPhase::LoadingDone { .. } => out.extend_from_slice(b" reader load_done")?,
        ReaderPhase::StoringSpareLink { .. } => out.extend_from_slice(b" reader store_spare_link")?,
        ReaderPhase::Swapping { .. } => out.extend_from_slice(b" reader swap_head")?,
    }
    Ok(())
}

/// Who makes the step, and which one it is.
fn put_done(out: &mut Vec<u8>, asked: Asked, old: &Parts) -> Result<(), NoMemory>
    requires { old.now.depth < 2 ^ 63 }
    ensures { OnOk result ((before : model.Core) (event : steps.Event)
        → ArePartsOf old.now before
        → IsAsked asked.entry before event
        → out.new.items ≡ out.old.items ++ done_text before event) }
{
    match asked {
        Asked::Push => put_push(out, old.depth, b" push"),
        Asked::PushClose => put_push(out, old.depth, b" push_close"),
        Asked::Top(_) => put_top_step(out, old),
        Asked::Read => put_read_step(out, old.reader.phase),
        Asked::Wish => Ok(out.extend_from_slice(b" reader store_wish")?),
    }
}

/// What was answered.
fn put_answer(out: &mut Vec<u8>, answer: &Answer) -> Result<(), NoMemory>
    ensures { OnOk result ((size : ℕ) (reported : steps.Answer)
        → IsAnswerOf size answer.now reported
        → out.new.items ≡ out.old.items ++ answer_text reported) }
{
    match answer {
        Answer::Pushed => out.extend_from_slice(b" pushed")?,
        Answer::Going => out.extend_from_slice(b" going")?,
        Answer::Reserved(number) => {
            out.extend_from_slice(b" reserved")?;
            put_spaced(out, number.0)?;
        }
        Answer::Ended(Ended::Pending) => out.extend_from_slice(b" pending")?,
        Answer::Ended(Ended::Full) => out.extend_from_slice(b" full")?,
        Answer::Gone => out.extend_from_slice(b" gone")?,
        Answer::Refused(fault) => {
            out.extend_from_slice(b" refused ")?;
            put_fault(out, *fault)?;
        }
        Answer::Looking(_) => out.extend_from_slice(b" reading")?,
        Answer::Empty(done, _) => {
            out.extend_from_slice(b" empty")?;
            put_spaced(out, *done)?;
        }
        Answer::Moving(fill, _) => {
            out.extend_from_slice(b" moving")?;
            put_spaced(out, fill.0)?;
        }
        Answer::Taken(page, missed) => {
            out.extend_from_slice(b" taken")?;
            put_spaced(out, page.fill().0)?;
            put_spaced(out, page.first().0)?;
            put_spaced(out, page.count() as u64)?;
            put_spaced(out, *missed)?;
        }
        Answer::Wished(fill) => {
            out.extend_from_slice(b" asks")?;
            put_spaced(out, fill.0)?;
        }
    }
    Ok(())
}

/// Whether a link is new.
fn do_links_differ(olds: &[Link], news: &[Link]) -> bool
    ensures { result ≡ links_differ (map link_of olds.now) (map link_of news.now) }
{
    let count = olds.len().min(news.len());
    for position in 0..count {
        if olds[position] != news[position] {
            return true;
        }
    }
    false
}

/// Whether the step of a frame in this phase is a compare and exchange.
fn is_exchange(opened: u64, phase: Phase) -> bool
    ensures { result ≡ is_exchange_in opened (phase_of phase) }
{
    matches!(phase, Phase::Claiming { .. } | Phase::Marking { .. }) && !begins_again(opened, phase)
}

/// Whether the step of this frame is one: the end of its record isn't.
fn is_frames_exchange(opened: u64, frame: FrameSeen) -> bool
    ensures { result ≡ frame_exchanges_in opened (frame_in frame) }
{
    match frame.state {
        FrameState::Reserved(_) => false,
        FrameState::Waiting | FrameState::Left => is_exchange(opened, frame.phase),
    }
}

/// Whether the step is a compare and exchange.
fn exchanges(asked: Asked, old: &Parts) -> bool
    ensures { (before : model.Core) (event : steps.Event) (done : Bool)
        → ArePartsOf old.now before
        → IsAsked asked.entry before event
        → exchange_text before event done ≡ (if result then outcome_text done else []) }
{
    match (asked, old.top) {
        (Asked::Top(_), Some(frame)) => is_frames_exchange(old.counts.opened, frame),
        (Asked::Read, _) => matches!(old.reader.phase, ReaderPhase::Swapping { .. }),
        _ => false,
    }
}

/// Whether a compare and exchange was done.
fn put_outcome(out: &mut Vec<u8>, done: bool) -> Result<(), NoMemory>
    ensures { OnOk result (out.new.items ≡ out.old.items ++ outcome_text done) }
{
    if done {
        out.extend_from_slice(b" done")?;
    } else {
        out.extend_from_slice(b" not-done")?;
    }
    Ok(())
}

/// Whether a compare and exchange was done, if the step is one: these are the links after it.
fn put_exchange(
    out: &mut Vec<u8>,
    asked: Asked,
    known: &Known,
    links: &[Link],
) -> Result<(), NoMemory>
    ensures { OnOk result ((before after : model.Core) (event : steps.Event)
        → IsKnownOf (known_in known.now) before
        → IsAsked asked.entry before event
        → map link_of links.now ≡ after.links
        → out.new.items ≡ out.old.items ++ exchange_text before event (links_differ before.links after.links)) }
{
    if !exchanges(asked, &known.parts) {
        return Ok(());
    }
    let done = do_links_differ(known.links.as_slice(), links);
    put_outcome(out, done)?;
    Ok(())
}

/// The first line of a step.
pub(crate) fn put_step_line(
    out: &mut Vec<u8>,
    at: At,
    asked: Asked,
    answer: &Answer,
    known: &Known,
    links: &[Link],
) -> Result<(), NoMemory>
    requires { known.now.parts.depth < 2 ^ 63 }
    ensures { OnOk result ((size : ℕ) (before after : model.Core) (event : steps.Event) (reported : steps.Answer)
        → IsKnownOf (known_in known.now) before
        → IsAsked asked.entry before event
        → IsAnswerOf size answer.now reported
        → map link_of links.now ≡ after.links
        → out.new.items ≡ out.old.items ++ step_line at.line at.cpu.0 before event reported after) }
{
    let old = &known.parts;
    put_front(out, at.line, at.cpu)?;
    put_done(out, asked, old)?;
    put_answer(out, answer)?;
    put_exchange(out, asked, known, links)?;
    out.push(b'\n')?;
    Ok(())
}
