//! The keys whose values are new after a step.
ghost use Rattle.std.specs.Prelude.{◌≡◌, ◌++◌, ◌∷◌, ◌&&◌, [], ℕ, OnOk, flat_map, map};
ghost use Rattle.trace_model.specs.Links.{same_link};
ghost use Rattle.trace_model.specs.Ring as model;
ghost use Rattle.link_marks.specs.ModelLinks.{link_of};
ghost use Rattle.ring_core.specs.IsCore.{IsCore};
ghost use Rattle.ring_frames.specs.Value.{phase_of};
ghost use Rattle.step_model.specs.Seen.{CountKey, count_is, frame_is, phase_is, reader_is, ring_seen, spare_link_is};
ghost use Rattle.step_model.specs.Changes.{changes, count_change, count_changes, link_changes, page_changes};
ghost use Rattle.step_model.specs.Changes.{same_phase, same_reader, same_state, unless_same};
ghost use Rattle.step_model.specs.StepTexts.{change_text, count_text};
ghost use Rattle.step_text.specs.Seen.{ArePartsOf, counts_in, frame_in, reader_in, state_in, top_in};
ghost use Rattle.step_text.specs.FrameChanges.{frame_changes_in};
ghost use Rattle.step_text.specs.Known.{IsKnownOf, known_in};

use crate::put::{
    put_frame_line, put_gone_line, put_link_line, put_page_line, put_phase_line, put_reader_line,
    put_spaced, put_spare_link_line,
};
use crate::seen::{Counts, FrameSeen, FrameState, Parts};
use crate::teller::Known;
use link_marks::Link;
use ring_core::Core;
use ring_frames::{Phase, TakeState};
use trace_model::NoMemory;

/// Whether two links are the same.
fn is_same_link(old: Link, new: Link) -> bool
    ensures { result ≡ same_link (link_of old) (link_of new) }
{
    old == new
}

/// The links that are new.
fn put_link_changes(out: &mut Vec<u8>, olds: &[Link], news: &[Link]) -> Result<(), NoMemory>
    ensures { OnOk result (out.new.items
        ≡ out.old.items ++ flat_map change_text (link_changes 0 (map link_of olds.now) (map link_of news.now))) }
{
    let count = olds.len().min(news.len());
    for position in 0..count {
        if !is_same_link(olds[position], news[position]) {
            put_link_line(out, position as u64, news[position])?;
        }
    }
    Ok(())
}

/// The link of the spare, if it is new.
fn put_spare_link_change(out: &mut Vec<u8>, old: Link, new: Link) -> Result<(), NoMemory>
    ensures { OnOk result (out.new.items ≡ out.old.items ++ flat_map change_text
        (unless_same (same_link (link_of old) (link_of new)) (spare_link_is (link_of new)))) }
{
    if is_same_link(old, new) {
        return Ok(());
    }
    put_spare_link_line(out, new)
}

/// The positions whose pages are new.
fn put_page_changes(out: &mut Vec<u8>, olds: &[u16], news: &[u16]) -> Result<(), NoMemory>
    ensures { OnOk result (out.new.items
        ≡ out.old.items ++ flat_map change_text (page_changes 0 olds.now news.now)) }
{
    let count = olds.len().min(news.len());
    for position in 0..count {
        if olds[position] != news[position] {
            put_page_line(out, position as u64, news[position])?;
        }
    }
    Ok(())
}

/// The line of a count.
pub(crate) fn put_count(out: &mut Vec<u8>, key: &[u8], value: u64) -> Result<(), NoMemory>
    ensures { OnOk result ((named : CountKey) → key.now ≡ count_text named
        → out.new.items ≡ out.old.items ++ change_text (count_is named value)) }
{
    out.extend_from_slice(b"  ")?;
    out.extend_from_slice(key)?;
    put_spaced(out, value)?;
    out.push(b'\n')?;
    Ok(())
}

/// A count, if it is new.
fn put_count_change(out: &mut Vec<u8>, key: &[u8], old: u64, new: u64) -> Result<(), NoMemory>
    ensures { OnOk result ((named : CountKey) → key.now ≡ count_text named
        → out.new.items ≡ out.old.items ++ flat_map change_text (count_change named old new)) }
{
    if old == new {
        return Ok(());
    }
    put_count(out, key, new)
}

/// The counts that are new.
fn put_count_changes(out: &mut Vec<u8>, old: &Counts, new: &Counts) -> Result<(), NoMemory>
    ensures { OnOk result (out.new.items
        ≡ out.old.items ++ flat_map change_text (count_changes (counts_in old.now) (counts_in new.now))) }
{
    put_count_change(out, b"spare", u64::from(old.spare), u64::from(new.spare))?;
    put_count_change(out, b"done", old.done, new.done)?;
    put_count_change(out, b"opened", old.opened, new.opened)?;
    put_count_change(out, b"wish", old.wish, new.wish)?;
    put_count_change(out, b"head", old.head, new.head)?;
    put_count_change(out, b"committed", old.committed, new.committed)?;
    Ok(())
}

/// A frame that is pushed.
fn put_pushed(out: &mut Vec<u8>, depth: u64, new: FrameSeen) -> Result<(), NoMemory>
    ensures { OnOk result (out.new.items ≡ out.old.items
        ++ flat_map change_text (frame_is depth (frame_in new).kind
        ∷ phase_is depth (frame_in new).state (frame_in new).phase ∷ [])) }
{
    put_frame_line(out, depth, new.purpose)?;
    put_phase_line(out, depth, new.state, new.phase)
}

/// Whether two states are the same.
fn is_same_state(old: FrameState, new: FrameState) -> bool
    ensures { result ≡ same_state (state_in old) (state_in new) }
{
    match (old, new) {
        (FrameState::Waiting, FrameState::Waiting) => true,
        (FrameState::Left, FrameState::Left) => true,
        (FrameState::Reserved(number), FrameState::Reserved(other)) => number == other,
        _ => false,
    }
}

/// Whether two phases are the same.
fn is_same_phase(old: Phase, new: Phase) -> bool
    ensures { result ≡ same_phase (phase_of old) (phase_of new) }
{
    old == new
}

/// The frame on top, if it is in a new state or phase.
fn put_top_change(
    out: &mut Vec<u8>,
    depth: u64,
    old: FrameSeen,
    new: FrameSeen,
) -> Result<(), NoMemory>
    ensures { OnOk result (out.new.items ≡ out.old.items ++ flat_map change_text
        (unless_same (same_state (frame_in old).state (frame_in new).state
        && same_phase (frame_in old).phase (frame_in new).phase)
        (phase_is depth (frame_in new).state (frame_in new).phase))) }
{
    if is_same_state(old.state, new.state) && is_same_phase(old.phase, new.phase) {
        return Ok(());
    }
    put_phase_line(out, depth, new.state, new.phase)
}

/// A frame is pushed, or is gone, or the one on top goes on.
fn put_frame_changes(out: &mut Vec<u8>, old: &Parts, new: &Parts) -> Result<(), NoMemory>
    ensures { OnOk result (out.new.items ≡ out.old.items ++ flat_map change_text
        (frame_changes_in old.now.depth (top_in old.now.top) new.now.depth (top_in new.now.top))) }
{
    if old.depth < new.depth {
        return match new.top {
            Some(frame) => put_pushed(out, new.depth, frame),
            None => Ok(()),
        };
    }
    if new.depth < old.depth {
        return put_gone_line(out, old.depth);
    }
    match (old.top, new.top) {
        (Some(before), Some(after)) => put_top_change(out, new.depth, before, after),
        _ => Ok(()),
    }
}

/// Whether the reader is the same.
fn is_same_reader(old: TakeState, new: TakeState) -> bool
    ensures { result ≡ same_reader (reader_in old) (reader_in new) }
{
    old.phase == new.phase
        && old.hint == new.hint
        && old.seen == new.seen
        && old.expected == new.expected
}

/// The reader, if it is new.
fn put_reader_change(out: &mut Vec<u8>, old: TakeState, new: TakeState) -> Result<(), NoMemory>
    ensures { OnOk result (out.new.items ≡ out.old.items ++ flat_map change_text
        (unless_same (same_reader (reader_in old) (reader_in new)) (reader_is (reader_in new)))) }
{
    if is_same_reader(old, new) {
        return Ok(());
    }
    put_reader_line(out, new)
}

/// All keys whose values are new: what was known of the ring, and what it is now.
pub(crate) fn put_changes(
    out: &mut Vec<u8>,
    known: &Known,
    ring: &Core,
    now: &Parts,
) -> Result<(), NoMemory>
    ensures { OnOk result ((n size start : ℕ) (before after : model.Core)
        → IsKnownOf (known_in known.now) before
        → IsCore n size start ring.now after
        → ArePartsOf now.now after
        → out.new.items ≡ out.old.items ++ flat_map change_text (changes (ring_seen before) (ring_seen after))) }
{
    let parts = &known.parts;
    put_link_changes(out, known.links.as_slice(), ring.links())?;
    put_spare_link_change(out, parts.spare_link, now.spare_link)?;
    put_page_changes(out, known.order.as_slice(), ring.order())?;
    put_count_changes(out, &parts.counts, &now.counts)?;
    put_frame_changes(out, parts, now)?;
    put_reader_change(out, parts.reader, now.reader)
}
