//! The lines of keys: what each is, and its value. On an error a part of a line may be left after what was there.
ghost use Rattle.std.specs.Prelude.{◌≡◌, ◌++◌, OnOk, Some, None};
ghost use Rattle.text_model.specs.Text.{space};
ghost use Rattle.trace_model.specs.Frames.{noted_fill};
ghost use Rattle.link_marks.specs.ModelLinks.{link_of};
ghost use Rattle.nested_writer.specs.Stack.{kind_of};
ghost use Rattle.ring_frames.specs.Value.{phase_of, role_of};
ghost use Rattle.ring_frames.specs.ReaderPhases.{reader_phase_of};
ghost use Rattle.step_model.specs.Seen.{link_is, page_is, spare_link_is, frame_is, frame_gone, phase_is, reader_is};
ghost use Rattle.step_model.specs.StepTexts as texts;
ghost use Rattle.step_model.specs.StepTexts.{change_text, head_text, link_text, page_of, next_of};
ghost use Rattle.step_model.specs.StepTexts.{phase_name, reader_name, role_text, spaced};
ghost use Rattle.step_model.specs.StepTexts.{spaced_or_none, state_text};
ghost use Rattle.step_text.specs.Seen.{reader_in, state_in};

use crate::seen::FrameState;
use link_marks::{Link, Mark};
use nested_writer::frame::Purpose;
use ring_frames::{Phase, ReaderPhase, Role, TakeState};
use text_values::put_number;
use trace_model::NoMemory;

/// A number after a space.
pub(crate) fn put_spaced(out: &mut Vec<u8>, number: u64) -> Result<(), NoMemory>
    ensures { OnOk result (out.new.items ≡ out.old.items ++ spaced number) }
{
    out.push(b' ')?;
    put_number(out, number)
}

/// A number after a space, or `-` if there is none.
fn put_spaced_or_none(out: &mut Vec<u8>, number: Option<u64>) -> Result<(), NoMemory>
    ensures { OnOk result (out.new.items ≡ out.old.items ++ spaced_or_none number) }
{
    match number {
        Some(number) => put_spaced(out, number)?,
        None => out.extend_from_slice(b" -")?,
    }
    Ok(())
}

/// A link: its mark, its page and its fill.
fn put_link(out: &mut Vec<u8>, link: Link) -> Result<(), NoMemory>
    ensures { OnOk result (out.new.items ≡ out.old.items ++ link_text (link_of link)) }
{
    match link.mark {
        Mark::Normal => out.extend_from_slice(b"normal")?,
        Mark::Header => out.extend_from_slice(b"header")?,
        Mark::Update => out.extend_from_slice(b"update")?,
    }
    put_spaced(out, u64::from(link.page))?;
    put_spaced(out, link.fill)
}

/// The link into a position.
pub(crate) fn put_link_line(out: &mut Vec<u8>, position: u64, link: Link) -> Result<(), NoMemory>
    ensures { OnOk result (out.new.items ≡ out.old.items ++ change_text (link_is position (link_of link))) }
{
    out.extend_from_slice(b"  link")?;
    put_spaced(out, position)?;
    out.push(b' ')?;
    put_link(out, link)?;
    out.push(b'\n')?;
    Ok(())
}

/// The link of the spare.
pub(crate) fn put_spare_link_line(out: &mut Vec<u8>, link: Link) -> Result<(), NoMemory>
    ensures { OnOk result (out.new.items ≡ out.old.items ++ change_text (spare_link_is (link_of link))) }
{
    out.extend_from_slice(b"  spare_link ")?;
    put_link(out, link)?;
    out.push(b'\n')?;
    Ok(())
}

/// The page at a position.
pub(crate) fn put_page_line(out: &mut Vec<u8>, position: u64, page: u16) -> Result<(), NoMemory>
    ensures { OnOk result (out.new.items ≡ out.old.items ++ change_text (page_is position page)) }
{
    out.extend_from_slice(b"  at")?;
    put_spaced(out, position)?;
    put_spaced(out, u64::from(page))?;
    out.push(b'\n')?;
    Ok(())
}

/// What a frame was pushed for.
pub(crate) fn put_frame_line(
    out: &mut Vec<u8>,
    depth: u64,
    purpose: Purpose,
) -> Result<(), NoMemory>
    ensures { OnOk result (out.new.items ≡ out.old.items ++ change_text (frame_is depth (kind_of purpose))) }
{
    out.extend_from_slice(b"  frame")?;
    put_spaced(out, depth)?;
    match purpose {
        Purpose::Record { moment, len } => {
            out.extend_from_slice(b" record")?;
            put_spaced(out, moment)?;
            put_spaced(out, len as u64)?;
        }
        Purpose::Close => out.extend_from_slice(b" close")?,
    }
    out.push(b'\n')?;
    Ok(())
}

/// A frame is gone.
pub(crate) fn put_gone_line(out: &mut Vec<u8>, depth: u64) -> Result<(), NoMemory>
    ensures { OnOk result (out.new.items ≡ out.old.items ++ change_text (frame_gone depth)) }
{
    out.extend_from_slice(b"  frame")?;
    put_spaced(out, depth)?;
    out.extend_from_slice(b" gone\n")?;
    Ok(())
}

/// Who moves the head.
fn put_role(out: &mut Vec<u8>, role: Role) -> Result<(), NoMemory>
    ensures { OnOk result (out.new.items ≡ out.old.items ++ role_text (role_of role)) }
{
    match role {
        Role::Owner => out.extend_from_slice(b" owner")?,
        Role::Helper => out.extend_from_slice(b" helper")?,
    }
    Ok(())
}

/// A phase by its name.
fn put_phase_name(out: &mut Vec<u8>, phase: Phase) -> Result<(), NoMemory>
    ensures { OnOk result (out.new.items ≡ out.old.items ++ phase_name (phase_of phase)) }
{
    match phase {
        Phase::Idle => out.extend_from_slice(b"idle")?,
        Phase::Looking { .. } => out.extend_from_slice(b"looking")?,
        Phase::Claiming { .. } => out.extend_from_slice(b"claiming")?,
        Phase::LookingNext { .. } => out.extend_from_slice(b"looking_next")?,
        Phase::Marking { .. } => out.extend_from_slice(b"marking")?,
        Phase::Clearing { .. } => out.extend_from_slice(b"clearing")?,
        Phase::Opening { .. } => out.extend_from_slice(b"opening")?,
        Phase::Releasing => out.extend_from_slice(b"releasing")?,
        Phase::Wishing => out.extend_from_slice(b"wishing")?,
    }
    Ok(())
}

/// The fill that a frame is about to open, if it has noted one.
fn noted_fill(phase: Phase) -> Option<u64>
    ensures { result ≡ noted_fill (phase_of phase) }
{
    match phase {
        Phase::Looking { noted }
        | Phase::Claiming { noted, .. }
        | Phase::LookingNext { noted, .. }
        | Phase::Marking { noted, .. }
        | Phase::Clearing { noted, .. }
        | Phase::Opening { noted, .. } => Some(noted),
        Phase::Idle | Phase::Releasing | Phase::Wishing => None,
    }
}

/// The page that a frame has seen at that fill's position.
fn page_of(phase: Phase) -> Option<u64>
    ensures { result ≡ page_of (phase_of phase) }
{
    match phase {
        Phase::Claiming { page, .. }
        | Phase::LookingNext { page, .. }
        | Phase::Marking { page, .. }
        | Phase::Clearing { page, .. }
        | Phase::Opening { page, .. } => Some(u64::from(page)),
        Phase::Idle | Phase::Looking { .. } | Phase::Releasing | Phase::Wishing => None,
    }
}

/// The page after that one.
fn next_of(phase: Phase) -> Option<u64>
    ensures { result ≡ next_of (phase_of phase) }
{
    match phase {
        Phase::Marking { next, .. } => Some(u64::from(next)),
        _ => None,
    }
}

/// Who moves the head, if somebody does.
fn put_role_of(out: &mut Vec<u8>, phase: Phase) -> Result<(), NoMemory>
    ensures { OnOk result (out.new.items ≡ out.old.items ++ texts.role_of (phase_of phase)) }
{
    match phase {
        Phase::LookingNext { role, .. } | Phase::Marking { role, .. } => put_role(out, role),
        Phase::Clearing { .. } => put_role(out, Role::Owner),
        _ => Ok(out.extend_from_slice(b" -")?),
    }
}

/// What a frame is.
fn put_state(out: &mut Vec<u8>, state: FrameState) -> Result<(), NoMemory>
    ensures { OnOk result (out.new.items ≡ out.old.items ++ state_text (state_in state)) }
{
    match state {
        FrameState::Waiting => out.extend_from_slice(b" waiting")?,
        FrameState::Left => out.extend_from_slice(b" left")?,
        FrameState::Reserved(number) => put_spaced(out, number)?,
    }
    Ok(())
}

/// How far a frame has come.
pub(crate) fn put_phase_line(
    out: &mut Vec<u8>,
    depth: u64,
    state: FrameState,
    phase: Phase,
) -> Result<(), NoMemory>
    ensures { OnOk result (out.new.items
        ≡ out.old.items ++ change_text (phase_is depth (state_in state) (phase_of phase))) }
{
    out.extend_from_slice(b"  phase")?;
    put_spaced(out, depth)?;
    out.push(b' ')?;
    put_phase_name(out, phase)?;
    put_spaced_or_none(out, noted_fill(phase))?;
    put_spaced_or_none(out, page_of(phase))?;
    put_spaced_or_none(out, next_of(phase))?;
    put_role_of(out, phase)?;
    put_state(out, state)?;
    out.push(b'\n')?;
    Ok(())
}

/// A phase of the reader by its name.
fn put_reader_name(out: &mut Vec<u8>, phase: ReaderPhase) -> Result<(), NoMemory>
    ensures { OnOk result (out.new.items ≡ out.old.items ++ reader_name (reader_phase_of phase)) }
{
    match phase {
        ReaderPhase::LoadingHead => out.extend_from_slice(b"loading_head")?,
        ReaderPhase::LoadingDone { .. } => out.extend_from_slice(b"loading_done")?,
        ReaderPhase::StoringSpareLink { .. } => out.extend_from_slice(b"storing_spare_link")?,
        ReaderPhase::Swapping { .. } => out.extend_from_slice(b"swapping")?,
    }
    Ok(())
}

/// The head that the reader has seen.
fn put_head(out: &mut Vec<u8>, phase: ReaderPhase) -> Result<(), NoMemory>
    ensures { OnOk result (out.new.items ≡ out.old.items ++ head_text (reader_phase_of phase)) }
{
    match phase {
        ReaderPhase::LoadingHead => Ok(out.extend_from_slice(b" - -")?),
        ReaderPhase::LoadingDone { page, fill }
        | ReaderPhase::StoringSpareLink { page, fill }
        | ReaderPhase::Swapping { page, fill } => {
            put_spaced(out, u64::from(page))?;
            put_spaced(out, fill)
        }
    }
}

/// How far the reader has come, and what it knows.
pub(crate) fn put_reader_line(out: &mut Vec<u8>, reader: TakeState) -> Result<(), NoMemory>
    ensures { OnOk result (out.new.items ≡ out.old.items ++ change_text (reader_is (reader_in reader))) }
{
    out.extend_from_slice(b"  reader ")?;
    put_reader_name(out, reader.phase)?;
    put_spaced(out, reader.hint)?;
    put_spaced(out, reader.seen)?;
    put_spaced(out, reader.expected)?;
    put_head(out, reader.phase)?;
    out.push(b'\n')?;
    Ok(())
}
