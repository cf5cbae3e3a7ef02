//! What became of fills and records at a step, and what a delivery brings.
ghost use Rattle.std.specs.Prelude.{◌≡◌, ◌++◌, ◌∷◌, ◌<◌, [], ℕ, OnOk, flat_map};
ghost use Rattle.trace_model.specs.Ring as model;
ghost use Rattle.trace_model.specs.Steps as steps;
ghost use Rattle.trace_model.specs.Words.{padded};
ghost use Rattle.text_model.specs.Text.{hex_text};
ghost use Rattle.page_numbers.specs.Parcels.{as_parcel};
ghost use Rattle.ring_core.specs.IsCore.{IsCore};
ghost use Rattle.ring_frames.specs.Answers.{IsAnswerOf};
ghost use Rattle.step_model.specs.StepTexts.{begun_text, ended_text, passed_text, reserved_text, spaced};
ghost use Rattle.step_model.specs.RunTexts.{gain_text, gains_of};
ghost use Rattle.step_text.specs.Seen.{ArePartsOf};
ghost use Rattle.script_replay.specs.Tells.{IsAsked};

use crate::put::put_spaced;
use crate::seen::{FrameSeen, FrameState, Parts};
use page_numbers::Parcel;
use ring_core::{Answer, Core};
use script_replay::Asked;
use text_values::put_payload;
use trace_model::NoMemory;

/// A fill that is begun.
fn put_begun(out: &mut Vec<u8>, old: &Parts, ring: &Core, now: &Parts) -> Result<(), NoMemory>
    ensures { OnOk result ((n size start : ℕ) (before after : model.Core)
        → ArePartsOf old.now before
        → IsCore n size start ring.now after
        → ArePartsOf now.now after
        → out.new.items ≡ out.old.items ++ begun_text before after) }
{
    let fill = old.counts.opened;
    if fill == now.counts.opened {
        return Ok(());
    }
    let positions = ring.links().len() as u64;
    let page = ring.order()[(fill % positions) as usize];
    out.extend_from_slice(b"  fill")?;
    put_spaced(out, fill)?;
    put_spaced(out, u64::from(page))?;
    put_spaced(out, old.records)?;
    out.push(b'\n')?;
    Ok(())
}

/// The head that is passed: it is taken, or lost.
fn put_passed(out: &mut Vec<u8>, old: &Parts, answer: &Answer, now: &Parts) -> Result<(), NoMemory>
    ensures { OnOk result ((size : ℕ) (before after : model.Core) (reported : steps.Answer)
        → ArePartsOf old.now before
        → ArePartsOf now.now after
        → IsAnswerOf size answer.now reported
        → out.new.items ≡ out.old.items ++ passed_text before reported after) }
{
    if let Answer::Taken(page, missed) = answer {
        out.extend_from_slice(b"  taken")?;
        put_spaced(out, page.fill().0)?;
        put_spaced(out, page.first().0)?;
        put_spaced(out, page.count() as u64)?;
        put_spaced(out, *missed)?;
        out.push(b'\n')?;
    } else if old.counts.head != now.counts.head {
        out.extend_from_slice(b"  lost")?;
        put_spaced(out, old.counts.head)?;
        out.extend_from_slice(b" -\n")?;
    }
    Ok(())
}

/// A record that is reserved.
fn put_reserved(out: &mut Vec<u8>, old: &Parts, now: &Parts) -> Result<(), NoMemory>
    ensures { OnOk result ((before after : model.Core)
        → ArePartsOf old.now before
        → ArePartsOf now.now after
        → out.new.items ≡ out.old.items ++ reserved_text before after) }
{
    if old.records == now.records {
        return Ok(());
    }
    out.extend_from_slice(b"  record")?;
    put_spaced(out, old.records)?;
    put_spaced(out, now.counts.opened.saturating_sub(1))?;
    put_spaced(out, now.last_moment)?;
    out.push(b'\n')?;
    Ok(())
}

/// A payload with the zeros that fill its slot.
fn put_padded(out: &mut Vec<u8>, payload: &[u8]) -> Result<(), NoMemory>
    ensures { OnOk result (out.new.items ≡ out.old.items ++ hex_text (padded payload.now)) }
{
    if payload.is_empty() {
        out.extend_from_slice(b"00000000")?;
        return Ok(());
    }
    put_payload(out, payload)?;
    match payload.len() % 4 {
        0 => {}
        1 => out.extend_from_slice(b"000000")?,
        2 => out.extend_from_slice(b"0000")?,
        _ => out.extend_from_slice(b"00")?,
    }
    Ok(())
}

/// The bytes of the record of a frame that ends.
fn put_ended(out: &mut Vec<u8>, asked: Asked, old: &Parts) -> Result<(), NoMemory>
    ensures { OnOk result ((before : model.Core) (event : steps.Event)
        → ArePartsOf old.now before
        → IsAsked asked.entry before event
        → out.new.items ≡ out.old.items ++ ended_text before event) }
{
    let (
        Asked::Top(payload),
        Some(
            FrameSeen {
                state: FrameState::Reserved(number),
                ..
            },
        ),
    ) = (asked, old.top)
    else {
        return Ok(());
    };
    out.extend_from_slice(b"  payload")?;
    put_spaced(out, number)?;
    out.push(b' ')?;
    put_padded(out, payload)?;
    out.push(b'\n')?;
    Ok(())
}

/// What became of fills and records at a step.
pub(crate) fn put_fates(
    out: &mut Vec<u8>,
    asked: Asked,
    answer: &Answer,
    old: &Parts,
    ring: &Core,
    now: &Parts,
) -> Result<(), NoMemory>
    ensures { OnOk result ((n size start : ℕ) (before after : model.Core) (event : steps.Event)
        (reported : steps.Answer)
        → ArePartsOf old.now before
        → IsAsked asked.entry before event
        → IsAnswerOf size answer.now reported
        → IsCore n size start ring.now after
        → ArePartsOf now.now after
        → out.new.items ≡ out.old.items ++ (begun_text before after ++ passed_text before reported after
        ++ reserved_text before after ++ ended_text before event)) }
{
    put_begun(out, old, ring, now)?;
    put_passed(out, old, answer, now)?;
    put_reserved(out, old, now)?;
    put_ended(out, asked, old)?;
    Ok(())
}

/// Numbers of a CPU that a collector has or misses from now on, if there are some.
fn put_numbers(
    out: &mut Vec<u8>,
    key: &[u8],
    cpu: u64,
    first: u64,
    count: u64,
) -> Result<(), NoMemory>
    ensures none { OnOk result (count ≡ 0 → out.new.items ≡ out.old.items) }
    ensures some { OnOk result (0 < count → out.new.items ≡ out.old.items
        ++ (key.now ++ spaced cpu ++ spaced first ++ spaced count ++ 10 ∷ [])) }
{
    if count == 0 {
        return Ok(());
    }
    out.extend_from_slice(key)?;
    put_spaced(out, cpu)?;
    put_spaced(out, first)?;
    put_spaced(out, count)?;
    out.push(b'\n')?;
    Ok(())
}

/// What a page brings to a collector that hasn't all of it.
pub(crate) fn put_gains(out: &mut Vec<u8>, parcel: &Parcel) -> Result<(), NoMemory>
    ensures { OnOk result (out.new.items
        ≡ out.old.items ++ flat_map gain_text (gains_of (as_parcel parcel.now))) }
{
    let cpu = u64::from(parcel.cpu().0);
    let first = parcel.first().0;
    let missed = parcel.missed();
    put_numbers(out, b"  has", cpu, first, parcel.count())?;
    put_numbers(out, b"  missing", cpu, first.saturating_sub(missed), missed)
}
