//! The lanes of a script's CPUs, each at its CPU's index, from when a line first asks anything of its ring: so a
//! header alone takes no memory.
ghost use Rattle.std.specs.Prelude.{◌≡◌, ℕ, ◌<◌, length, OnOk, IfOk};
ghost use Rattle.script_replay.specs.Lanes.{IsNewLaneOf};
ghost use Rattle.script_replay.specs.LanesByCpu.{lane_at, AreSameBut, IsMadeFrom};

use crate::lane::Lane;
use std::alloc::Global;
use trace_model::{CpuId, NoMemory};
use trace_script::Script;

/// Makes the list long enough for this CPU.
#[inline(always)]
fn grow<'a>(lanes: &mut Vec<Option<Box<Lane<'a>>>>, cpu: usize) -> Result<(), NoMemory>
    ensures room { OnOk result (cpu < length lanes.new.items) }
    ensures same { OnOk result ((other : ℕ) → lane_at lanes.new.items other ≡ lane_at lanes.old.items other) }
{
    while lanes.len() <= cpu {
        lanes.push(None)?;
    }
    Ok(())
}

/// A new lane, whose ring is as the script says.
#[inline(never)]
fn new_lane<'a>(alloc: Global, script: &Script) -> Result<Box<Lane<'a>>, NoMemory>
    ensures { IfOk result (λ lane. IsNewLaneOf script.now.pages script.now.size script.now.start lane.value) }
{
    let lane = Lane::new(alloc, script.pages(), script.size(), script.start().0)?;
    Ok(Box::new(alloc, lane)?)
}

/// Makes the lane of this CPU, if there is none yet.
#[inline(always)]
pub(crate) fn make_lane<'a>(
    alloc: Global,
    script: &Script,
    lanes: &mut Vec<Option<Box<Lane<'a>>>>,
    cpu: CpuId,
) -> Result<(), NoMemory>
    ensures lane { OnOk result (IsMadeFrom script.now (lane_at lanes.old.items cpu.0)
        (lane_at lanes.new.items cpu.0)) }
    ensures room { OnOk result (cpu.0 < length lanes.new.items) }
    ensures rest { OnOk result (AreSameBut cpu.0 lanes.new.items lanes.old.items) }
{
    let at = cpu.0 as usize;
    grow(lanes, at)?;
    if lanes[at].is_none() {
        lanes[at] = Some(new_lane(alloc, script)?);
    }
    Ok(())
}
