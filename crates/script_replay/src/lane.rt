//! The ring of a CPU, with what a script's lines need of it.
mod command;
mod frames;
mod pushes;
mod reader;

use page_image::Body;
use page_numbers::Parcel;
use ring_core::Core;
use std::alloc::Global;
use std::marker::Model;
use trace_model::{MAX_FRAMES, NoMemory};

/// The ring of a CPU. What a call leaves if memory is refused is not used.
#[derive(Drop)]
pub(crate) struct Lane<'a> {
    core: Core,
    /// The payload of each frame on the stack, the top one's last.
    payloads: Vec<&'a [u8]>,
    /// The body that the reader puts into the ring for the next page, if it is already made.
    body: Option<Body>,
    /// The pages that were taken, in order.
    taken: Vec<Parcel>,
}

impl<'a> Model for Lane<'a> {
    ghost use Rattle.script_replay.specs.Value.{LaneValue, lane_of};

    ghost Value = { LaneValue };

    ghost view = { lane_of };
}

impl<'a> Lane<'a> {
    ghost use Rattle.std.specs.Prelude.{◌≡◌, ◌+◌, ◌<◌, IfOk};
    ghost use Rattle.trace_model.specs.declared.limits.TheConstants.{LINK_FILLS};
    ghost use Rattle.trace_model.specs.Ring.{HasRingLimits};
    ghost use Rattle.script_replay.specs.Lanes.{IsNewLaneOf};

    /// A new ring of `pages` pages of `size` bytes, whose first fill has the number `start`.
    pub(crate) fn new(
        alloc: Global,
        pages: usize,
        size: usize,
        start: u64,
    ) -> Result<Lane<'a>, NoMemory>
        requires limits { HasRingLimits pages size }
        requires start { start + pages < LINK_FILLS }
        ensures { IfOk result (λ lane. IsNewLaneOf pages size start lane) }
    {
        Ok(Lane {
            core: Core::new_at(alloc, pages, size, start)?,
            payloads: Vec::with_capacity(alloc, MAX_FRAMES)?,
            body: None,
            taken: Vec::new(alloc),
        })
    }

    /// The pages that were taken, in order.
    pub(crate) fn taken(&self) -> &[Parcel]
        ensures { result.now ≡ self.now.taken }
    {
        self.taken.as_slice()
    }
}
