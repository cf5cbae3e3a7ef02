//! A new reader's end.
use crate::reader::Reader;
use ring_frames::{ReaderPhase, TakeState, first_order};
use ring_steps::ReaderSeat;
use std::alloc::Global;
use trace_model::NoMemory;

impl Reader {
    ghost use Rattle.std.specs.Prelude.{◌≡◌, IfOk};
    ghost use Rattle.ring_steps.specs.Ends.{reading_in};
    ghost use Rattle.ring_steps.specs.NewRings.{IsShape, first_reading};
    ghost use Rattle.ring_shared.specs.NewReader.{IsNewReader};

    /// The reader's end of a new ring, at this seat. All room is made here: no other call takes memory.
    pub(crate) fn new(alloc: Global, seat: ReaderSeat) -> Result<Reader, NoMemory>
        requires shape { IsShape seat.shape }
        requires again { reading_in seat ≡ first_reading seat.shape }
        ensures { IfOk result (λ reader. IsNewReader seat reader) }
    {
        let shape = seat.shape;
        let order = first_order(alloc, shape.pages)?;
        Ok(Reader {
            seat,
            order,
            spare: shape.pages as u16,
            at: TakeState {
                phase: ReaderPhase::LoadingHead,
                hint: shape.start,
                seen: shape.start,
                expected: 0,
            },
            empty_at: None,
        })
    }
}
