//! A new writer.
use crate::writer::Writer;
use ring_frames::Frames;
use ring_steps::WriterSeat;
use std::alloc::Global;
use std::collections::VecDeque;
use trace_model::NoMemory;

impl Writer {
    ghost use Rattle.std.specs.Prelude.{◌≡◌, IfOk};
    ghost use Rattle.ring_steps.specs.Ends.{writing_in, writer_table};
    ghost use Rattle.ring_steps.specs.NewRings.{IsShape, first_writing};
    ghost use Rattle.ring_shared.specs.Calls.{IsWriter};

    /// The writer of a new ring, at this seat. All room is made here: no other call takes memory.
    pub(crate) fn new(alloc: Global, seat: WriterSeat) -> Result<Writer, NoMemory>
        requires shape { IsShape seat.shape }
        requires first { writing_in seat ≡ first_writing seat.shape }
        ensures shape { IfOk result (λ writer. writer.shape ≡ seat.shape) }
        ensures table { IfOk result (λ writer. writer.table ≡ writer_table seat) }
        ensures part { IfOk result (λ writer. writer.part ≡ first_writing seat.shape) }
        ensures writer { IfOk result IsWriter }
    {
        let shape = seat.shape;
        let frames = Frames::new_at(alloc, shape.pages, shape.size, shape.start)?;
        let mut pages = VecDeque::with_capacity(alloc, shape.pages)?;
        let tail = shape.start % shape.pages as u64;
        pages.push_back_reserved(tail as u16);
        Ok(Writer {
            seat,
            frames,
            pages,
        })
    }
}
