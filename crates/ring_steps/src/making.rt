//! The two seats of a new ring.
ghost use Rattle.std.specs.Prelude.{◌≡◌, [], ◌+◌, ◌<◌, IfOk};
ghost use Rattle.trace_model.specs.declared.limits.TheConstants.{LINK_FILLS, START_FILL};
ghost use Rattle.trace_model.specs.Ring.{HasRingLimits};
ghost use Rattle.ring_steps.specs.Seats.{IsTableOf};
ghost use Rattle.ring_steps.specs.NewRings.{IsShape, AreNewSeats, IsWholeSeat, first_writing, first_reading};
ghost use Rattle.ring_steps.specs.Views.{laid};

use crate::ends::{ReaderSeat, WriterSeat};
use crate::ghost_part::ghost_part_known;
use crate::laying::{first_slots, first_words};
use crate::plays::{TableSeat, load};
use crate::rule::{Board, Shape};
use crate::views::View;
use crate::words::Word;
use atomic_table::{Split, Table};
use std::alloc::Global;
use std::marker::Brand;
use std::sync::Arc;
use trace_model::{NoMemory, START_FILL};

/// The first seat is cut into the writer's and the reader's.
struct Ends;

impl Split<View> for Ends {
    ghost use Rattle.ring_steps.specs.Views.{writes, reads, writing, passed, reading};

    ghost left = { λ view. writes (writing view) (passed view) };

    ghost right = { λ view. reads (reading view) };
}

/// The table of a new ring, and its first seat.
fn table(alloc: Global, shape: Shape) -> Result<(Board, TableSeat), NoMemory>
    requires { IsShape shape }
    ensures key { IfOk result (λ made. made.0.shared.key ≡ shape) }
    ensures table { IfOk result (λ made. IsTableOf shape made.0.shared.table_id) }
    ensures seated { IfOk result (λ made. made.1.table_id ≡ made.0.shared.table_id) }
    ensures seat { IfOk result (λ made. made.1.me ≡ (laid (first_writing shape) (first_reading shape), [])) }
{
    let words = first_words(alloc, shape)?;
    let slots = first_slots(alloc, shape)?;
    match Table::new(alloc, words.as_slice(), slots, &shape) {
        Ok(made) => Ok(made),
        Err(_refused) => Err(NoMemory),
    }
}

/// A load of a word, with which the first seat takes the slot of the first fill's page. It is empty: that page is the
/// writer's tail, which its frames are made with.
fn take_tail(board: &Board, shape: Shape, seat: &mut TableSeat)
    requires key { board.now.shared.key ≡ shape }
    requires table { IsTableOf shape board.now.shared.table_id }
    requires seated { seat.old.table_id ≡ board.now.shared.table_id }
    requires shape { IsShape shape }
    requires seat { seat.old.me ≡ (laid (first_writing shape) (first_reading shape), []) }
    ensures seated { seat.new.table_id ≡ seat.old.table_id }
    ensures seat { IsWholeSeat shape seat.new.me }
{
    load::<Brand, _>(board, shape, seat, Word::Opened, &());
}

/// The seats of a new ring of `pages` pages and a spare, of `size` bytes of data each, whose first fill has the number
/// `start`. All room is made here: no other call takes memory.
pub fn seats_at(
    alloc: Global,
    pages: usize,
    size: usize,
    start: u64,
) -> Result<(WriterSeat, ReaderSeat), NoMemory>
    requires limits { HasRingLimits pages size }
    requires start { start + pages < LINK_FILLS }
    ensures { IfOk result (λ seats. AreNewSeats (record { pages = pages; size = size; start = start }) seats) }
{
    let shape = Shape { pages, size, start };
    let (table, mut seat) = table(alloc, shape)?;
    take_tail(&table, shape, &mut seat);
    let board = Arc::new(alloc, table)?;
    let other = Arc::try_clone(&board)?;
    let reader = board.shared.split_seat::<Ends>(&mut seat);
    let ghost_part = ghost_part_known(&seat);
    Ok((
        WriterSeat {
            board,
            seat,
            ghost_part,
            shape,
        },
        ReaderSeat {
            board: other,
            seat: reader,
            shape,
        },
    ))
}

/// The seats of a new ring whose first fill has the number `START_FILL`.
pub fn seats(alloc: Global, pages: usize, size: usize) -> Result<(WriterSeat, ReaderSeat), NoMemory>
    requires limits { HasRingLimits pages size }
    ensures { IfOk result (λ seats. AreNewSeats (record { pages = pages; size = size; start = START_FILL }) seats) }
{
    seats_at(alloc, pages, size, START_FILL)
}
