//! Steps on a word, each with what its caller needs to know after it.
ghost use Rattle.std.specs.Prelude.{◌≡◌, ℕ, ◌<◌, ◌==◌};
ghost use prog.Atomic.{either};
ghost use Rattle.atomic_table.specs.Table.{Allows};
ghost use Rattle.ring_steps.specs.Seats.{SitsAt};
ghost use Rattle.ring_steps.specs.Shown.{Shows};
ghost use Rattle.ring_steps.specs.Words.{place_of};

use crate::rule::{Board, Shape};
use crate::views::View;
use crate::words::Word;
use atomic_table::{Play, Seat};
use page_image::Page;
use std::marker::{Brand, PhantomData};

/// A seat at a ring's table.
pub(crate) type TableSeat = Seat<Option<Page>, View>;

/// What a step shows: of its seat before, of what it found (or stored), and of its seat after.
pub(crate) trait StepReport {
    ghost use Rattle.std.specs.Prelude.{ℕ};
    ghost use Rattle.ring_steps.specs.Seats.{SeatState};

    ghost reports: { SeatState → ℕ → SeatState → Type 0 };
}

impl StepReport for Brand {
    ghost reports = { λ _ _ _. Unit {0} };
}

/// A step that shows this.
struct Reporting<J> {
    of: PhantomData<J>,
}

impl<J: StepReport> Play<Option<Page>, View> for Reporting<J> {
    ghost then = { λ _ before found after. J.reports before found after };
}

/// Loads a word. `given` is what the caller states to the proof; no code reads it.
#[inline(always)]
pub(crate) fn load<J: StepReport, G>(
    board: &Board,
    shape: Shape,
    seat: &mut TableSeat,
    word: Word,
    given: &G,
) -> u64
    requires at { SitsAt shape board.now.shared.key board.now.shared.table_id seat.old.table_id }
    requires word { place_of word < board.now.shared.table_id.words }
    requires allowed { Allows (Shows shape.pages shape.size shape.start)
        board.now.shared.table_id.slots seat.old.id seat.old.me (place_of word) (λ n. n) (J.reports seat.old.me) }
    ensures seated { (seat.new.table_id ≡ seat.old.table_id) × (seat.new.id ≡ seat.old.id) }
    ensures reported { J.reports seat.old.me result seat.new.me }
{
    let _shape = shape;
    let _given = given;
    board.shared.load::<Reporting<J>>(seat, word.place())
}

/// Stores a word. `given` is as for `load`.
#[inline(always)]
pub(crate) fn store<J: StepReport, G>(
    board: &Board,
    shape: Shape,
    seat: &mut TableSeat,
    word: Word,
    new: u64,
    given: &G,
)
    requires at { SitsAt shape board.now.shared.key board.now.shared.table_id seat.old.table_id }
    requires word { place_of word < board.now.shared.table_id.words }
    requires allowed { Allows (Shows shape.pages shape.size shape.start)
        board.now.shared.table_id.slots seat.old.id seat.old.me (place_of word) (λ _. new)
        (λ _. J.reports seat.old.me new) }
    ensures seated { (seat.new.table_id ≡ seat.old.table_id) × (seat.new.id ≡ seat.old.id) }
    ensures reported { J.reports seat.old.me new seat.new.me }
{
    let _shape = shape;
    let _given = given;
    board.shared.store::<Reporting<J>>(seat, word.place(), new);
}

/// Makes a word `to` if it is `from`, and answers what it was.
#[inline(always)]
pub(crate) fn compare_exchange<J: StepReport>(
    board: &Board,
    shape: Shape,
    seat: &mut TableSeat,
    word: Word,
    from: u64,
    to: u64,
) -> u64
    requires at { SitsAt shape board.now.shared.key board.now.shared.table_id seat.old.table_id }
    requires word { place_of word < board.now.shared.table_id.words }
    requires allowed { Allows (Shows shape.pages shape.size shape.start)
        board.now.shared.table_id.slots seat.old.id seat.old.me (place_of word) (λ n. either (n == from) to n)
        (J.reports seat.old.me) }
    ensures seated { (seat.new.table_id ≡ seat.old.table_id) × (seat.new.id ≡ seat.old.id) }
    ensures reported { J.reports seat.old.me result seat.new.me }
{
    let _shape = shape;
    board
        .shared
        .compare_exchange::<Reporting<J>>(seat, word.place(), from, to)
}
