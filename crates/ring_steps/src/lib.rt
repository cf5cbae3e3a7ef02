//! The steps of a running ring, each on one word that two threads share.
//!
//! The words and the page slots of a ring lie in one table with two seats, the writer's and the reader's. Its rule says
//! that they show a state of the ring's model with what the two ends know (`docs/MODEL.md`, "The running ring"); each
//! call of a seat, but for the notes, is one step of that model. What the writer does in private between its steps is
//! noted for proofs alone.
#![tactic(auto)]

mod ends;
mod ghost_part;
mod laying;
mod links;
mod making;
mod noting;
mod plays;
mod reader;
mod receipts;
mod rule;
mod settling;
mod swapping;
mod views;
mod words;
mod writer;

pub use ends::{ReaderSeat, ReceiptSeat, WriterSeat};
pub use making::{seats, seats_at};
pub use noting::ChosenPart;
pub use rule::Shape;
pub use settling::{SettledSeats, settle};
pub use views::View;
