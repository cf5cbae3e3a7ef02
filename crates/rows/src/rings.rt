//! Rows of rings: a row begins with `[NAME] pages N size S`, and maybe `start F`. Each request is carried out on a ring
//! as a value (`ring_core`) and on the two ends of a running ring (`ring_shared`). If both answer the same, that is
//! written after it; else both answers are.
mod ends;
mod reply;
mod request;
mod ring;
mod row;
mod value;

pub use row::RingRow;
