//! Record words: how a record is spelled in the data of a page, and how words are read back.
//!
//! The format is that of `include/linux/ring_buffer.h` on 64-bit little-endian kernels, specified in
//! `docs/formats/pages.md`, "Record words".
#![tactic(auto)]

mod copy;
mod format;
pub mod laws;
mod next;
mod put;
mod size;

pub use format::{EXTEND_FROM, MAX_PAYLOAD, SHORT_LIMIT};
pub use next::{Word, WordFault, next_word};
pub use put::{Place, put_extend, put_payload, put_record, put_short};
pub use size::{size_of, slot_len};
