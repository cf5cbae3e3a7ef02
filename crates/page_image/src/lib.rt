//! Pages of a trace ring: a header and the data that holds the records.
//!
//! The layout is that of the kernel's `struct buffer_data_page`, specified in `docs/formats/pages.md`, "Page image".
//!
//! Code without loops names no fact of a page: `Page::fresh` gives what `Page::put` asks for, and `put` and a payload
//! that is written give it again. A loop names what it keeps: that the page reads, the moment of its last record, and
//! that its data ends in a record. So of a function that puts a record, and of a loop of such calls, as in
//! `library_tests/src/pages.rt` (`add`, which asserts that the record may be put, where a program would refuse it; its
//! answers are in `proofs/pages/add` there):
//!
//! ```text
//! fn add(rt: &impl Abort, page: &mut Page, prev: u64, given: Given)
//!     requires page { IsPage page.old }
//!     requires last { IfSome (moment_of_last (records_of_page page.old)) (λ last. last ≡ prev) }
//!     requires open { EndsInRecord page.old.bytes }
//!     ensures page { IsPage page.new }
//!     ensures last { IfSome (moment_of_last (records_of_page page.new)) (λ last. last ≡ given.0) }
//!     ensures open { EndsInRecord page.new.bytes }
//!
//! let mut prev = 0;
//! for given in records {
//!     add(rt, &mut page, prev, *given);
//!     prev = given.0;
//! }
//! ```
//!
//! and in the function's `Invariants.antt`, after its `use` lines:
//!
//! ```text
//! abbrev pub invariant-loop-given : goal.invariant-loop-given
//! invariant-loop-given g l = record {
//!   page : IsPage l.page;
//!   last : IfSome (moment_of_last (records_of_page l.page)) (λ last. last ≡ l.prev);
//!   open_end : EndsInRecord l.page.bytes;
//! }
//! ```
#![tactic(auto)]

mod body;
mod count;
mod image;
pub mod laws;
mod page;
mod places;
mod put;
mod slot;
mod walk;

pub use body::Body;
pub use image::{
    Image, ImageFault, Missed, Outline, commit_number, number_at, read_image, read_outline,
    stores_count,
};
pub use page::Page;
pub use record_words::Place;
pub use slot::SLOT_HEADER;
pub use walk::{Passed, Reached, step_over_word};
