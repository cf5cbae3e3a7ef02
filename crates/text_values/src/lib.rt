//! Numbers and payloads as text, for what is printed; and text that is put piece by piece, and reaches a writer through
//! a buffer of fixed size.
#![tactic(auto)]

mod buffer;
mod finishing;
mod output;
mod values;

pub use buffer::TextBuffer;
pub use finishing::{finish, finish_memory};
pub use output::Out;
pub use values::{drop_if_refused, put_number, put_payload};
