//! The text of a collection: the lines of its records, of its missing runs, of losses of unknown number, and of damaged
//! pages, as text or as JSON. It is put through a buffer of fixed size.
#![tactic(auto)]

mod beside;
mod fielded;
mod fields;
mod form;
pub mod laws;
mod lines;
mod losses;
mod names;
mod naming;
mod offsets;
mod printer;
mod quoting;
mod selection;
mod sums;
mod window;

pub use form::Form;
pub use naming::{Beside, Naming};
pub use printer::Printer;
pub use quoting::shown_byte;
pub use selection::Selection;
pub use sums::RingLosses;
pub use window::Window;
