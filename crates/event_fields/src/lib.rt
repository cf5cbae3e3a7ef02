//! Fields of events: which fields a format has, where the bytes of a field are in a record's payload, and which value
//! they are.
#![tactic(auto)]

mod cutting;
mod declaration;
mod events;
mod field;
mod fields;
pub mod laws;
mod line;
mod list;
mod malformed;
mod numbers;
pub mod texts;
mod types;
mod value;

pub use events::{EventFields, FieldList};
pub use field::{Field, Kind, Layout, NumberKind, NumberSize, Place};
pub use list::Numbers;
pub use malformed::{MalformedEvent, malformed_events};
pub use numbers::FieldNumber;
pub use texts::before_zero;
pub use types::type_size;
pub use value::{Value, value_of};
