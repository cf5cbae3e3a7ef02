//! Names that the kernel's texts give: of processes, by their numbers, of functions, by addresses in the kernel, and of
//! the numbers of events' fields, by the print formats of these.
#![tactic(auto)]

mod calls;
mod constants;
mod digits;
mod entries;
mod event_tables;
mod pieces;
mod symbol_names;
mod symbols;
mod tables;
mod tasks;

pub use calls::TableKind;
pub use entries::TableEntry;
pub use event_tables::EventTables;
pub use symbol_names::{KnownSymbol, SymbolNames};
pub use tables::{FieldTable, NumberNames};
pub use tasks::TaskNames;
