//! What a line says of its record's event.

use event_fields::EventFields;
use kernel_names::{EventTables, SymbolNames, TaskNames};
use trace_dat::kernel_texts::EventNames;

/// What names the numbers of a record.
#[derive(Clone, Copy, Debug)]
pub struct Beside<'a> {
    /// The names of processes, behind their numbers; none, if it is None.
    pub tasks: Option<&'a TaskNames>,
    /// The tables of fields, whose names stand behind numbers; none, if it is None. They are those of the events whose
    /// names are printed.
    pub tables: Option<&'a EventTables>,
    /// The functions by their addresses, which stand behind the fields `ip`, `parent_ip` and `func` of events of the
    /// system `ftrace`; none, if it is None.
    pub symbols: Option<&'a SymbolNames>,
}

/// What a line says of its record besides the numbers.
#[derive(Clone, Copy, Debug)]
pub enum Naming<'a> {
    /// The payload alone, in hexadecimal.
    Payload,
    /// The process, with its name if names of processes are given, and the event, by these names, and the payload.
    Names(&'a EventNames, Option<&'a TaskNames>),
    /// The process and the event, by these names, and the fields of the event, with names beside numbers. The payload
    /// follows if a field has no value in it, or no fields of the event are known.
    Fields(&'a EventNames, &'a EventFields, Beside<'a>),
}
