//! The fields of events, by the numbers of these.
ghost use Rattle.std.specs.Prelude.{◌≡◌, IfOk};
ghost use Rattle.event_fields.specs.Events.{list_seen};
ghost use Rattle.event_fields.specs.Fields.{fields_of};

use crate::field::Field;
use crate::fields::{FormatError, read_fields};
use std::alloc::Global;
use std::collections::BTreeMap;
use trace_dat::kernel_texts::{EventName, EventNames};
use trace_model::NoMemory;

/// What the format of an event says of its fields.
#[derive(Debug, Drop)]
pub enum FieldList {
    /// They are these, in their order.
    Known(Vec<Field>),
    /// The format is malformed: at this offset, in bytes, a line begins that is to describe a field and describes none,
    /// or one of the name of another, or one too many.
    Malformed(usize),
}

/// What a format says of the fields of its event.
fn field_list(alloc: Global, format: &[u8]) -> Result<FieldList, NoMemory>
    ensures { IfOk result (λ list. list_seen list ≡ fields_of format.now) }
{
    match read_fields(alloc, format) {
        Ok(fields) => Ok(FieldList::Known(fields)),
        Err(FormatError::Malformed { at }) => Ok(FieldList::Malformed(at)),
        Err(FormatError::NoMemory) => Err(NoMemory),
    }
}

/// What the formats of events say of their fields, by the numbers of the events.
#[derive(Debug, Drop)]
pub struct EventFields {
    alloc: Global,
    lists: BTreeMap<u16, FieldList>,
}

impl EventFields {
    ghost use Rattle.std.specs.Prelude.{◌≡◌, ◌==◌, ℕ, Some, OnOk, if◌then◌else◌};
    ghost use Rattle.std.specs.Option.{option_map};
    ghost use Rattle.trace_dat.specs.kernel_texts.Names.{events_of};
    ghost use Rattle.event_fields.specs.Events.{known_by, HasFields};

    /// What the formats of all events that have a name say.
    pub fn new(alloc: Global, names: &EventNames) -> Result<EventFields, NoMemory>
        ensures { IfOk result (λ fields. HasFields fields (events_of names.now)) }
    {
        let mut fields = EventFields {
            alloc,
            lists: BTreeMap::new(alloc),
        };
        let mut from = 0;
        while let Some((id, event)) = names.next_event(from) {
            fields.put(id, event)?;
            from = u32::from(id) + 1;
        }
        Ok(fields)
    }

    /// Puts what the format of the event of this number says.
    fn put(&mut self, id: u16, event: EventName<'_>) -> Result<(), NoMemory>
        ensures { OnOk result ((n : ℕ) → known_by self.new n
            ≡ (if id == n then Some (fields_of event.entry.format.now) else known_by self.old n)) }
    {
        let list = field_list(self.alloc, event.format)?;
        self.lists.insert(id, list)?;
        Ok(())
    }

    /// What the format of this event says of its fields; None if no event has this number.
    pub fn of_event(&self, id: u16) -> Option<&FieldList>
        ensures { option_map (λ list. list_seen list.now) result ≡ known_by self.now id }
    {
        self.lists.get(&id)
    }
}
