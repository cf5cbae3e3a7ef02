//! Events whose formats are malformed.
ghost use Rattle.std.specs.Prelude.{◌≡◌, ◌++◌, map, IfOk, OnOk};
ghost use Rattle.std.specs.Option.{option_map};
ghost use Rattle.trace_dat.specs.kernel_texts.Names.{event_seen, events_of};
ghost use Rattle.event_fields.specs.Events.{list_seen, HasFields};
ghost use Rattle.event_fields.specs.Malformed.{malformed_at, malformed_seen, malformed_in, malformed_events};

use crate::events::{EventFields, FieldList};
use std::alloc::{AllocError, Global};
use trace_dat::kernel_texts::{EventName, EventNames};
use trace_model::NoMemory;

/// An event whose format is malformed.
#[derive(Debug, Drop)]
pub struct MalformedEvent {
    /// The name of its system.
    pub system: Vec<u8>,
    /// Its own name.
    pub name: Vec<u8>,
    /// Where the format is malformed: the offset of its first line that is to describe a field and doesn't, in bytes.
    pub at: usize,
}

impl MalformedEvent {
    /// This event, whose format is malformed at this offset.
    fn of(alloc: Global, event: EventName<'_>, at: usize) -> Result<MalformedEvent, AllocError>
        ensures { IfOk result (λ malformed. malformed_seen malformed ≡ malformed_at (event_seen event.entry) at) }
    {
        Ok(MalformedEvent {
            system: event.system.to_vec(alloc)?,
            name: event.name.to_vec(alloc)?,
            at,
        })
    }
}

/// Puts an event, if its format is malformed by what is known of its fields.
fn put_malformed(
    alloc: Global,
    events: &mut Vec<MalformedEvent>,
    event: EventName<'_>,
    list: Option<&FieldList>,
) -> Result<(), NoMemory>
    ensures { OnOk result (map malformed_seen events.new.items ≡ map malformed_seen events.old.items
        ++ malformed_in (event_seen event.entry) (option_map (λ list. list_seen list.now) list.entry)) }
{
    if let Some(FieldList::Malformed(at)) = list {
        events.push(MalformedEvent::of(alloc, event, *at)?)?;
    }
    Ok(())
}

/// The events of these names whose formats are malformed, by the numbers of the events.
pub fn malformed_events(
    alloc: Global,
    names: &EventNames,
    fields: &EventFields,
) -> Result<Vec<MalformedEvent>, NoMemory>
    requires { HasFields fields.now (events_of names.now) }
    ensures { IfOk result (λ events. map malformed_seen events.items ≡ malformed_events (events_of names.now)) }
{
    let mut events = Vec::new(alloc);
    let mut from = 0;
    while let Some((id, event)) = names.next_event(from) {
        put_malformed(alloc, &mut events, event, fields.of_event(id))?;
        from = u32::from(id) + 1;
    }
    Ok(events)
}
