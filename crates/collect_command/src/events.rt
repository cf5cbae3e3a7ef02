//! Which events a pattern names.
ghost use Rattle.std.specs.Prelude.{◌≡◌, IfOk};
ghost use Rattle.std.specs.Option.{option_map};
ghost use Rattle.trace_dat.specs.kernel_texts.Names.{event_seen, events_of};
ghost use Rattle.collect_command.specs.Patterns.{is_named, is_named_event, marks_of};

use crate::pattern::matches;
use event_fields::texts::cut_at;
use std::alloc::{AllocError, Global};
use trace_dat::kernel_texts::{EventName, EventNames};
use trace_model::NoMemory;

/// How many numbers events can have, from 0 on.
const EVENTS: u32 = 65536;

/// Whether a pattern names an event. What is before its first `:` is for the system, if it has one, and what is after
/// it for the event's own name.
fn is_named(alloc: Global, pattern: &[u8], event: EventName<'_>) -> Result<bool, AllocError>
    ensures { IfOk result (λ is. is ≡ is_named pattern.now (event_seen event.entry)) }
{
    match cut_at(pattern, b':') {
        Some((system, name)) => {
            let is_of_system = matches(alloc, system, event.system)?;
            Ok(is_of_system & matches(alloc, name, event.name)?)
        }
        None => matches(alloc, pattern, event.name),
    }
}

/// Whether a pattern names an event, if there is one.
fn is_named_event(
    alloc: Global,
    pattern: &[u8],
    event: Option<EventName<'_>>,
) -> Result<bool, AllocError>
    ensures { IfOk result (λ is. is ≡ is_named_event pattern.now (option_map event_seen event.entry)) }
{
    match event {
        Some(event) => is_named(alloc, pattern, event),
        None => Ok(false),
    }
}

/// Marks the events that a pattern names: each has the place that is its number.
pub(crate) fn mark_events(
    alloc: Global,
    names: &EventNames,
    pattern: &[u8],
) -> Result<Vec<bool>, NoMemory>
    ensures { IfOk result (λ marks. marks.items ≡ marks_of pattern.now (events_of names.now)) }
{
    let mut marks = Vec::new(alloc);
    for id in 0..EVENTS {
        let mark = is_named_event(alloc, pattern, names.event(id as u16))?;
        marks.push(mark)?;
    }
    Ok(marks)
}
