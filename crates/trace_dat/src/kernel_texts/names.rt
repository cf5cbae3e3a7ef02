//! Which event has a number, by the formats of events.
ghost use Rattle.std.specs.Prelude.{◌≡◌, ℕ, ◌++◌, List, [], map, IfOk, OnOk, OnErr};
ghost use Rattle.std.specs.Option.{option_map};
ghost use Rattle.trace_dat.specs.Contents.{EventFormat, format_seen};
ghost use Rattle.trace_dat.specs.kernel_texts.Names.{event_seen, id_in, described_in, event_under, first_of};

use crate::Format;
use crate::kernel_texts::lines::{number_of, value_of};
use std::alloc::{AllocError, Global};
use std::collections::BTreeMap;
use trace_model::NoMemory;

/// An event: its system and its own name, as `sched` and `sched_switch`, and its format.
#[derive(Clone, Copy, Debug)]
pub struct EventName<'a> {
    /// The name of the system.
    pub system: &'a [u8],
    /// The name of the event.
    pub name: &'a [u8],
    /// The text of its format.
    pub format: &'a [u8],
}

/// The number of the event that a format describes.
#[tactic(auto, unfolding(crate::specs::kernel_texts::Names::id_in))]
fn id_of(text: &[u8]) -> Option<u16>
    ensures { result ≡ id_in text.now }
{
    let digits = value_of(text, b"ID: ")?;
    let id = number_of(digits)?;
    u16::try_from(id).ok()
}

/// The event that a format describes, and its number.
#[tactic(auto, unfolding(crate::specs::kernel_texts::Names::described_in))]
fn event_in<'a>(format: Format<'a>) -> Option<(u16, EventName<'a>)>
    ensures { option_map (λ found. (found.0, event_seen found.1)) result ≡ described_in (format_seen format.entry) }
{
    let id = id_of(format.text)?;
    let name = value_of(format.text, b"name: ")?;
    Some((
        id,
        EventName {
            system: format.system,
            name,
            format: format.text,
        },
    ))
}

/// An event whose texts are its own.
#[derive(Debug, Drop)]
struct OwnedEvent {
    system: Vec<u8>,
    name: Vec<u8>,
    format: Vec<u8>,
}

impl OwnedEvent {
    ghost use Rattle.trace_dat.specs.kernel_texts.Names.{event_seen, event_held};

    /// A copy of an event.
    fn of(alloc: Global, event: EventName<'_>) -> Result<OwnedEvent, AllocError>
        ensures { IfOk result (λ owned. event_held owned ≡ event_seen event.entry) }
    {
        Ok(OwnedEvent {
            system: event.system.to_vec(alloc)?,
            name: event.name.to_vec(alloc)?,
            format: event.format.to_vec(alloc)?,
        })
    }

    fn lent(&self) -> EventName<'_>
        ensures { event_seen result ≡ event_held self.now }
    {
        EventName {
            system: self.system.as_slice(),
            name: self.name.as_slice(),
            format: self.format.as_slice(),
        }
    }
}

/// The events that formats describe, by their numbers. Of several formats of one number the last counts.
#[derive(Debug, Drop)]
pub struct EventNames {
    alloc: Global,
    events: BTreeMap<u16, OwnedEvent>,
}

impl EventNames {
    ghost use Rattle.std.specs.Prelude.{Some, None, IfSome, IfNone, ◌≤◌, ◌<◌, ◌^◌};
    ghost use Rattle.trace_dat.specs.kernel_texts.Names.{event_seen, events_of, HasEvents, HasEventsOfSome};

    /// No event.
    pub fn new(alloc: Global) -> EventNames
        ensures { HasEvents result [] }
    {
        EventNames {
            alloc,
            events: BTreeMap::new(alloc),
        }
    }

    /// Adds the events that formats describe. On an error those of the first formats are added, of none up to all but
    /// one.
    pub fn add(&mut self, formats: &[Format<'_>]) -> Result<(), NoMemory>
        ensures added { (known : List EventFormat) → HasEvents self.old known
            → OnOk result (HasEvents self.new (known ++ map format_seen formats.now)) }
        ensures refused { (known : List EventFormat) → HasEvents self.old known
            → OnErr result (HasEventsOfSome self.new known (map format_seen formats.now)) }
    {
        for format in formats {
            self.add_one(format)?;
        }
        Ok(())
    }

    /// Adds the event that a format describes, if it describes one, in place of one of its number.
    fn add_one(&mut self, format: &Format<'_>) -> Result<(), AllocError>
        ensures added { OnOk result ((id : ℕ) → events_of self.new id
            ≡ first_of (event_under id (described_in (format_seen format.now))) (events_of self.old id)) }
        ensures refused { OnErr result ((id : ℕ) → events_of self.new id ≡ events_of self.old id) }
    {
        let Some((id, name)) = event_in(*format) else {
            return Ok(());
        };
        let event = OwnedEvent::of(self.alloc, name)?;
        self.events.insert(id, event)?;
        Ok(())
    }

    /// The event of this number, if there is one.
    pub fn event(&self, id: u16) -> Option<EventName<'_>>
        ensures { option_map event_seen result ≡ events_of self.now id }
    {
        self.events.get(&id).map(OwnedEvent::lent)
    }

    /// The event of the least number that isn't below this one, with its number; None if there is none. A number of
    /// 65,536 or more is above those of all events: so what follows the event `id` is found from `id + 1` on, whatever
    /// `id` is.
    pub fn next_event(&self, from: u32) -> Option<(u16, EventName<'_>)>
        ensures there { IfSome result (λ next. events_of self.now next.0 ≡ Some (event_seen next.1)) }
        ensures above { IfSome result (λ next. from ≤ next.0) }
        ensures least { IfSome result (λ next. (id : ℕ) → from ≤ id → id < next.0 → events_of self.now id ≡ None) }
        ensures none { IfNone result ((id : ℕ) → from ≤ id → id < 2 ^ 16 → events_of self.now id ≡ None) }
    {
        let from = u16::try_from(from).ok()?;
        let (id, event) = self.events.range(from..).next()?;
        Some((*id, event.lent()))
    }
}
