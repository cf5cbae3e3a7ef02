//! A whole reading, of which all events are there.
ghost use Rattle.std.specs.Prelude.{◌≡◌, List, ◌+◌, ◌<◌, ◌++◌, [], map, length, All, IfOk, OnOk};
ghost use Rattle.line_follower.specs.declared.lines.Said.{Said};
ghost use Rattle.line_follower.specs.Following.{Takes};
ghost use Rattle.line_follower.specs.Runs.{IsFollowed, events_of, given_in};
ghost use Rattle.line_follower.specs.Known.{Event as SeenEvent};
ghost use Rattle.line_follower.specs.Events.{cpu_of, event_seen};

use crate::follower::Follower;
use crate::lines::{Line, Said};
use std::alloc::Global;
use std::collections::VecDeque;
use trace_model::{CpuId, NoMemory};

/// What happens in a reading.
#[derive(Drop)]
pub enum Event<T> {
    /// A page of a CPU was read, with these lines.
    Page(CpuId, Vec<Line<T>>),
    /// Nothing came of a CPU for a round.
    Quiet(CpuId),
    /// A CPU ended.
    Ended(CpuId),
}

/// Has an event happen.
fn happen<T: Drop>(follower: &mut Follower<T>, event: Event<T>) -> Result<(), NoMemory>
    requires { cpu_of event < length follower.old.known.cpus }
    ensures taken { OnOk result (Takes follower.old (event_seen event) follower.new) }
    ensures count { length follower.new.known.cpus ≡ length follower.old.known.cpus }
{
    match event {
        Event::Page(cpu, mut lines) => follower.take_page(cpu, &mut lines)?,
        Event::Quiet(cpu) => follower.quiet(cpu),
        Event::Ended(cpu) => follower.end(cpu),
    }
    Ok(())
}

/// What is given in a reading of this many CPUs in which these events happen, one after the other: after each event
/// what is final then, and in the end what is left.
///
/// ```
/// events.push_back(Event::Page(CpuId(0), lines))?;
/// events.push_back(Event::Ended(CpuId(0)))?;
/// let given = follow(rt.alloc(), 2, events)?;
/// ```
pub fn follow<T: Drop>(
    alloc: Global,
    count: usize,
    mut events: VecDeque<Event<T>>,
) -> Result<Vec<Said<T>>, NoMemory>
    requires { All (λ event. cpu_of event < count) events.items }
    ensures { IfOk result (λ given. (steps : List (SeenEvent T × List (Said T))) × (rest : List (Said T))
        × (events_of steps ≡ map event_seen events.items) × (given.items ≡ given_in steps ++ rest)
        × IsFollowed count steps rest) }
{
    let mut follower = Follower::new(alloc, count)?;
    let mut given = Vec::new(alloc);
    while let Some(event) = events.pop_front() {
        happen(&mut follower, event)?;
        follower.take_final(&mut given)?;
    }
    follower.take_rest(&mut given)?;
    Ok(given)
}
