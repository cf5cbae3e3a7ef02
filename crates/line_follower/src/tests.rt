//! Readings of two CPUs, with what is given after each event.
ghost use Rattle.std.specs.Prelude.{◌≡◌, ◌<◌, length};

use crate::follower::Follower;
use crate::lines::{Line, Place, Said};
use crate::whole::{Event, follow};
use std::alloc::{AllocError, Global};
use std::collections::VecDeque;
use std::process::Abort;
use std::test::Fail;
use trace_model::{CpuId, Moment, NoMemory, RecordNo};

/// The two CPUs.
const FIRST: CpuId = CpuId(0);

const SECOND: CpuId = CpuId(1);

/// A page of two lines. The content of each is its number.
fn page(alloc: Global, cpu: CpuId, lines: [(u64, u64); 2]) -> Result<Vec<Line<u64>>, AllocError> {
    let mut page = Vec::with_capacity(alloc, 2)?;
    for (moment, number) in lines {
        page.push(Line {
            place: Place {
                moment: Moment(moment),
                cpu,
                number: RecordNo(number),
            },
            content: number,
        })?;
    }
    Ok(page)
}

/// Has the lines taken. If memory is refused, they are still there.
fn take(
    rt: &impl Abort,
    follower: &mut Follower<u64>,
    cpu: CpuId,
    mut lines: Vec<Line<u64>>,
) -> Result<(), NoMemory>
    requires { cpu.0 < length follower.old.known.cpus }
    ensures { length follower.new.known.cpus ≡ length follower.old.known.cpus }
{
    let taken = follower.take_page(cpu, &mut lines);
    assert!(rt; lines.is_empty() == taken.is_ok());
    taken
}

/// Looks whether this line is given next, in order.
fn expect_in_order(rt: &impl Abort, said: Option<Said<u64>>, cpu: CpuId, number: u64) {
    let Some(Said::InOrder(line)) = said else {
        panic!(rt; "not in order");
    };
    assert!(rt; line.place.cpu == cpu && line.content == number);
}

/// Looks whether this line is given next, as a late one.
fn expect_late(rt: &impl Abort, said: Option<Said<u64>>, cpu: CpuId, number: u64) {
    let Some(Said::Late(line)) = said else {
        panic!(rt; "not late");
    };
    assert!(rt; line.place.cpu == cpu && line.content == number);
}

/// A line waits for the other CPU, and not for one that ended.
#[test]
fn lines_are_given_once_they_are_final(rt: HostRuntime) -> Result<(), Fail> {
    let mut follower = Follower::new(rt.alloc(), 2)?;
    let lines = page(rt.alloc(), FIRST, [(10, 0), (20, 1)])?;
    take(&rt, &mut follower, FIRST, lines)?;
    assert!(rt; follower.next_final().is_none());
    let lines = page(rt.alloc(), SECOND, [(15, 1), (10, 0)])?;
    take(&rt, &mut follower, SECOND, lines)?;
    expect_in_order(&rt, follower.next_final(), FIRST, 0);
    expect_in_order(&rt, follower.next_final(), SECOND, 0);
    expect_in_order(&rt, follower.next_final(), SECOND, 1);
    assert!(rt; follower.next_final().is_none() && follower.count() == 2);
    follower.end(SECOND);
    expect_in_order(&rt, follower.next_final(), FIRST, 1);
    assert!(rt; follower.next_waiting().is_none());
    Ok(())
}

/// A CPU that was quiet twice holds no line from before the first time, and its own are late then.
#[test]
fn a_quiet_cpu_holds_nothing(rt: HostRuntime) -> Result<(), Fail> {
    let mut follower = Follower::new(rt.alloc(), 2)?;
    let lines = page(rt.alloc(), FIRST, [(10, 0), (20, 1)])?;
    take(&rt, &mut follower, FIRST, lines)?;
    follower.quiet(SECOND);
    assert!(rt; follower.next_final().is_none());
    follower.quiet(SECOND);
    expect_in_order(&rt, follower.next_final(), FIRST, 0);
    expect_in_order(&rt, follower.next_final(), FIRST, 1);
    let lines = page(rt.alloc(), SECOND, [(5, 0), (20, 1)])?;
    take(&rt, &mut follower, SECOND, lines)?;
    expect_late(&rt, follower.next_final(), SECOND, 0);
    assert!(rt; follower.next_final().is_none());
    expect_in_order(&rt, follower.next_waiting(), SECOND, 1);
    Ok(())
}

/// A whole reading gives what its events make final, and then what is left.
#[test]
fn all_events_are_followed(rt: HostRuntime) -> Result<(), Fail> {
    let mut events = VecDeque::new(rt.alloc());
    events.push_back(Event::Page(FIRST, page(rt.alloc(), FIRST, [(10, 0), (20, 1)])?))?;
    events.push_back(Event::Quiet(SECOND))?;
    events.push_back(Event::Quiet(SECOND))?;
    events.push_back(Event::Page(SECOND, page(rt.alloc(), SECOND, [(5, 0), (30, 1)])?))?;
    events.push_back(Event::Ended(FIRST))?;
    let given = follow(rt.alloc(), 2, events)?;
    let [
        Said::InOrder(first),
        Said::InOrder(second),
        Said::Late(late),
        Said::InOrder(last),
    ] = given.as_slice()
    else {
        panic!(rt; "other lines");
    };
    assert!(rt; first.place.moment.0 == 10 && second.place.moment.0 == 20);
    assert!(rt; late.place.moment.0 == 5 && last.place.moment.0 == 30);
    Ok(())
}
