//! A ring's pages, added to a collector as they are taken.
ghost use Rattle.std.specs.Prelude.{◌≡◌, ◌<◌, Some, None, IsSomeAnd};
ghost use Rattle.trace_model.specs.declared.limits.TheConstants.{MAX_CPUS};
ghost use Rattle.ring_shared.specs.Takes.{IsReader, SameRing};
ghost use Rattle.tracering_c.specs.declared.ends.HeldReader.{HeldReader as ReaderValue};
ghost use Rattle.tracering_c.specs.declared.ends.HeldCollector.{HeldCollector as CollectorValue};
ghost use Rattle.tracering_c.specs.Held.{reader_of, collector_of};
ghost use Rattle.tracering_c.specs.Ends.{IsUnadded, IsHeldReader};
ghost use Rattle.tracering_c.specs.Handles.{IsReaderHandle, SaysAbsent, OnReader};
ghost use Rattle.tracering_c.specs.Codes.{page_answer};
ghost use Rattle.tracering_c.specs.CollectorCalls.{IsLeft, CollectsSo};

use crate::codes::{ABSENT, EMPTY, MOVING, code_of_add};
use crate::collected::FaultAt;
use crate::ends::{HeldReader, Next, Unadded};
use crate::handle::{CollectorHandle, ReaderHandle};
use crate::taken::Taken;
use collector::{AddFault, Added};
use library_values::listed_collector::{AddRefusal, ListedCollector};
use library_values::parcel_buffer::parcel_len;
use page_image::Page;
use std::alloc::Global;

/// Takes the next page of a ring, and adds it to a collector. If it isn't added, the reader keeps it, and gives it
/// next.
#[unsafe(no_mangle)]
pub extern "C" fn tracering_raw_collector_take(
    alloc: Global,
    c: &mut CollectorHandle,
    r: &mut ReaderHandle,
    taken: &mut Taken,
    at: &mut FaultAt,
) -> i32
    requires reader { IsReaderHandle r.old }
    ensures absent { SaysAbsent (collector_of c.old.held.value) result c.old c.new }
    ensures reader_absent { SaysAbsent (reader_of r.old.held.value) result r.old r.new }
    ensures collector_stays { reader_of r.old.held.value ≡ None → c.new ≡ c.old }
    ensures reader_stays { collector_of c.old.held.value ≡ None → r.new ≡ r.old }
    ensures collects { (listed : CollectorValue) (end : ReaderValue)
        → collector_of c.old.held.value ≡ Some listed → reader_of r.old.held.value ≡ Some end
        → IsSomeAnd (collector_of c.new.held.value) (λ left. IsSomeAnd (reader_of r.new.held.value) (λ new.
        CollectsSo end listed.listed taken.old at.old result taken.new at.new new left.listed)) }
    ensures ring { OnReader r.old r.new (λ old new. SameRing old.reader new.reader) }
    ensures taken_stays { collector_of c.old.held.value ≡ None → taken.new ≡ taken.old }
    ensures taken_stays_too { reader_of r.old.held.value ≡ None → taken.new ≡ taken.old }
    ensures at_stays { collector_of c.old.held.value ≡ None → at.new ≡ at.old }
    ensures at_stays_too { reader_of r.old.held.value ≡ None → at.new ≡ at.old }
{
    if !c.live || !r.live {
        return ABSENT;
    }
    take_added(
        alloc,
        &mut c.held.collector().listed,
        r.held.reader(),
        taken,
        at,
    )
}

/// `tracering_raw_collector_take`, of the collector and the end themselves.
fn take_added(
    alloc: Global,
    listed: &mut ListedCollector,
    end: &mut HeldReader,
    taken: &mut Taken,
    at: &mut FaultAt,
) -> i32
    requires reader { IsHeldReader end.old }
    ensures collects { CollectsSo end.old listed.old taken.old at.old result taken.new at.new end.new listed.new }
    ensures ring { SameRing end.old.reader end.new.reader }
    ensures cpu { end.new.cpu ≡ end.old.cpu }
    ensures reader { IsHeldReader end.new }
{
    let cpu = end.cpu;
    match end.next() {
        Next::Page(page, missed) => {
            let answer = listed.add_page(alloc, cpu, &page, missed);
            let refusal = refusal_of(answer);
            *at = FaultAt::of(refusal, *at);
            leave_page(end, answer, page, missed, taken);
            code_of_add(refusal)
        }
        Next::Empty => EMPTY,
        Next::Moving => MOVING,
    }
}

/// The page is reported if it was added, and kept if it wasn't.
fn leave_page(
    end: &mut HeldReader,
    answer: Result<Added, AddFault>,
    page: Page,
    missed: u64,
    taken: &mut Taken,
)
    requires cpu { end.old.cpu.0 < MAX_CPUS }
    requires reader { IsReader end.old.reader }
    requires page { IsUnadded end.old.reader record { page = page; missed = missed } }
    requires added { end.old.unadded ≡ None }
    ensures left { IsLeft answer page missed taken.old taken.new end.new.unadded }
    ensures stays { end.new.reader ≡ end.old.reader }
    ensures cpu { end.new.cpu ≡ end.old.cpu }
    ensures reader { IsHeldReader end.new }
{
    match answer {
        Ok(_) => {
            *taken = Taken::of(&page, missed, parcel_len(&page, missed));
            end.put_back(page);
        }
        Err(_) => end.unadded = Some(Unadded { page, missed }),
    }
}

/// The answer to a page as one to parcel bytes.
fn refusal_of(answer: Result<Added, AddFault>) -> Result<Added, AddRefusal>
    ensures { result ≡ page_answer answer }
{
    match answer {
        Ok(added) => Ok(added),
        Err(fault) => Err(AddRefusal::Add(fault)),
    }
}
