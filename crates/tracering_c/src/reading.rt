//! The calls on a ring's reader.
ghost use Rattle.std.specs.Prelude.{◌≡◌, None};
ghost use Rattle.ring_shared.specs.Takes.{SameRing};
ghost use Rattle.tracering_c.specs.Held.{reader_of};
ghost use Rattle.tracering_c.specs.Handles.{IsReaderHandle, SaysAbsent, OnReader};
ghost use Rattle.tracering_c.specs.Ends.{IsHeldReader};
ghost use Rattle.tracering_c.specs.Calls.{TakesSo, WishesSo};

use crate::codes::{ABSENT, DONE, EMPTY, MOVING, NO_ROOM};
use crate::ends::{HeldReader, Next};
use crate::handle::ReaderHandle;
use crate::taken::Taken;
use library_values::parcel_buffer::{PARCEL_HEADER, put_parcel};

/// Takes the next page, and puts its parcel to the front of `out`.
#[unsafe(no_mangle)]
pub extern "C" fn tracering_raw_take(r: &mut ReaderHandle, out: &mut [u8], taken: &mut Taken) -> i32
    requires reader { IsReaderHandle r.old }
    ensures absent { SaysAbsent (reader_of r.old.held.value) result r.old r.new }
    ensures out_stays { reader_of r.old.held.value ≡ None → out.new ≡ out.old }
    ensures taken_stays { reader_of r.old.held.value ≡ None → taken.new ≡ taken.old }
    ensures takes { OnReader r.old r.new (λ old new. TakesSo old out.old taken.old result out.new taken.new new) }
{
    if !r.live {
        return ABSENT;
    }
    take_into(r.held.reader(), out, taken)
}

/// `tracering_raw_take`, of the end itself.
fn take_into(end: &mut HeldReader, out: &mut [u8], taken: &mut Taken) -> i32
    requires reader { IsHeldReader end.old }
    ensures takes { TakesSo end.old out.old taken.old result out.new taken.new end.new }
    ensures ring { SameRing end.old.reader end.new.reader }
    ensures cpu { end.new.cpu ≡ end.old.cpu }
    ensures reader { IsHeldReader end.new }
{
    if out.len() < PARCEL_HEADER + end.size() {
        return NO_ROOM;
    }
    let cpu = end.cpu;
    match end.next() {
        Next::Page(page, missed) => {
            let len = put_parcel(out, cpu, &page, missed);
            *taken = Taken::of(&page, missed, len);
            end.put_back(page);
            DONE
        }
        Next::Empty => EMPTY,
        Next::Moving => MOVING,
    }
}

/// Wishes for the tail page to be closed.
#[unsafe(no_mangle)]
pub extern "C" fn tracering_raw_wish(r: &mut ReaderHandle) -> i32
    requires reader { IsReaderHandle r.old }
    ensures absent { SaysAbsent (reader_of r.old.held.value) result r.old r.new }
    ensures wishes { OnReader r.old r.new (λ old new. WishesSo old result new) }
{
    if !r.live {
        return ABSENT;
    }
    let _fill = r.held.reader().reader.wish();
    DONE
}
