//! The page that is written, copied while its writer has begun nothing.
ghost use Rattle.std.specs.Prelude.{◌≡◌, ◌≢◌, Some, length};
ghost use Rattle.ring_shared.specs.Calls.{IsWriter};
ghost use Rattle.tracering_c.specs.declared.codes.TheConstants.{DONE};
ghost use Rattle.tracering_c.specs.declared.ends.HeldWriter.{HeldWriter as EndValue};
ghost use Rattle.tracering_c.specs.Held.{writer_of};
ghost use Rattle.tracering_c.specs.Handles.{IsWriterHandle, SaysAbsent};
ghost use Rattle.tracering_c.specs.Peeks.{IsPeeked, AnswersPeek};

use crate::codes::{ABSENT, DONE, EMPTY, NO_ROOM, NOT_AT_REST};
use crate::ends::HeldWriter;
use crate::handle::WriterHandle;
use crate::taken::Taken;
use library_values::parcel_buffer::{PARCEL_HEADER, put_parcel};

/// Puts the parcel of the page that is written to the front of `out`, if nothing is begun and the page has a record.
/// Nothing of the ring changes.
#[unsafe(no_mangle)]
pub extern "C" fn tracering_raw_peek(w: &mut WriterHandle, out: &mut [u8], taken: &mut Taken) -> i32
    requires writer { IsWriterHandle w.old }
    ensures absent { SaysAbsent (writer_of w.old.held.value) result w.old w.new }
    ensures peeked { (end : EndValue) → writer_of w.old.held.value ≡ Some end
        → result ≡ DONE → IsPeeked end.cpu.0 end.writer out.old out.new taken.new }
    ensures answers { (end : EndValue) → writer_of w.old.held.value ≡ Some end
        → AnswersPeek end.writer (length out.old) result }
    ensures out_stays { result ≢ DONE → out.new ≡ out.old }
    ensures taken_stays { result ≢ DONE → taken.new ≡ taken.old }
    ensures same { writer_of w.new.held.value ≡ writer_of w.old.held.value }
{
    if !w.live {
        return ABSENT;
    }
    peek_into(w.held.writer(), out, taken)
}

/// `tracering_raw_peek`, of the end itself.
fn peek_into(end: &HeldWriter, out: &mut [u8], taken: &mut Taken) -> i32
    requires writer { IsWriter end.now.writer }
    ensures peeked { result ≡ DONE → IsPeeked end.now.cpu.0 end.now.writer out.old out.new taken.new }
    ensures answers { AnswersPeek end.now.writer (length out.old) result }
    ensures out_stays { result ≢ DONE → out.new ≡ out.old }
    ensures taken_stays { result ≢ DONE → taken.new ≡ taken.old }
{
    let Some(page) = end.writer.resting_tail() else {
        return NOT_AT_REST;
    };
    if out.len() < PARCEL_HEADER + page.size() {
        return NO_ROOM;
    }
    if page.count() == 0 {
        return EMPTY;
    }
    let len = put_parcel(out, end.cpu, page, 0);
    *taken = Taken::of(page, 0, len);
    DONE
}
