//! The two ends of a ring, settled.
ghost use Rattle.std.specs.Prelude.{◌≡◌, ◌≢◌, ◌+◌, ◌≤◌, [], Some, None, length};
ghost use Rattle.ring_shared.specs.Calls.{IsWriter};
ghost use Rattle.tracering_c.specs.declared.codes.TheConstants.{DONE, ABSENT};
ghost use Rattle.tracering_c.specs.declared.ends.HeldWriter.{HeldWriter as WriterValue};
ghost use Rattle.tracering_c.specs.declared.ends.HeldReader.{HeldReader as ReaderValue};
ghost use Rattle.tracering_c.specs.Held.{writer_of, reader_of};
ghost use Rattle.tracering_c.specs.Zeros.{AreZeros};
ghost use Rattle.tracering_c.specs.Handles.{IsWriterHandle, IsReaderHandle};
ghost use Rattle.tracering_c.specs.Ends.{IsHeldReader, AreOfOneRing};
ghost use Rattle.tracering_c.specs.Calls.{SettlesSo, AnswersSettle};

use crate::codes::{ABSENT, DONE, NO_ROOM, NOT_AT_REST, UNREAD};
use crate::ends::{HeldReader, HeldWriter};
use crate::handle::{ReaderHandle, WriterHandle};
use crate::taken::Taken;
use library_values::parcel_buffer::{PARCEL_HEADER, put_parcel};
use ring_shared::{SettleFault, settle};
use std::alloc::Global;

/// Joins the two ends of a ring, and puts the parcel of the page that no take has answered to the front of `out`.
#[unsafe(no_mangle)]
pub extern "C" fn tracering_raw_settle(
    alloc: Global,
    w: &mut WriterHandle,
    r: &mut ReaderHandle,
    out: &mut [u8],
    taken: &mut Taken,
) -> i32
    requires writer { IsWriterHandle w.old }
    requires reader { IsReaderHandle r.old }
    requires one_ring { (left : WriterValue) (right : ReaderValue)
        → writer_of w.old.held.value ≡ Some left → reader_of r.old.held.value ≡ Some right
        → AreOfOneRing left.writer right.reader }
    ensures absent { writer_of w.old.held.value ≡ None → result ≡ ABSENT }
    ensures reader_absent { (left : WriterValue) → writer_of w.old.held.value ≡ Some left
        → reader_of r.old.held.value ≡ None → result ≡ ABSENT }
    ensures settled { (left : WriterValue) (right : ReaderValue)
        → writer_of w.old.held.value ≡ Some left → reader_of r.old.held.value ≡ Some right
        → result ≡ DONE → SettlesSo left.writer right out.old out.new taken.new }
    ensures answers { (left : WriterValue) (right : ReaderValue)
        → writer_of w.old.held.value ≡ Some left → reader_of r.old.held.value ≡ Some right
        → AnswersSettle left.writer right (length out.old) result }
    ensures gone { result ≡ DONE → writer_of w.new.held.value ≡ None }
    ensures reader_gone { result ≡ DONE → reader_of r.new.held.value ≡ None }
    ensures cleared { result ≡ DONE → AreZeros w.new.held.at w.new.live }
    ensures reader_cleared { result ≡ DONE → AreZeros r.new.held.at r.new.live }
    ensures stays { result ≢ DONE → writer_of w.new.held.value ≡ writer_of w.old.held.value }
    ensures reader_stays { result ≢ DONE → reader_of r.new.held.value ≡ reader_of r.old.held.value }
    ensures out_stays { result ≢ DONE → out.new ≡ out.old }
    ensures taken_stays { result ≢ DONE → taken.new ≡ taken.old }
{
    let Some(left) = w.take_out(alloc) else {
        return ABSENT;
    };
    let Some(right) = r.take_out(alloc) else {
        *w = WriterHandle::of(left);
        return ABSENT;
    };
    let code = why_not(&left, &right, out.len());
    if code != DONE {
        *w = WriterHandle::of(left);
        *r = ReaderHandle::of(right);
        return code;
    }
    *taken = settle_into(alloc, Box::into_inner(left), Box::into_inner(right), out);
    DONE
}

/// Why these ends can't be settled into a buffer of `room` bytes, or `DONE` if they can.
fn why_not(left: &HeldWriter, right: &HeldReader, room: usize) -> i32
    requires writer { IsWriter left.now.writer }
    requires reader { IsHeldReader right.now }
    ensures answers { AnswersSettle left.now.writer right.now room result }
    ensures read { result ≡ DONE → right.now.reader.empty_at ≡ Some left.now.writer.part.done }
    ensures room { result ≡ DONE → 48 + right.now.reader.shape.size ≤ room }
    ensures rest { result ≡ DONE → left.now.writer.part.frames ≡ [] }
{
    if left.writer.depth() > 0 {
        return NOT_AT_REST;
    }
    if right.reader.empty_at() != Some(left.writer.done()) {
        return UNREAD;
    }
    if room < PARCEL_HEADER + right.size() {
        return NO_ROOM;
    }
    DONE
}

/// `tracering_raw_settle`, of the ends themselves.
fn settle_into(alloc: Global, left: HeldWriter, right: HeldReader, out: &mut [u8]) -> Taken
    requires writer { IsWriter left.writer }
    requires reader { IsHeldReader right }
    requires one_ring { AreOfOneRing left.writer right.reader }
    requires rest { left.writer.part.frames ≡ [] }
    requires read { right.reader.empty_at ≡ Some left.writer.part.done }
    requires room { 48 + right.reader.shape.size ≤ length out.old }
    ensures { SettlesSo left.writer right out.old out.new result }
{
    let HeldReader { cpu, reader, .. } = right;
    let HeldWriter { writer, .. } = left;
    let settled = match settle(alloc, writer, reader) {
        Ok(settled) => settled,
        Err(SettleFault::NoMemory(..)) => unreachable!(),
    };
    match settled.unread() {
        Some(page) => {
            let len = put_parcel(out, cpu, page, 0);
            Taken::of(page, 0, len)
        }
        None => Taken {
            fill: 0,
            first: 0,
            missed: 0,
            count: 0,
            len: 0,
        },
    }
}
