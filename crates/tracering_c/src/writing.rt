//! The calls on a ring's writer.
ghost use Rattle.std.specs.Prelude.{◌≡◌, ◌≤◌, ◌++◌, true, drop, length, None, Some};
ghost use Rattle.trace_model.specs.Steps as model;
ghost use Rattle.trace_model.specs.Words.{slot_len};
ghost use Rattle.ring_shared.specs.Value.{SameWriter};
ghost use Rattle.ring_shared.specs.Calls.{closes_first, IsWriter};
ghost use Rattle.tracering_c.specs.declared.ends.HeldWriter.{HeldWriter as EndValue};
ghost use Rattle.tracering_c.specs.Codes.{answer_code, is_gone};
ghost use Rattle.tracering_c.specs.Held.{writer_of};
ghost use Rattle.tracering_c.specs.Handles.{IsWriterHandle, SaysAbsent, OnWriter};
ghost use Rattle.tracering_c.specs.Calls.{WritesSo, BeginsSo, FinishesSo, EndsSo, PutsSo};

use crate::codes::{ABSENT, DONE, NOTHING_CLOSED, RESERVED, TOO_LONG, code_of};
use crate::handle::WriterHandle;
use ring_shared::{Answer, Writer};

/// A payload, as C passes it: the address of its bytes, and how many they are. (If it were passed as a slice, the
/// export would look first whether the address is null.)
#[repr(C)]
#[derive(Clone, Copy)]
pub struct GivenPayload<'a> {
    bytes: &'a [u8],
}

/// Writes a record of this moment and payload whole.
#[unsafe(no_mangle)]
pub extern "C" fn tracering_raw_write(
    w: &mut WriterHandle,
    moment: u64,
    payload: GivenPayload<'_>,
) -> i32
    requires writer { IsWriterHandle w.old }
    ensures absent { SaysAbsent (writer_of w.old.held.value) result w.old w.new }
    ensures writes { OnWriter w.old w.new (λ old new. WritesSo old moment payload.entry.bytes.now result new) }
{
    if !w.live {
        return ABSENT;
    }
    write_on(&mut w.held.writer().writer, moment, payload.bytes)
}

/// `tracering_raw_write`, of the writer itself.
#[inline(always)]
fn write_on(writer: &mut Writer, moment: u64, payload: &[u8]) -> i32
    requires writer { IsWriter writer.old }
    ensures writes { WritesSo writer.old moment payload.now result writer.new }
    ensures ring { SameWriter writer.old writer.new }
    ensures writer { IsWriter writer.new }
{
    match writer.write(moment, payload) {
        Ok(()) => DONE,
        Err(fault) => code_of(fault),
    }
}

/// Begins a record of this moment and of a payload of `len` bytes.
#[unsafe(no_mangle)]
pub extern "C" fn tracering_raw_begin(w: &mut WriterHandle, moment: u64, len: usize) -> i32
    requires writer { IsWriterHandle w.old }
    ensures absent { SaysAbsent (writer_of w.old.held.value) result w.old w.new }
    ensures begins { OnWriter w.old w.new (λ old new.
        BeginsSo old (model.pushes moment len) (Some (slot_len len)) result new) }
{
    if !w.live {
        return ABSENT;
    }
    code_of_answer(w.held.writer().writer.begin(moment, len))
}

/// Begins the close of the tail page.
#[unsafe(no_mangle)]
pub extern "C" fn tracering_raw_begin_close(w: &mut WriterHandle) -> i32
    requires writer { IsWriterHandle w.old }
    ensures absent { SaysAbsent (writer_of w.old.held.value) result w.old w.new }
    ensures begins { OnWriter w.old w.new (λ old new. BeginsSo old model.pushes_close None result new) }
{
    if !w.live {
        return ABSENT;
    }
    code_of_answer(w.held.writer().writer.begin_close())
}

/// Steps the frame on top until its record is reserved, or it is gone or refused. One that has reserved says so again,
/// and a close that closed nothing says that.
#[unsafe(no_mangle)]
pub extern "C" fn tracering_raw_finish(w: &mut WriterHandle) -> i32
    requires writer { IsWriterHandle w.old }
    ensures absent { SaysAbsent (writer_of w.old.held.value) result w.old w.new }
    ensures finishes { OnWriter w.old w.new (λ old new. FinishesSo old result new) }
{
    if !w.live {
        return ABSENT;
    }
    finish_on(&mut w.held.writer().writer)
}

/// `tracering_raw_finish`, of the writer itself.
#[inline(always)]
fn finish_on(writer: &mut Writer) -> i32
    requires writer { IsWriter writer.old }
    ensures finishes { FinishesSo writer.old result writer.new }
    ensures ring { SameWriter writer.old writer.new }
    ensures writer { IsWriter writer.new }
{
    if writer.tops_close() {
        return finish_close(writer);
    }
    code_of_answer(writer.finish_top())
}

/// `finish_on`, if the frame on top is a close.
#[cold]
#[inline(never)]
fn finish_close(writer: &mut Writer) -> i32
    requires writer { IsWriter writer.old }
    requires close { closes_first writer.old.part.frames ≡ true }
    ensures finishes { FinishesSo writer.old result writer.new }
    ensures ring { SameWriter writer.old writer.new }
    ensures writer { IsWriter writer.new }
{
    let opened = writer.opened();
    let answer = writer.finish_top();
    if has_gone(&answer) && writer.opened() == opened {
        return NOTHING_CLOSED;
    }
    code_of_answer(answer)
}

/// Whether the answer is that the frame on top is gone, and it wasn't refused.
fn has_gone(answer: &Answer) -> bool
    ensures { result ≡ is_gone answer.now }
{
    matches!(answer, Answer::Gone)
}

/// Copies the bytes to the front of the slot of the record on top.
#[unsafe(no_mangle)]
pub extern "C" fn tracering_raw_put(w: &mut WriterHandle, bytes: &[u8]) -> i32
    requires writer { IsWriterHandle w.old }
    ensures absent { SaysAbsent (writer_of w.old.held.value) result w.old w.new }
    ensures puts { OnWriter w.old w.new (λ old new. PutsSo old bytes.now result new) }
{
    if !w.live {
        return ABSENT;
    }
    put_on(&mut w.held.writer().writer, bytes)
}

/// `tracering_raw_put`, of the writer itself.
fn put_on(writer: &mut Writer, bytes: &[u8]) -> i32
    requires writer { IsWriter writer.old }
    ensures puts { PutsSo writer.old bytes.now result writer.new }
    ensures ring { SameWriter writer.old writer.new }
    ensures writer { IsWriter writer.new }
{
    match writer.top_mut() {
        Ok(slot) => {
            if slot.len() < bytes.len() {
                return TOO_LONG;
            }
            put_into(slot, bytes);
            DONE
        }
        Err(fault) => code_of(fault),
    }
}

/// The bytes are put to the front of the slot.
fn put_into(slot: &mut [u8], bytes: &[u8])
    requires { length bytes.now ≤ length slot.old }
    ensures put { slot.new ≡ bytes.now ++ drop (length bytes.now) slot.old }
    ensures len { length slot.new ≡ length slot.old }
{
    slot[..bytes.len()].copy_from_slice(bytes);
}

/// Ends the record on top with the payload in its slot.
#[unsafe(no_mangle)]
pub extern "C" fn tracering_raw_end(w: &mut WriterHandle) -> i32
    requires writer { IsWriterHandle w.old }
    ensures absent { SaysAbsent (writer_of w.old.held.value) result w.old w.new }
    ensures ends { OnWriter w.old w.new (λ old new. EndsSo old result new) }
{
    if !w.live {
        return ABSENT;
    }
    code_of_answer(w.held.writer().writer.end())
}

/// The number of an answer.
#[inline(always)]
fn code_of_answer(answer: Answer) -> i32
    ensures { result ≡ answer_code answer }
{
    match answer {
        Answer::Refused(fault) => code_of(fault),
        Answer::Reserved(_) => RESERVED,
        _ => DONE,
    }
}

/// How many records and closes are begun and not completed: at most four, and none if the handle has no
/// ring.
#[unsafe(no_mangle)]
pub extern "C" fn tracering_raw_depth(w: &mut WriterHandle) -> usize
    requires writer { IsWriterHandle w.old }
    ensures none { writer_of w.old.held.value ≡ None → result ≡ 0 }
    ensures depth { (old : EndValue) → writer_of w.old.held.value ≡ Some old → result ≡ length old.writer.part.frames }
    ensures stays { writer_of w.old.held.value ≡ None → w.new ≡ w.old }
    ensures same { writer_of w.new.held.value ≡ writer_of w.old.held.value }
{
    if !w.live {
        return 0;
    }
    w.held.writer().writer.depth()
}
