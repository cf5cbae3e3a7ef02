//! The two ends of a running ring, in one thread.
ghost use Rattle.std.specs.Prelude.{◌≡◌, ◌∷◌, length, Some};
ghost use Rattle.trace_model.specs.Words.{slot_len};
ghost use Rattle.ring_shared.specs.Value.{SameWriter};
ghost use Rattle.ring_shared.specs.Calls.{IsWriter};
ghost use Rattle.ring_shared.specs.Rooms.{rooms};
ghost use Rattle.ring_shared.specs.Takes.{IsReader, SameRing};

use nested_writer::{Ended, WriteFault};
use page_image::Body;
use ring_shared::{Answer, Reader, SettleFault, Settled, Take, Writer, ring, settle, stop};
use std::process::Abort;
use std::test::Fail;
use trace_model::{FillNo, RecordNo};

/// Steps of the frame on top until one answers: the example of a loop at the head of `ring_shared`.
fn finish(writer: &mut Writer) -> Answer
    requires writer { IsWriter writer.old }
    ensures writer { IsWriter writer.new }
    ensures ring { SameWriter writer.old writer.new }
{
    for made in 0..64 {
        let _made = made;
        match writer.step() {
            Answer::Going => {}
            answer => return answer,
        }
    }
    Answer::Going
}

/// Begins a record and reserves it.
fn reserve(rt: &impl Abort, writer: &mut Writer, moment: u64, len: usize)
    requires writer { IsWriter writer.old }
    ensures writer { IsWriter writer.new }
    ensures ring { SameWriter writer.old writer.new }
    ensures room { rooms writer.new ≡ Some (slot_len len) ∷ rooms writer.old }
{
    let Answer::Pushed = writer.begin(moment, len) else {
        panic!(rt; "no frame is pushed");
    };
    let Answer::Reserved(_) = writer.finish_top() else {
        panic!(rt; "no record is reserved");
    };
}

/// Writes a record in the middle of which one is refused that no page holds, and then another one is written.
fn write_nested(rt: &impl Abort, writer: &mut Writer) -> Result<(), WriteFault>
    requires writer { IsWriter writer.old }
    ensures writer { IsWriter writer.new }
    ensures ring { SameWriter writer.old writer.new }
{
    reserve(rt, writer, 10, 5);
    let Answer::Refused(WriteFault::TooLong) = writer.begin(20, 29) else {
        panic!(rt; "a record is begun that no page holds");
    };
    reserve(rt, writer, 20, 4);
    writer.top_mut()?.copy_from_slice(b"bbbb");
    let Answer::Ended(Ended::Pending) = writer.end() else {
        panic!(rt; "the frame below is gone");
    };
    writer.top_mut()?.copy_from_slice(b"aaaaa\0\0\0");
    assert!(rt; matches!(writer.end(), Answer::Ended(Ended::Full)));
    assert!(rt; matches!(writer.step(), Answer::Gone));
    Ok(())
}

/// Takes no page twice, with the same body, since none is closed; and wishes for one.
fn take_nothing(rt: &impl Abort, reader: &mut Reader, body: Body) -> Body
    requires reader { IsReader reader.old }
    requires size { length body ≡ reader.old.shape.size }
    ensures reader { IsReader reader.new }
    ensures ring { SameRing reader.old reader.new }
    ensures size { length result ≡ reader.old.shape.size }
{
    let Take::Empty(0, body) = reader.take(body) else {
        panic!(rt; "a page that isn't closed is taken");
    };
    let Take::Empty(0, body) = reader.take(body) else {
        panic!(rt; "a page that isn't closed is taken at the second time");
    };
    assert!(rt; reader.wish() == FillNo(0));
    body
}

/// Closes the page of both records, and writes another one.
fn close(rt: &impl Abort, writer: &mut Writer) -> Result<(), WriteFault>
    requires writer { IsWriter writer.old }
    ensures writer { IsWriter writer.new }
    ensures ring { SameWriter writer.old writer.new }
{
    assert!(rt; matches!(writer.begin_close(), Answer::Pushed));
    assert!(rt; matches!(finish(writer), Answer::Gone));
    writer.write(30, b"cccc")
}

/// Takes the page that was closed, and nothing after it with its body.
fn take_closed(rt: &impl Abort, reader: &mut Reader, body: Body)
    requires reader { IsReader reader.old }
    requires size { length body ≡ reader.old.shape.size }
    ensures reader { IsReader reader.new }
    ensures ring { SameRing reader.old reader.new }
{
    let Take::Page(page, 0) = reader.take(body) else {
        panic!(rt; "a page that is closed isn't taken");
    };
    assert!(rt; page.data() == b"\x02\0\0\0aaaaa\0\0\0\x41\x01\0\0bbbb".as_slice());
    let body = reader.give_back(page);
    assert!(rt; matches!(reader.take(body), Take::Empty(1, _)));
}

/// Each call of both ends.
fn run(
    rt: &impl Abort,
    writer: &mut Writer,
    reader: &mut Reader,
    body: Body,
) -> Result<(), WriteFault>
    requires writer { IsWriter writer.old }
    requires reader { IsReader reader.old }
    requires size { length body ≡ reader.old.shape.size }
    ensures writer { IsWriter writer.new }
    ensures reader { IsReader reader.new }
    ensures same_writer { SameWriter writer.old writer.new }
    ensures same_ring { SameRing reader.old reader.new }
{
    write_nested(rt, writer)?;
    let body = take_nothing(rt, reader, body);
    close(rt, writer)?;
    take_closed(rt, reader, body);
    Ok(())
}

/// The last record is unread once both ends are joined.
fn compare(rt: &impl Abort, settled: &Settled) {
    assert!(rt; settled.unread().map(|page| page.first()) == Some(RecordNo(2)));
}

#[test]
fn a_closed_page_is_taken(rt: HostRuntime) -> Result<(), Fail> {
    let body = Body::new(rt.alloc(), 32)?;
    let (mut writer, mut reader): (Writer, Reader) = ring(rt.alloc(), 2, 32)?;
    run(&rt, &mut writer, &mut reader, body)?;
    assert!(rt; writer.depth() == 0);
    assert!(rt; reader.empty_at() == Some(writer.done()));
    match settle(rt.alloc(), writer, reader) {
        Ok(settled) => compare(&rt, &settled),
        Err(SettleFault::NoMemory(_, _)) => panic!(rt; "no memory"),
    }
    Ok(())
}

/// Both ends are joined with records unread, while another one is being written.
#[test]
fn two_ends_stop_at_any_moment(rt: HostRuntime) -> Result<(), Fail> {
    let body = Body::new(rt.alloc(), 32)?;
    let (mut writer, mut reader): (Writer, Reader) = ring(rt.alloc(), 2, 32)?;
    run(&rt, &mut writer, &mut reader, body)?;
    reserve(&rt, &mut writer, 40, 4);
    stop(writer, reader);
    Ok(())
}
