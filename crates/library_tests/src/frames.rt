//! What a stack does by itself, which no exchange with a ring can show: the rows of a ring are in the text that
//! `rows` reads.
ghost use Rattle.std.specs.Prelude.{◌≡◌, [], IfOk};
ghost use Rattle.trace_model.specs.declared.limits.TheConstants.{START_FILL};
ghost use Rattle.nested_writer.specs.Stack.{new_stack};
ghost use Rattle.nested_writer.specs.Calls.{IsAtBottom};
ghost use Rattle.nested_writer.specs.IsStack.{IsReachedStack};

use nested_writer::Wrote::{Nothing, Record};
use nested_writer::{Allot, Ended, WriteFault, WriterStack};
use page_image::Body;
use std::process::Abort;
use std::test::Fail;
use trace_model::{LINK_FILLS, NoMemory};

/// Pushes a frame and ends it, and tries to write at once meanwhile.
fn write_amid(rt: &impl Abort, stack: &mut WriterStack)
    requires { IsReachedStack stack.old }
{
    assert!(rt; stack.begin(9, 4) == Ok(()));
    assert!(rt; stack.write(9, b"abcd") == Nothing);
    assert!(rt; stack.plain_top().is_none());
    assert!(rt; matches!(stack.allot(), Ok(Allot::Fits(_))));
    assert!(rt; stack.write(9, b"abcd") == Nothing);
    assert!(rt; stack.end() == Ok(Ended::Full));
    assert!(rt; stack.write(9, b"abcd") == Nothing);
    assert!(rt; matches!(stack.allot(), Err(WriteFault::NotReserved)));
    assert!(rt; stack.depth() == 1);
}

/// Nothing is written at once above a frame, nor once one was ended and stays; and that one reserves nothing more.
#[test]
fn nothing_is_written_at_once_above_a_frame(rt: HostRuntime) -> Result<(), Fail> {
    let mut stack = WriterStack::new(rt.alloc(), 2, 64)?;
    write_amid(&rt, &mut stack);
    Ok(())
}

/// Writes records alone, the last one in vain, as a frame is put back before it.
fn write_alone(rt: &impl Abort, stack: &mut WriterStack)
    requires stack { IsReachedStack stack.old }
    requires new { stack.old ≡ new_stack 2 32 START_FILL }
    ensures stack { IsReachedStack stack.new }
    ensures bottom { IsAtBottom stack.new.frames }
    ensures alone { stack.new.older ≡ [] }
{
    assert!(rt; stack.write_alone(9, b"") == Record);
    assert!(rt; stack.write_alone(9, b"abcd") == Record);
    assert!(rt; stack.write_alone(9, b"123456789abcdefg") == Nothing);
    assert!(rt; stack.depth() == 0);
    assert!(rt; stack.write_alone(10, b"xy") == Record);
    assert!(rt; stack.ask_close_for(10, 2));
    assert!(rt; stack.is_at_bottom());
    assert!(rt; stack.write_alone(11, b"z") == Nothing);
}

/// A record that is written alone leaves no frame, so that the next one is written too; a frame can be put back then.
#[test]
fn a_record_written_alone_leaves_no_frame(rt: HostRuntime) -> Result<(), Fail> {
    let mut stack = WriterStack::new(rt.alloc(), 2, 32)?;
    write_alone(&rt, &mut stack);
    stack.pop_bottom();
    let tail = stack.into_tail();
    assert!(rt; tail.count() == 3);
    assert!(rt; tail.data() == b"\x01\0\0\0\0\0\0\0\x01\0\0\0abcd\x21\0\0\0xy\0\0".as_slice());
    Ok(())
}

/// Pushes a close frame that needs no page until a record came.
fn close_late(rt: &impl Abort, stack: &mut WriterStack)
    requires { IsReachedStack stack.old }
    ensures { IsReachedStack stack.new }
{
    assert!(rt; stack.begin_close() == Ok(()));
    assert!(rt; matches!(stack.allot(), Ok(Allot::Fits(_))));
    assert!(rt; stack.begin(1, 4) == Ok(()));
    assert!(rt; matches!(stack.allot(), Ok(Allot::Fits(_))));
    assert!(rt; stack.end() == Ok(Ended::Pending));
    assert!(rt; matches!(stack.allot(), Ok(Allot::NeedsPage)));
    assert!(rt; stack.end() == Err(WriteFault::NotReserved));
}

/// A stack of 4 pages with a close frame that needs no page until a record came.
fn late_to_close(rt: &(impl Abort + AllocGlobal)) -> Result<WriterStack, NoMemory>
    ensures { IfOk result (λ stack. IsReachedStack stack) }
{
    let mut stack = WriterStack::new(rt.alloc(), 4, 32)?;
    close_late(rt, &mut stack);
    Ok(stack)
}

/// The page is added, and the frame on top, which needed it, is ended.
fn end_with_page(rt: &impl Abort, stack: &mut WriterStack, body: Body)
    requires { IsReachedStack stack.old }
    ensures { IsReachedStack stack.new }
{
    assert!(rt; stack.awaits_page());
    assert!(rt; stack.size() == body.size());
    assert!(rt; stack.opened() - stack.done() < stack.pages() as u64);
    assert!(rt; stack.opened() + (stack.pages() as u64) < LINK_FILLS);
    stack.add_page(body);
    assert!(rt; matches!(stack.allot(), Ok(Allot::Fits(_))));
    assert!(rt; stack.end() == Ok(Ended::Full));
}

/// The front page, which holds the record, is closed.
fn drop_record(rt: &impl Abort, stack: &mut WriterStack)
    requires { IsReachedStack stack.old }
{
    assert!(rt; stack.is_at_bottom());
    assert!(rt; stack.opened() - stack.done() > 1);
    let page = stack.drop_front();
    assert!(rt; (page.fill().0, page.first().0, page.time()) == (0, 0, 1));
    assert!(rt; page.data() == b"\x01\0\0\0\0\0\0\0".as_slice());
}

/// A close frame that needed no page needs one once a record came, which a frame of a ring gives no time for.
#[test]
fn a_close_frame_needs_a_page_once_a_record_came(rt: HostRuntime) -> Result<(), Fail> {
    let body = Body::new(rt.alloc(), 32)?;
    let mut stack = late_to_close(&rt)?;
    end_with_page(&rt, &mut stack, body);
    drop_record(&rt, &mut stack);
    Ok(())
}
