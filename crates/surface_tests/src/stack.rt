//! The stack of a ring's nested writers, by itself.
ghost use Rattle.std.specs.Prelude.{IfOk};
ghost use Rattle.nested_writer.specs.IsStack.{IsReachedStack};
ghost use Rattle.surface_tests.specs.Stacks.{IsNewStack, IsAtRest};

use nested_writer::{Allot, Ended, WriteFault, WriterStack, Wrote};
use page_image::{Body, Page, Place};
use std::process::Abort;
use std::test::Fail;
use trace_model::{FillNo, LINK_FILLS, RecordNo};

/// The place of the payload of a page's second record, if that and the first have four bytes.
const SECOND: Allot = Allot::Fits(Place { start: 12, len: 4 });

/// The place of the third.
const THIRD: Allot = Allot::Fits(Place { start: 20, len: 4 });

/// Reserves a record at each of these moments, each within the one before: the example of a loop at the head
/// of `nested_writer`.
fn reserve_all(stack: &mut WriterStack, moments: &[u64]) -> Result<(), WriteFault>
    requires stack { IsReachedStack stack.old }
    ensures stack { IsReachedStack stack.new }
{
    for moment in moments {
        stack.begin(*moment, 4)?;
        stack.allot()?;
    }
    Ok(())
}

/// Four frames, each within the one before.
#[test]
fn a_fifth_frame_is_refused(rt: HostRuntime) -> Result<(), Fail> {
    let mut stack = WriterStack::new(rt.alloc(), 2, 32)?;
    reserve_all(&mut stack, &[1, 2, 3, 4])?;
    assert!(rt; stack.depth() == 4);
    assert!(rt; stack.begin(5, 4) == Err(WriteFault::TooDeep));
    Ok(())
}

/// Compares a page with its fill, the number of its first record and its data.
fn compare(rt: &impl Abort, page: &Page, fill: u64, first: u64, data: &[u8]) {
    assert!(rt; page.fill() == FillNo(fill) && page.first() == RecordNo(first));
    assert!(rt; page.data() == data);
}

/// Writes a record at once, then one in the middle of which another one is written.
fn write_nested(rt: &impl Abort, stack: &mut WriterStack) -> Result<(), WriteFault>
    requires { IsNewStack stack.old }
    ensures { IfOk result (λ _. IsAtRest stack.new) }
{
    assert!(rt; stack.write(5, b"1234") == Wrote::Record);
    stack.pop_bottom();
    stack.begin(10, 4)?;
    assert!(rt; stack.allot() == Ok(SECOND));
    stack.begin(20, 4)?;
    assert!(rt; stack.allot() == Ok(THIRD));
    stack.top_mut()?.copy_from_slice(b"bbbb");
    assert!(rt; stack.end() == Ok(Ended::Pending));
    stack.top_mut()?.copy_from_slice(b"aaaa");
    assert!(rt; stack.end() == Ok(Ended::Full));
    Ok(())
}

/// Closes the page, for which the frame at the bottom is asked; the page is answered.
fn close_asked(rt: &impl Abort, stack: &mut WriterStack, body: Body) -> Page
    requires { IsAtRest stack.old }
    ensures { IsAtRest stack.new }
{
    assert!(rt; stack.ask_close());
    assert!(rt; stack.size() == body.size());
    assert!(rt; stack.opened() - stack.done() < stack.pages() as u64);
    assert!(rt; stack.opened() + (stack.pages() as u64) < LINK_FILLS);
    stack.add_page(body);
    stack.drop_front()
}

#[test]
fn a_page_of_nested_records_is_closed(rt: HostRuntime) -> Result<(), Fail> {
    let body = Body::new(rt.alloc(), 32)?;
    let mut stack = WriterStack::new(rt.alloc(), 2, 32)?;
    write_nested(&rt, &mut stack)?;
    let front = close_asked(&rt, &mut stack, body);
    compare(
        &rt,
        &front,
        0,
        0,
        b"\x01\0\0\x001234\xa1\0\0\0aaaa\x41\x01\0\0bbbb",
    );
    stack.pop_bottom();
    compare(&rt, &stack.into_tail(), 1, 3, b"");
    Ok(())
}
