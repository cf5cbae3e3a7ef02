//! The ring as a value.
ghost use Rattle.std.specs.Prelude.{◌≡◌, ◌∷◌, length, Some};
ghost use Rattle.ring_frames.specs.Lens.{lens};
ghost use Rattle.ring_core.specs.Steps.{IsReachedCore};

use nested_writer::{Ended, WriteFault, Wrote};
use page_image::Body;
use ring_core::{Answer, Core, Event};
use std::process::Abort;
use std::test::Fail;
use trace_model::FillNo;

/// Steps of the frame on top until one answers: the example of a loop at the head of `ring_core`.
fn finish(core: &mut Core) -> Answer
    requires ring { IsReachedCore core.old }
    ensures ring { IsReachedCore core.new }
    ensures size { core.new.stack.size ≡ core.old.stack.size }
{
    for made in 0..30 {
        let _made = made;
        match core.step(Event::Step) {
            Answer::Going => {}
            answer => return answer,
        }
    }
    Answer::Going
}

/// Steps of the reader until one answers anything but that it looks on.
fn take(core: &mut Core, body: Body) -> Answer
    requires ring { IsReachedCore core.old }
    requires size { length body ≡ core.old.stack.size }
    ensures ring { IsReachedCore core.new }
    ensures size { core.new.stack.size ≡ core.old.stack.size }
{
    let mut body = body;
    for made in 0..12 {
        let _made = made;
        match core.step(Event::Read(body)) {
            Answer::Looking(back) => body = back,
            answer => return answer,
        }
    }
    Answer::Looking(body)
}

/// Begins a record and reserves it by its first step.
fn reserve(rt: &impl Abort, core: &mut Core, moment: u64, len: usize)
    requires ring { IsReachedCore core.old }
    ensures ring { IsReachedCore core.new }
    ensures size { core.new.stack.size ≡ core.old.stack.size }
    ensures lens { lens core.new.stack ≡ Some len ∷ lens core.old.stack }
{
    let Answer::Pushed = core.step(Event::Push { moment, len }) else {
        panic!(rt; "no frame is pushed");
    };
    let Answer::Reserved(_) = core.step(Event::Step) else {
        panic!(rt; "no record is reserved");
    };
}

/// Writes a record in the middle of which another one is written, each step by an event of its own.
fn write_nested(rt: &impl Abort, core: &mut Core) -> Result<(), WriteFault>
    requires ring { IsReachedCore core.old }
    ensures ring { IsReachedCore core.new }
    ensures size { core.new.stack.size ≡ core.old.stack.size }
{
    reserve(rt, core, 10, 4);
    reserve(rt, core, 20, 4);
    core.top_mut()?.copy_from_slice(b"bbbb");
    let Answer::Ended(Ended::Pending) = core.step(Event::End) else {
        panic!(rt; "the frame below is gone");
    };
    core.top_mut()?.copy_from_slice(b"aaaa");
    assert!(rt; matches!(core.step(Event::End), Answer::Ended(Ended::Full)));
    assert!(rt; matches!(finish(core), Answer::Gone));
    Ok(())
}

/// Wishes for the page of both records, closes it, and takes it.
fn close_and_take(rt: &impl Abort, core: &mut Core, body: Body)
    requires ring { IsReachedCore core.old }
    requires size { length body ≡ core.old.stack.size }
    ensures ring { IsReachedCore core.new }
{
    assert!(rt; matches!(core.step(Event::Wish), Answer::Wished(FillNo(0))));
    assert!(rt; matches!(core.step(Event::PushClose), Answer::Pushed));
    assert!(rt; matches!(finish(core), Answer::Gone));
    let Answer::Taken(page, 0) = take(core, body) else {
        panic!(rt; "a page that is closed isn't taken");
    };
    assert!(rt; page.data() == b"\x01\0\0\0aaaa\x41\x01\0\0bbbb".as_slice());
}

/// Each kind of event once, and a record that is written at once.
fn run(rt: &impl Abort, core: &mut Core, body: Body) -> Result<(), WriteFault>
    requires ring { IsReachedCore core.old }
    requires size { length body ≡ core.old.stack.size }
{
    write_nested(rt, core)?;
    close_and_take(rt, core, body);
    assert!(rt; matches!(core.write(30, b"cccc"), Wrote::Record));
    assert!(rt; core.depth() == 0);
    Ok(())
}

#[test]
fn a_page_of_nested_records_is_taken(rt: HostRuntime) -> Result<(), Fail> {
    let body = Body::new(rt.alloc(), 32)?;
    let mut core = Core::new(rt.alloc(), 2, 32)?;
    assert!(rt; core.size() == 32);
    Ok(run(&rt, &mut core, body)?)
}
