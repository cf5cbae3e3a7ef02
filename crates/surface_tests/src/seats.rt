//! The two seats of a ring, at which each call is one step. The ends of a running ring make all of them.
use link_marks::{Link, Mark};
use ring_steps::{ReaderSeat, WriterSeat, seats, settle};
use std::test::Fail;
use trace_model::FillNo;

/// A record and a close frame are noted, and each seat makes steps; both are joined then.
#[test]
fn both_seats_of_a_new_ring_make_steps(rt: HostRuntime) -> Result<(), Fail> {
    let (mut writer, mut reader): (WriterSeat, ReaderSeat) = seats(rt.alloc(), 2, 32)?;
    let link: Link = reader.load_head(1);
    assert!(rt; link.mark == Mark::Header && link.page == 0 && link.fill == 0);
    writer.note_push(1, 4);
    writer.note_step();
    writer.note_end(&[1, 2, 3, 4]);
    assert!(rt; writer.load_wish() == 0);
    writer.note_close();
    reader.store_wish(FillNo(0));
    settle(writer, reader);
    Ok(())
}
