//! A slot that is written, and the entry that is read of it.
ghost use Rattle.std.specs.Prelude.{◌+◌, ◌<◌, ◌^◌, IfOk};
ghost use Rattle.trace_model.specs.Reading.{IsPlaceIn};

use page_borrow::{Entry, records, slot_mut};
use page_image::{Body, Page, Place};
use std::alloc::Global;
use std::process::Abort;
use std::test::Fail;
use trace_model::{FillNo, Moment, NoMemory, RecordNo};

/// What is written into the slot.
const BYTES: &[u8] = &[1, 2, 3, 4, 5, 0, 0, 9];

/// A page of one record at moment 100, whose five bytes take a slot of eight, under the last number but one.
fn page_at_the_top(alloc: Global) -> Result<(Page, Place), NoMemory>
    ensures place { IfOk result (λ made. IsPlaceIn made.0.bytes made.1.start made.1.len) }
    ensures numbers { IfOk result (λ made. made.0.first + made.0.count < 2 ^ 64) }
{
    let mut page = Page::fresh(Body::new(alloc, 32)?, RecordNo(u64::MAX - 1), FillNo(3));
    let place = page.put(0, 100, 5);
    Ok((page, place))
}

/// Compares the page's one record.
fn compare(rt: &impl Abort, page: &Page)
    requires { page.now.first + page.now.count < 2 ^ 64 }
{
    let mut entries = records(page);
    let entry = Entry {
        number: RecordNo(u64::MAX - 1),
        moment: Moment(100),
        bytes: BYTES,
    };
    assert!(rt; entries.next() == Some(entry));
    assert!(rt; entries.next() == None);
}

/// The entry has the bytes of the slot and its page's number.
#[test]
fn a_slot_is_written_in_place(rt: HostRuntime) -> Result<(), Fail> {
    let (mut page, place) = page_at_the_top(rt.alloc())?;
    let slot = slot_mut(&mut page, place);
    assert!(rt; &*slot == [0; 8].as_slice());
    slot.copy_from_slice(BYTES);
    compare(&rt, &page);
    assert!(rt; page.data() == b"\x02\0\0\0\x01\x02\x03\x04\x05\0\0\x09".as_slice());
    Ok(())
}
