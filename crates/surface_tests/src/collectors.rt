//! A parcel, a collector and a listing.
use collector::{Added, Collector};
use page_borrow::slot_mut;
use page_image::{Body, Page};
use page_numbers::Parcel;
use std::alloc::Global;
use std::test::Fail;
use time_merge::listing;
use trace_model::{CpuId, FillNo, Moment, RecordNo};

/// A parcel of one record, before which one number is missing.
fn parcel_of(alloc: Global) -> Result<Parcel, Fail> {
    let mut page = Page::fresh(Body::new(alloc, 32)?, RecordNo(1), FillNo(1));
    let place = page.put(0, 2, 4);
    slot_mut(&mut page, place).copy_from_slice(b"abcd");
    Ok(Parcel::of(alloc, CpuId(0), page, 1)?)
}

#[test]
fn a_collector_keeps_a_parcel(rt: HostRuntime) -> Result<(), Fail> {
    let mut collector = Collector::new(rt.alloc());
    assert!(rt; collector.add(parcel_of(rt.alloc())?) == Ok(Added::New));
    let lines = listing(rt.alloc(), &collector)?;
    assert!(rt; lines.len() == 1);
    for line in &lines {
        assert!(rt; line.moment == Moment(2) && line.bytes == b"abcd".as_slice());
    }
    Ok(())
}
