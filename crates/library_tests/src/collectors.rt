//! What parcels and collectors keep: pages. What they answer is in `rows/stdout`.
use collector::{Added, Collector};
use page_image::read_image;
use page_numbers::Parcel;
use std::process::Abort;
use std::test::Fail;
use trace_model::{CpuId, FillNo, NoMemory, RecordNo};

/// A page of 36 bytes with 32 bytes of data, before which one number is missing: its CPU, fill, first number and missed
/// number, and its image.
const ONE_OF_36: &[u8] = b"\0\0\0\0\0\0\0\0\x05\0\0\0\0\0\0\0\
    \x07\0\0\0\0\0\0\0\x01\0\0\0\0\0\0\0\
    \x02\0\0\0\0\0\0\0\x20\0\0\x80\0\0\0\0\
    \x07\0\0\0\x02\x02\x02\x02\x02\x02\x02\x02\x02\x02\x02\x02\x02\x02\x02\x02\
    \x02\x02\x02\x02\x02\x02\x02\x02\x02\x02\x02\x02\0\0\0\0";

/// Numbers 0 and 1: `11111111` at 1, `22222222` at 2.
const ONES_TWOS: &[u8] = b"\0\0\0\0\0\0\0\0\0\0\0\0\0\0\0\0\
    \0\0\0\0\0\0\0\0\0\0\0\0\0\0\0\0\
    \x01\0\0\0\0\0\0\0\x10\0\0\0\0\0\0\0\
    \x01\0\0\0\x11\x11\x11\x11\x21\0\0\0\x22\x22\x22\x22";

/// What collectors keep is the page itself.
#[test]
fn pages_are_shared_and_not_copied(rt: HostRuntime) -> Result<(), Fail> {
    let parcel = Parcel::from_bytes(rt.alloc(), ONES_TWOS)?;
    let mut collector = Collector::new(rt.alloc());
    assert!(rt; collector.add(parcel.share()?) == Ok(Added::New) && parcel.sharers() == 2);
    let mut other = Collector::new(rt.alloc());
    assert!(rt; other.merge(&collector) == Ok(()) && parcel.sharers() == 3);
    Ok(())
}

/// Compares the bytes of a parcel.
fn compare(rt: &(impl Abort + AllocGlobal), parcel: &Parcel, bytes: &[u8]) -> Result<(), NoMemory> {
    assert!(rt; parcel.to_bytes(rt.alloc())?.as_slice() == bytes);
    Ok(())
}

/// A parcel has the whole page that it was made of, and so do its shares; a fitted one has as much as its data takes.
#[test]
fn a_parcel_is_written_with_its_page(rt: HostRuntime) -> Result<(), Fail> {
    let (_, image) = ONE_OF_36.split_at(32);
    let page = read_image(rt.alloc(), image)?
        .page
        .numbered(RecordNo(7), FillNo(5));
    assert!(rt; page.count() == 1);
    let fitted = Parcel::fitted(rt.alloc(), CpuId(0), &page, 1)?;
    compare(&rt, &fitted, &ONE_OF_36[..80])?;
    let whole = Parcel::of(rt.alloc(), CpuId(0), page, 1)?;
    compare(&rt, &whole.share()?, ONE_OF_36)?;
    assert!(rt; whole.has_page_of(&fitted) && whole.sharers() == 1);
    Ok(())
}

/// Number 6 is missing and number 7 has a record: all others are unknown.
#[test]
fn what_is_unknown_is_told(rt: HostRuntime) -> Result<(), Fail> {
    let mut collector = Collector::new(rt.alloc());
    assert!(rt; collector.cpus().next().is_none() && collector.known_end(CpuId(0)) == 0);
    assert!(rt; collector.add(Parcel::from_bytes(rt.alloc(), ONE_OF_36)?) == Ok(Added::New));
    assert!(rt; collector.watermark(CpuId(0)) == RecordNo(0));
    assert!(rt; collector.first_unknown(CpuId(0), RecordNo(6)) == RecordNo(8));
    assert!(rt; collector.first_unknown(CpuId(0), RecordNo(u64::MAX)) == RecordNo(u64::MAX));
    assert!(rt; collector.known_end(CpuId(0)) == 8 && collector.known_end(CpuId(1)) == 0);
    let mut unknown = collector.unknown(CpuId(0), 10);
    assert!(rt; unknown.next() == Some((RecordNo(0), RecordNo(5))));
    assert!(rt; unknown.next() == Some((RecordNo(8), RecordNo(9))));
    assert!(rt; unknown.next().is_none());
    let mut cpus = collector.cpus();
    assert!(rt; cpus.next() == Some(CpuId(0)) && cpus.next().is_none());
    Ok(())
}
