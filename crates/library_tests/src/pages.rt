//! Pages of records, with their bytes written out.
ghost use Rattle.std.specs.Prelude.{◌≡◌, ◌≤◌, length, IfOk, IfSome};
ghost use Rattle.trace_model.specs.Reading.{EndsInRecord};
ghost use Rattle.trace_model.specs.Order.{moment_of_last};
ghost use Rattle.page_image.specs.Contents.{IsPage, records_of_page};

use page_image::{Body, Page, Place};
use record_words::size_of;
use std::alloc::Global;
use std::process::Abort;
use std::test::Fail;
use trace_model::{FillNo, MAX_SIZE, MIN_SIZE, MOMENT_LIMIT, NoMemory, RecordNo};

/// How many bytes the pages have for records.
const ROOM: usize = 256;

/// A record: its moment, and its payload as it is given.
#[derive(Clone, Copy)]
struct Given(u64, &'static [u8]);

/// Writes a payload at the beginning of its slot.
fn write(slot: &mut [u8], payload: &[u8])
    requires { length payload.now ≤ length slot.old }
{
    slot[..payload.len()].copy_from_slice(payload);
}

/// Adds a record after one of moment `prev`, and writes its payload.
fn add(rt: &impl Abort, page: &mut Page, prev: u64, given: Given)
    requires page { IsPage page.old }
    requires last { IfSome (moment_of_last (records_of_page page.old)) (λ last. last ≡ prev) }
    requires open { EndsInRecord page.old.bytes }
    ensures page { IsPage page.new }
    ensures last { IfSome (moment_of_last (records_of_page page.new)) (λ last. last ≡ given.0) }
    ensures open { EndsInRecord page.new.bytes }
{
    let len = given.1.len();
    assert!(rt; prev <= given.0);
    assert!(rt; given.0 < MOMENT_LIMIT);
    assert!(rt; len <= MAX_SIZE);
    let size = size_of(len, given.0 - prev, page.end() == 0);
    assert!(rt; size <= MAX_SIZE);
    assert!(rt; page.end() <= MAX_SIZE);
    assert!(rt; page.end() + size <= page.size());
    let place = page.put(prev, given.0, len);
    assert!(rt; len <= place.len);
    write(page.payload_mut(place), given.1);
}

/// A page of this data size without a record.
fn blank_page(rt: &impl Abort, alloc: Global, size: usize) -> Result<Page, NoMemory>
    ensures page { IfOk result (λ page. IsPage page) }
    ensures last { IfOk result (λ page. IfSome (moment_of_last (records_of_page page)) (λ last. last ≡ 0)) }
    ensures open { IfOk result (λ page. EndsInRecord page.bytes) }
{
    assert!(rt; MIN_SIZE <= size);
    assert!(rt; size <= MAX_SIZE);
    assert!(rt; size % 4 == 0);
    let body = Body::new(alloc, size)?;
    Ok(Page::fresh(body, RecordNo(7), FillNo(3)))
}

/// A page of this data size with these records.
fn page_of(rt: &impl Abort, alloc: Global, size: usize, records: &[Given]) -> Result<Page, NoMemory>
    ensures { IfOk result (λ page. IsPage page) }
{
    let mut page = blank_page(rt, alloc, size)?;
    let mut prev = 0;
    for given in records {
        add(rt, &mut page, prev, *given);
        prev = given.0;
    }
    Ok(page)
}

/// A record of five bytes, and one without a byte that comes 2^27 + 3 later.
const FAR_APART: &[Given] = &[Given(3, b"\x11\x22\x33\x44\x55"), Given(134_217_734, b"")];

/// The data that they make.
const FAR_APART_DATA: &[u8] = b"\x02\0\0\0\x11\x22\x33\x44\x55\0\0\0\
    \x7e\0\0\0\x01\0\0\0\x01\0\0\0\0\0\0\0";

/// Compares what the page of those records states of itself.
fn compare(rt: &impl Abort, page: &Page, size: usize) {
    assert!(rt; page.data() == FAR_APART_DATA);
    assert!(rt; page.time() == 3 && page.end() == 28 && page.count() == 2 && page.size() == size);
    assert!(rt; page.first() == RecordNo(7) && page.fill() == FillNo(3));
}

/// The start and the length of a place, and whether it is that of a payload of those records.
const PLACES: &[(usize, usize, bool)] = &[
    (4, 8, true),
    (4, 4, false),
    (16, 4, false),
    (24, 4, true),
];

#[test]
fn a_page_reports_what_was_put_into_it(rt: HostRuntime) -> Result<(), Fail> {
    let page = page_of(&rt, rt.alloc(), ROOM, FAR_APART)?;
    compare(&rt, &page, ROOM);
    for (start, len, is_place) in PLACES {
        let place = Place {
            start: *start,
            len: *len,
        };
        assert!(rt; page.is_place(place) == *is_place, "{len} bytes at {start}");
    }
    Ok(())
}

/// Gives a page other numbers, and then its body to another page; `fitted` is a copy of the first one.
fn compare_renumbered(rt: &impl Abort, page: Page, fitted: &Page) {
    let page = page.numbered(RecordNo(9), FillNo(4));
    assert!(rt; page.first() == RecordNo(9) && page.fill() == FillNo(4));
    assert!(rt; page.has_data_of(fitted));
    let body = page.into_body();
    assert!(rt; body.size() == ROOM);
    let mut page = Page::fresh(body, RecordNo(7), FillNo(3));
    assert!(rt; !page.has_data_of(fitted));
    let _place = page.put_payload(0, 3, b"\x11\x22\x33\x44\x55");
    assert!(rt; page.data() == &FAR_APART_DATA[..12]);
}

#[test]
fn a_page_is_copied_to_its_length_and_given_other_numbers(rt: HostRuntime) -> Result<(), Fail> {
    let page = page_of(&rt, rt.alloc(), ROOM, FAR_APART)?;
    let fitted = page.fitted(rt.alloc())?;
    compare(&rt, &fitted, 28);
    compare_renumbered(&rt, page, &fitted);
    Ok(())
}
