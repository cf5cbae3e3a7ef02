//! Ends of small rings: what they take, and what is left of them.
ghost use Rattle.std.specs.Prelude.{[], IfOk};
ghost use Rattle.ring_shared.specs.Value.{SameWriter};
ghost use Rattle.ring_shared.specs.Calls.{IsWriter};
ghost use Rattle.ring_shared.specs.Takes.{SameRing};

use page_numbers::Parcel;
use ring_shared::{Writer, ring};
use std::alloc::Global;
use std::process::Abort;
use std::test::Fail;
use trace_model::{CpuId, NoMemory};
use trace_run::readers::{Found, Ledger, ReaderEnd, settle};

/// The bytes of data of a page, which four records of four bytes of payload fill.
const SIZE: usize = 32;

/// A ring of two pages in which `written` records are written; what each take finds; of each parcel its fill, its first
/// number, how many records it has, and how many numbers are missing before it; and the first number of the page that
/// is left, if there is one, and how many records it has.
struct Row {
    written: u64,
    found: &'static [Found],
    taken: &'static [[u64; 4]],
    unread: Option<[u64; 2]>,
}

const ROWS: &[Row] = &[
    // Nothing is written: nothing is taken, and nothing left.
    Row {
        written: 0,
        found: &[Found::Empty, Found::Empty],
        taken: &[],
        unread: None,
    },
    // A page that isn't closed is left.
    Row {
        written: 3,
        found: &[Found::Empty],
        taken: &[],
        unread: Some([0, 3]),
    },
    // A page is taken, and the next one is left.
    Row {
        written: 5,
        found: &[Found::Page, Found::Empty],
        taken: &[[0, 0, 4, 0]],
        unread: Some([4, 1]),
    },
    // A page was overwritten before.
    Row {
        written: 12,
        found: &[Found::Page, Found::Empty],
        taken: &[[1, 4, 4, 4]],
        unread: Some([8, 4]),
    },
];

/// Writes `count` records.
fn write_all(rt: &impl Abort, writer: Writer, count: u64) -> Writer
    requires { IsWriter writer }
    ensures same { SameWriter writer result }
    ensures writer { IsWriter result }
{
    let mut writer = writer;
    for moment in 0..count {
        let written = writer.write(moment, b"data");
        assert!(rt; written.is_ok());
    }
    writer
}

/// Takes as often as something is to be found.
fn take_all(
    rt: &impl Abort,
    alloc: Global,
    end: ReaderEnd,
    found: &[Found],
) -> Result<ReaderEnd, NoMemory>
    ensures { IfOk result (λ after. SameRing end.reader after.reader) }
{
    let mut end = end;
    for wanted in found {
        let (next, found) = end.take(alloc)?;
        assert!(rt; found == *wanted);
        end = next;
    }
    Ok(end)
}

/// What a row says of a parcel.
fn numbers_of(parcel: &Parcel) -> [u64; 4] {
    [
        parcel.fill().0,
        parcel.first().0,
        parcel.count(),
        parcel.missed(),
    ]
}

/// The ledger has the parcels of the row, and its page that is left.
fn compare(rt: &impl Abort, ledger: &Ledger, row: &Row) {
    assert!(rt; ledger.taken.len() == row.taken.len());
    for (parcel, wanted) in ledger.taken.iter().zip(row.taken) {
        assert!(rt; numbers_of(parcel) == *wanted);
    }
    match ledger.settled.unread() {
        Some(page) => assert!(rt; row.unread == Some([page.first().0, page.count()])),
        None => assert!(rt; row.unread.is_none()),
    }
}

/// Writes, takes and settles what a row says.
fn run(rt: &impl Abort, alloc: Global, row: &Row) -> Result<(), NoMemory> {
    let (writer, reader) = ring(alloc, 2, SIZE)?;
    let end = ReaderEnd::new(alloc, CpuId(0), SIZE, reader);
    let writer = write_all(rt, writer, row.written);
    let end = take_all(rt, alloc, end, row.found)?;
    match end.last() {
        Some(parcel) => assert!(rt; Some(&numbers_of(parcel)) == row.taken.last()),
        None => assert!(rt; row.taken.is_empty()),
    }
    assert!(rt; end.has_all(&writer));
    assert!(rt; writer.depth() == 0);
    compare(rt, &settle(alloc, writer, end), row);
    Ok(())
}

#[test]
fn an_end_keeps_what_it_takes(rt: HostRuntime) -> Result<(), Fail> {
    for row in ROWS {
        run(&rt, rt.alloc(), row)?;
    }
    Ok(())
}
