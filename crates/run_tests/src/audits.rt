//! Collectors and ledgers, and what their audit answers. The bytes of parcels are written out: the numbers on two
//! lines, the image's header on the next, and the data after it.
use collector::Collector;
use page_image::Body;
use page_numbers::Parcel;
use ring_shared::{Settled, ring, settle};
use std::process::Abort;
use std::test::Fail;
use trace_model::{CpuId, FillNo};
use trace_run::{AuditFault, Audited, Ledger, audit};

/// Fill 0 with number 0: `11111111` at 1.
const FIRST: &[u8] = b"\0\0\0\0\0\0\0\0\0\0\0\0\0\0\0\0\
    \0\0\0\0\0\0\0\0\0\0\0\0\0\0\0\0\
    \x01\0\0\0\0\0\0\0\x08\0\0\0\0\0\0\0\
    \x01\0\0\0\x11\x11\x11\x11";

/// The record of `FIRST` in a page that ends in padding.
const PADDED: &[u8] = b"\0\0\0\0\0\0\0\0\0\0\0\0\0\0\0\0\
    \0\0\0\0\0\0\0\0\0\0\0\0\0\0\0\0\
    \x01\0\0\0\0\0\0\0\x10\0\0\0\0\0\0\0\
    \x01\0\0\0\x11\x11\x11\x11\x1d\0\0\0\xff\xff\xff\xff";

/// Fill 0 with number 0 in another run: `22222222` at 1.
const OTHER: &[u8] = b"\0\0\0\0\0\0\0\0\0\0\0\0\0\0\0\0\
    \0\0\0\0\0\0\0\0\0\0\0\0\0\0\0\0\
    \x01\0\0\0\0\0\0\0\x08\0\0\0\0\0\0\0\
    \x01\0\0\0\x22\x22\x22\x22";

/// Fill 2 with number 2: `33333333` at 3; number 1 is missing.
const SECOND: &[u8] = b"\0\0\0\0\0\0\0\0\x02\0\0\0\0\0\0\0\
    \x02\0\0\0\0\0\0\0\x01\0\0\0\0\0\0\0\
    \x03\0\0\0\0\0\0\0\x08\0\0\x80\0\0\0\0\
    \x01\0\0\0\x33\x33\x33\x33";

/// What a collector was given, what was taken of each CPU, and what the audit answers.
struct Row {
    delivered: &'static [&'static [u8]],
    taken: &'static [&'static [&'static [u8]]],
    answer: Result<Audited, AuditFault>,
}

/// A collector is a run's if it keeps what was taken, whatever the padding of its pages and the order of the ledgers;
/// else the audit names the least stray parcel, or, if there is none, the least that is lacking.
const ROWS: &[Row] = &[
    Row {
        delivered: &[],
        taken: &[&[FIRST]],
        answer: Err(AuditFault::Lacks(CpuId(0), FillNo(0))),
    },
    Row {
        delivered: &[OTHER],
        taken: &[&[FIRST]],
        answer: Err(AuditFault::Stray(CpuId(0), FillNo(0))),
    },
    Row {
        delivered: &[SECOND, FIRST],
        taken: &[&[FIRST, SECOND]],
        answer: Ok(Audited),
    },
    Row {
        delivered: &[FIRST],
        taken: &[&[FIRST, SECOND]],
        answer: Err(AuditFault::Lacks(CpuId(0), FillNo(2))),
    },
    Row {
        delivered: &[SECOND, FIRST],
        taken: &[&[FIRST]],
        answer: Err(AuditFault::Stray(CpuId(0), FillNo(2))),
    },
    Row {
        delivered: &[PADDED],
        taken: &[&[FIRST]],
        answer: Ok(Audited),
    },
    Row {
        delivered: &[FIRST, SECOND],
        taken: &[&[], &[SECOND, FIRST]],
        answer: Ok(Audited),
    },
];

/// A ring in which nothing was written, settled.
fn settled_ring(rt: &(impl Abort + AllocGlobal)) -> Result<Settled, Fail> {
    let (writer, mut reader) = ring(rt.alloc(), 2, 32)?;
    let _took = reader.take(Body::new(rt.alloc(), 32)?);
    assert!(rt; reader.empty_at() == Some(writer.done()));
    match settle(rt.alloc(), writer, reader) {
        Ok(settled) => Ok(settled),
        Err(_) => unreachable!(),
    }
}

/// The ledger of a CPU from whose ring these parcels were taken.
fn ledger_of(rt: &(impl Abort + AllocGlobal), parcels: &[&[u8]]) -> Result<Ledger, Fail> {
    let mut taken = Vec::new(rt.alloc());
    for bytes in parcels {
        taken.push(Parcel::from_bytes(rt.alloc(), bytes)?)?;
    }
    Ok(Ledger {
        settled: settled_ring(rt)?,
        taken,
    })
}

/// A collector of these parcels.
fn collector_of(rt: &impl AllocGlobal, delivered: &[&[u8]]) -> Result<Collector, Fail> {
    let mut collector = Collector::new(rt.alloc());
    for bytes in delivered {
        let _added = collector.add(Parcel::from_bytes(rt.alloc(), bytes)?);
    }
    Ok(collector)
}

/// The ledger of each CPU.
fn ledgers_of(rt: &(impl Abort + AllocGlobal), taken: &[&[&[u8]]]) -> Result<Vec<Ledger>, Fail> {
    let mut ledgers = Vec::new(rt.alloc());
    for parcels in taken {
        ledgers.push(ledger_of(rt, parcels)?)?;
    }
    Ok(ledgers)
}

/// Audits the collector of a row.
fn compare(rt: &(impl Abort + AllocGlobal), row: &Row) -> Result<(), Fail> {
    let collector = collector_of(rt, row.delivered)?;
    let ledgers = ledgers_of(rt, row.taken)?;
    assert!(rt; audit(&collector, &ledgers) == row.answer);
    Ok(())
}

#[test]
fn an_audit_names_the_least_parcel_at_fault(rt: HostRuntime) -> Result<(), Fail> {
    for row in ROWS {
        compare(&rt, row)?;
    }
    Ok(())
}
