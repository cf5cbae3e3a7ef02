//! Runs of scripts: each collector has what was written, and its audit is yes.
use crate::gates::{Asked, Counting, Meeting, Shut, ShutAt};
use crate::scripts::{ANOTHER, CLOSES, EIGHT, OVERFLOW, OVERFLOW_RECORDS, ROWS, Row, wide_script};
use collector::Collector;
use std::process::Abort;
use std::sync::Wait;
use std::sync::atomic::Ordering;
use std::test::Fail;
use std::thread::Threads;
use trace_model::{CpuId, FillNo};
use trace_run::{AuditFault, Gate, Ledger, OpenGate, Ran, ReplayFault, Who, audit, run};
use trace_script::read_script;

/// How often each script is run.
const RUNS: u32 = 150;

/// How many CPUs and collectors.
const WIDTHS: &[(u8, usize)] = &[(2, 1), (3, 16), (17, 4), (64, 1), (64, 16)];

/// How often a script of each width is run.
const WIDE_RUNS: u32 = 20;

/// An end, a fill, and whether that end asks the gate there in a run of CLOSES.
const ASKED: &[(Who, u64, bool)] = &[
    (Who::Writer, 7, false),
    (Who::Writer, 8, true),
    (Who::Writer, 9, true),
    (Who::Writer, 10, true),
    (Who::Writer, 11, false),
    (Who::Reader, 7, true),
    (Who::Reader, 9, true),
    (Who::Reader, 10, false),
];

/// Where the one end of a ring is held, until the other end has passed the second place.
const ENDS_MEET: &[(Asked, Asked)] = &[
    ((Who::Writer, 0, 1), (Who::Reader, 0, 0)),
    ((Who::Reader, 0, 0), (Who::Writer, 0, 8)),
];

/// Where an end is held, until an end of another CPU has passed the second place.
const CPUS_MEET: &[(Asked, Asked)] = &[
    ((Who::Writer, 0, 1), (Who::Reader, 1, 0)),
    ((Who::Writer, 4, 1), (Who::Reader, 0, 0)),
    ((Who::Reader, 0, 0), (Who::Writer, 4, 2)),
];

/// The run of a script, which meets no fault.
fn run_of<R: Threads + Wait + Sync + AllocGlobal, G: Gate>(
    rt: &R,
    script: &[u8],
    gate: &G,
) -> Result<Ran, Fail> {
    let script = read_script(rt.alloc(), script)?;
    Ok(run(rt, rt.alloc(), &script, gate)?)
}

/// Whether the gate ends the run of a script.
fn is_shut<R: Threads + Wait + Sync + AllocGlobal, G: Gate>(
    rt: &R,
    script: &[u8],
    gate: &G,
) -> Result<bool, Fail> {
    let script = read_script(rt.alloc(), script)?;
    let ran = run(rt, rt.alloc(), &script, gate);
    Ok(matches!(ran, Err(ReplayFault::GateShut)))
}

/// Each collector keeps what was taken in the run.
fn check_audits(rt: &impl Abort, ran: &Ran) {
    for collector in &ran.collectors {
        assert!(rt; audit(collector, &ran.ledgers).is_ok());
    }
}

/// The collector has these records of a CPU, and misses none.
fn compare(rt: &impl Abort, collector: &Collector, cpu: CpuId, records: &[(u64, &[u8])]) {
    let mut own = collector.records(cpu);
    for (moment, bytes) in records {
        match own.next() {
            Some(entry) => {
                assert!(rt; entry.moment.0 == *moment);
                assert!(rt; entry.bytes == *bytes);
            }
            None => panic!(rt; "a record lacks"),
        }
    }
    assert!(rt; own.next().is_none());
    assert!(rt; collector.missing(cpu).next().is_none());
}

/// Each collector of a row's run has the records of each CPU.
fn check<R: Threads + Wait + Abort + Sync + AllocGlobal, G: Gate>(
    rt: &R,
    row: &Row,
    gate: &G,
) -> Result<(), Fail> {
    let ran = run_of(rt, row.script, gate)?;
    assert!(rt; ran.collectors.len() == row.collectors);
    assert!(rt; ran.ledgers.len() == row.cpus.len());
    check_audits(rt, &ran);
    for collector in &ran.collectors {
        for (cpu, records) in row.cpus {
            compare(rt, collector, CpuId(*cpu), records);
        }
    }
    Ok(())
}

/// The number after the last record of a CPU.
fn end_of(ledger: &Ledger) -> Option<u64> {
    if let Some(page) = ledger.settled.unread() {
        return page.first().0.checked_add(page.count());
    }
    let parcel = ledger.taken.last()?;
    parcel.first().0.checked_add(parcel.count())
}

/// Refuses a `run` that always answers `NoThread`, and one that sends its collectors nothing.
#[test]
fn each_collector_has_what_was_written(rt: HostRuntime) -> Result<(), Fail> {
    for row in ROWS {
        for _ in 0..RUNS {
            let gate = Counting::new();
            check(&rt, row, &gate)?;
            assert!(rt; gate.writers.load(Ordering::SeqCst) == row.pages);
            assert!(rt; gate.readers.load(Ordering::SeqCst) == row.pages);
        }
    }
    Ok(())
}

/// Refuses a `run` that obeys a writer's lines before its reader begins, or after it has ended: the one that is held
/// would wait for the other in vain.
#[test]
fn writer_and_reader_work_at_once(rt: HostRuntime) -> Result<(), Fail> {
    for (held, awaited) in ENDS_MEET {
        check(&rt, &ROWS[0], &Meeting::new(*held, *awaited))?;
    }
    Ok(())
}

/// Refuses a `run` that joins the threads of a CPU before it starts another's.
#[test]
fn cpus_work_at_once(rt: HostRuntime) -> Result<(), Fail> {
    for (held, awaited) in CPUS_MEET {
        check(&rt, &ROWS[4], &Meeting::new(*held, *awaited))?;
    }
    Ok(())
}

#[test]
fn a_shut_gate_ends_a_run(rt: HostRuntime) -> Result<(), Fail> {
    for row in ROWS {
        assert!(rt; is_shut(&rt, row.script, &Shut)?);
    }
    for (who, fill, asked) in ASKED {
        let gate = ShutAt {
            who: *who,
            fill: FillNo(*fill),
        };
        assert!(rt; is_shut(&rt, CLOSES, &gate)? == *asked, "at {fill}");
    }
    Ok(())
}

#[test]
fn an_overflow_is_taken_or_missed(rt: HostRuntime) -> Result<(), Fail> {
    for _ in 0..RUNS {
        let ran = run_of(&rt, OVERFLOW, &OpenGate)?;
        check_audits(&rt, &ran);
        for ledger in &ran.ledgers {
            assert!(rt; end_of(ledger) == Some(OVERFLOW_RECORDS));
        }
    }
    Ok(())
}

/// Each collector of a run has one record of each of the first `cpus` CPUs.
fn compare_wide(rt: &impl Abort, ran: &Ran, cpus: u8, collectors: usize) {
    assert!(rt; ran.collectors.len() == collectors);
    check_audits(rt, ran);
    for collector in &ran.collectors {
        for cpu in 0..cpus {
            let bytes = [cpu, 0, 0, 0];
            compare(rt, collector, CpuId(u32::from(cpu)), &[(1, &bytes)]);
        }
    }
}

#[test]
fn many_cpus_and_collectors_are_run(rt: HostRuntime) -> Result<(), Fail> {
    for (cpus, collectors) in WIDTHS {
        let script = wide_script(rt.alloc(), *cpus, *collectors)?;
        for _ in 0..WIDE_RUNS {
            let ran = run_of(&rt, script.as_bytes(), &OpenGate)?;
            compare_wide(&rt, &ran, *cpus, *collectors);
        }
    }
    Ok(())
}

#[test]
fn a_collector_of_no_run_or_another_is_found_out(rt: HostRuntime) -> Result<(), Fail> {
    let ran = run_of(&rt, EIGHT, &OpenGate)?;
    let empty = Collector::new(rt.alloc());
    let lacks = AuditFault::Lacks(CpuId(0), FillNo(0));
    assert!(rt; audit(&empty, &ran.ledgers) == Err(lacks));
    let stray = AuditFault::Stray(CpuId(0), FillNo(0));
    for collector in &run_of(&rt, ANOTHER, &OpenGate)?.collectors {
        assert!(rt; audit(collector, &ran.ledgers) == Err(stray));
    }
    Ok(())
}
