//! The text of a run's collectors.
ghost use Rattle.std.specs.Prelude.{◌≡◌, ◌++◌, List, OnOk, OnErr, IfOk, IfSome};
ghost use Rattle.std.specs.List.{AllZip};
ghost use Rattle.trace_model.specs.Sublist.{IsPrefix};
ghost use Rattle.collector_text.specs.Prints.{StandsBetween};
ghost use Rattle.trace_run.specs.ledgers.Audit.{taken_in};
ghost use Rattle.run_command.specs.text.Verdicts.{IsVerdict, verdict_of};
ghost use Rattle.run_command.specs.text.Printing.{AuditedShown, IsAuditedPrintOf, printed_audited, printed_run};

use crate::text::audits::put_audit;
use collector::Collector;
use collector_text::{Span, put_collector};
use std::alloc::Global;
use text_values::drop_if_refused;
use trace_model::NoMemory;
use trace_run::ledgers::{AuditFault, Audited, Ledger, audit};

/// The audit of a collector.
fn answer_of(collector: &Collector, ledgers: &[Ledger]) -> Result<Audited, AuditFault>
    ensures { IsVerdict collector.now (taken_in ledgers.now) (verdict_of result) }
{
    audit(collector, ledgers)
}

/// The text of a collector under this number, and the line of its audit. Returns the place of the part between the
/// first line and the audit. The same part of an earlier collector is at `span`; if both have and miss the same, it is
/// copied. On an error a part of the text may be put.
fn put_audited(
    alloc: Global,
    out: &mut Vec<u8>,
    number: u64,
    collector: &Collector,
    ledgers: &[Ledger],
    before: Option<&Collector>,
    span: Span,
) -> Result<Span, NoMemory>
    requires { IfSome before (λ b. StandsBetween b.now out.old.items span.start span.end) }
    ensures reported { OnOk result ((shown : AuditedShown)
        × IsAuditedPrintOf (taken_in ledgers.now) collector.now shown
        × (out.new.items ≡ out.old.items ++ printed_audited number shown)) }
    ensures below { IfOk result (λ own. StandsBetween collector.now out.new.items own.start own.end) }
    ensures behind { IsPrefix out.old.items out.new.items }
{
    let own = put_collector(alloc, out, number, collector, before, span)?;
    let answer = answer_of(collector, ledgers);
    put_audit(out, answer)?;
    Ok(own)
}

/// The text of each collector, numbered from 0, and after each the line of its audit against these ledgers. On an error
/// a part of that may be put.
fn put_all(
    alloc: Global,
    out: &mut Vec<u8>,
    collectors: &[Collector],
    ledgers: &[Ledger],
) -> Result<(), NoMemory>
    ensures text { OnOk result ((shown : List AuditedShown)
        × AllZip (IsAuditedPrintOf (taken_in ledgers.now)) collectors.now shown
        × (out.new.items ≡ out.old.items ++ printed_run shown)) }
    ensures behind { IsPrefix out.old.items out.new.items }
{
    let mut before: Option<&Collector> = None;
    let mut span = Span { start: 0, end: 0 };
    for (i, collector) in collectors.iter().enumerate() {
        span = put_audited(alloc, out, i as u64, collector, ledgers, before, span)?;
        before = Some(collector);
    }
    Ok(())
}

/// Puts what a run left: the text of each collector, numbered from 0, and after each the line of its audit against
/// these ledgers. If memory is refused, the text is as before.
pub fn put_run(
    alloc: Global,
    out: &mut Vec<u8>,
    collectors: &[Collector],
    ledgers: &[Ledger],
) -> Result<(), NoMemory>
    ensures text { OnOk result ((shown : List AuditedShown)
        × AllZip (IsAuditedPrintOf (taken_in ledgers.now)) collectors.now shown
        × (out.new.items ≡ out.old.items ++ printed_run shown)) }
    ensures kept { OnErr result (out.new.items ≡ out.old.items) }
{
    let start = out.len();
    let put = put_all(alloc, out, collectors, ledgers);
    drop_if_refused(out, start, put)
}
