//! The text of collectors.
ghost use Rattle.std.specs.Prelude.{◌≡◌, ◌≤◌, ◌∷◌, [], ◌++◌, List, OnOk, OnErr, IfOk, IfSome, codes, flat_map, length};
ghost use Rattle.std.specs.Fmt.{decimal};
ghost use Rattle.std.specs.List.{AllZip, enumerate_from, slice_range};
ghost use Rattle.trace_model.specs.Sublist.{IsPrefix};
ghost use Rattle.text_model.specs.Text.{line_feed};
ghost use Rattle.world_model.specs.Printing.{Shown, printed_collector};
ghost use Rattle.collector_text.specs.Prints.{IsPrintOf, StandsBetween, text_below};

use crate::lines::put_lines;
use crate::runs::put_runs;
use collector::Collector;
use std::alloc::Global;
use text_values::{drop_if_refused, put_number};
use trace_model::NoMemory;

/// Where a part of a text is: its bytes from `start` up to `end`.
#[derive(Clone, Copy, Debug, PartialEq, Eq)]
pub struct Span {
    pub start: usize,
    pub end: usize,
}

/// The head line of the collector of this number. On an error a part of that may be put.
fn put_head(out: &mut Vec<u8>, number: u64) -> Result<(), NoMemory>
    ensures text { OnOk result (out.new.items ≡ out.old.items
        ++ (codes "collector " ++ decimal number ++ line_feed ∷ [])) }
    ensures behind { IsPrefix out.old.items out.new.items }
{
    out.extend_from_slice(b"collector ")?;
    put_number(out, number)?;
    out.push(b'\n')?;
    Ok(())
}

/// Puts this part of the text once more. (`extend_from_within` would copy it byte by byte.)
fn put_again(out: &mut Vec<u8>, span: Span) -> Result<(), NoMemory>
    requires forward { span.start ≤ span.end }
    requires inside { span.end ≤ length out.old.items }
    ensures text { OnOk result (out.new.items ≡ out.old.items ++ slice_range out.old.items span.start span.end) }
    ensures behind { IsPrefix out.old.items out.new.items }
{
    let len = out.len();
    out.resize(len + (span.end - span.start), 0)?;
    let (text, again) = out.split_at_mut(len);
    again.copy_from_slice(&text[span.start..span.end]);
    Ok(())
}

/// The text of a collector below its head line: a line for each record, by time, and one for each run of missing
/// numbers. What is below the head line of an earlier collector's text, if there is one, is at `span`; if both have and
/// miss the same, it is put once more. On an error a part of the new text may be put.
fn put_below(
    alloc: Global,
    out: &mut Vec<u8>,
    collector: &Collector,
    before: Option<&Collector>,
    span: Span,
) -> Result<(), NoMemory>
    requires { IfSome before (λ b. StandsBetween b.now out.old.items span.start span.end) }
    ensures text { OnOk result ((shown : Shown) × IsPrintOf collector.now shown
        × (out.new.items ≡ out.old.items ++ text_below shown)) }
    ensures behind { IsPrefix out.old.items out.new.items }
{
    if let Some(other) = before {
        if other.same(collector) {
            return put_again(out, span);
        }
    }
    put_lines(alloc, out, collector)?;
    put_runs(out, collector)
}

/// The text of a collector under this number. On an error a part of that may be put.
fn put_whole(
    alloc: Global,
    out: &mut Vec<u8>,
    number: u64,
    collector: &Collector,
    before: Option<&Collector>,
    span: Span,
) -> Result<Span, NoMemory>
    requires { IfSome before (λ b. StandsBetween b.now out.old.items span.start span.end) }
    ensures reported { OnOk result ((shown : Shown) × IsPrintOf collector.now shown
        × (out.new.items ≡ out.old.items ++ printed_collector number shown)) }
    ensures below { IfOk result (λ own. StandsBetween collector.now out.new.items own.start own.end) }
    ensures behind { IsPrefix out.old.items out.new.items }
{
    put_head(out, number)?;
    let start = out.len();
    put_below(alloc, out, collector, before, span)?;
    let end = out.len();
    Ok(Span { start, end })
}

/// Puts the text of a collector under this number: a line `collector K`, below it a line for each of its records, by
/// time, and a line for each run of a CPU's missing numbers, by rising CPU and number. Returns the place of all that is
/// below the first line. What is below the first line of an earlier collector's text is at `span`; if both have and
/// miss the same, it is copied. If memory is refused, the text is as before.
pub fn put_collector(
    alloc: Global,
    out: &mut Vec<u8>,
    number: u64,
    collector: &Collector,
    before: Option<&Collector>,
    span: Span,
) -> Result<Span, NoMemory>
    requires { IfSome before (λ b. StandsBetween b.now out.old.items span.start span.end) }
    ensures reported { OnOk result ((shown : Shown) × IsPrintOf collector.now shown
        × (out.new.items ≡ out.old.items ++ printed_collector number shown)) }
    ensures below { IfOk result (λ own. StandsBetween collector.now out.new.items own.start own.end) }
    ensures kept { OnErr result (out.new.items ≡ out.old.items) }
{
    let start = out.len();
    let put = put_whole(alloc, out, number, collector, before, span);
    drop_if_refused(out, start, put)
}

/// The text of each collector, numbered from 0. On an error a part of that may be put.
fn put_all(alloc: Global, out: &mut Vec<u8>, collectors: &[Collector]) -> Result<(), NoMemory>
    ensures text { OnOk result ((shown : List Shown) × AllZip IsPrintOf collectors.now shown
        × (out.new.items ≡ out.old.items
        ++ flat_map (λ pair. printed_collector pair.0 pair.1) (enumerate_from 0 shown))) }
    ensures behind { IsPrefix out.old.items out.new.items }
{
    let mut before: Option<&Collector> = None;
    let mut span = Span { start: 0, end: 0 };
    for (i, collector) in collectors.iter().enumerate() {
        span = put_whole(alloc, out, i as u64, collector, before, span)?;
        before = Some(collector);
    }
    Ok(())
}

/// Puts the text of each collector, numbered from 0. If memory is refused, the text is as before.
pub fn put_collectors(
    alloc: Global,
    out: &mut Vec<u8>,
    collectors: &[Collector],
) -> Result<(), NoMemory>
    ensures text { OnOk result ((shown : List Shown) × AllZip IsPrintOf collectors.now shown
        × (out.new.items ≡ out.old.items
        ++ flat_map (λ pair. printed_collector pair.0 pair.1) (enumerate_from 0 shown))) }
    ensures kept { OnErr result (out.new.items ≡ out.old.items) }
{
    let start = out.len();
    let put = put_all(alloc, out, collectors);
    drop_if_refused(out, start, put)
}
