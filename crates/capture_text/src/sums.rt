//! The line of the losses of a CPU in sum.
ghost use Rattle.std.specs.Prelude.{◌≡◌, ℕ, ◌++◌, List};
ghost use Rattle.std.specs.Fmt.{decimal};
ghost use Rattle.collector.specs.Runs.{AreMissingRuns};
ghost use Rattle.text_values.specs.Putting.{Puts};
ghost use Rattle.capture_text.specs.LossSums.{missing_count, sum_line, is_no_loss, listed_sum};
ghost use Rattle.capture_text.specs.Selection.{selection_seen};

use crate::form::Form;
use crate::selection::Selection;
use collector::Collector;
use command_io::Sink;
use itoa::Buffer;
use text_values::Out;
use trace_model::CpuId;

/// What the kernel counted of the ring of a CPU, since the trace began, in records.
#[derive(Clone, Copy, Debug, PartialEq, Eq)]
pub struct RingLosses {
    /// How many were overwritten before anyone read them.
    pub overrun: u64,
    /// How many were lost since writers interrupted one another more often than the ring has pages.
    pub commit_overrun: u64,
    /// How many were lost since a ring that isn't overwritten was full.
    pub dropped: u64,
}

/// How many numbers of a CPU are missing.
fn missing_count(collector: &Collector, cpu: CpuId) -> u128
    ensures { (runs : List (ℕ × ℕ)) → AreMissingRuns collector.now cpu.0 runs → result ≡ missing_count runs }
{
    let mut count: u128 = 0;
    for (first, last) in collector.missing(cpu) {
        count += u128::from(last.0 - first.0) + 1;
    }
    count
}

/// Whether nothing was lost.
fn is_no_loss(missing: u128, unknown: u64, ring: RingLosses) -> bool
    ensures { result ≡ is_no_loss missing unknown ring }
{
    missing == 0
        && unknown == 0
        && ring.overrun == 0
        && ring.commit_overrun == 0
        && ring.dropped == 0
}

/// Puts a number after a text.
fn put_wide<W: Sink>(out: &mut Out<'_, W>, before: &[u8], number: u128)
    ensures { Puts (before.now ++ decimal number) out.old out.new }
{
    let mut digits = Buffer::new();
    out.put(before);
    out.put(digits.format(number).as_bytes());
}

/// Puts the line as text.
fn put_text_sum<W: Sink>(
    out: &mut Out<'_, W>,
    cpu: CpuId,
    missing: u128,
    unknown: u64,
    ring: RingLosses,
)
    ensures { Puts (sum_line Form.Text cpu.0 missing unknown ring) out.old out.new }
{
    out.put_numbered(b"losses ", u64::from(cpu.0));
    put_wide(out, b" ", missing);
    out.put_numbered(b" ", unknown);
    out.put_numbered(b" ", ring.overrun);
    out.put_numbered(b" ", ring.commit_overrun);
    out.put_numbered(b" ", ring.dropped);
    out.put(b"\n");
}

/// Puts the line as JSON.
fn put_json_sum<W: Sink>(
    out: &mut Out<'_, W>,
    cpu: CpuId,
    missing: u128,
    unknown: u64,
    ring: RingLosses,
)
    ensures { Puts (sum_line Form.Json cpu.0 missing unknown ring) out.old out.new }
{
    out.put_numbered(b"{\"losses\":{\"cpu\":", u64::from(cpu.0));
    put_wide(out, b",\"missing\":", missing);
    out.put_numbered(b",\"unknown\":", unknown);
    out.put_numbered(b",\"overrun\":", ring.overrun);
    out.put_numbered(b",\"commit_overrun\":", ring.commit_overrun);
    out.put_numbered(b",\"dropped\":", ring.dropped);
    out.put(b"}}\n");
}

/// Puts the line.
fn put_sum<W: Sink>(
    out: &mut Out<'_, W>,
    form: Form,
    cpu: CpuId,
    missing: u128,
    unknown: u64,
    ring: RingLosses,
)
    ensures { Puts (sum_line form cpu.0 missing unknown ring) out.old out.new }
{
    match form {
        Form::Text => put_text_sum(out, cpu, missing, unknown, ring),
        Form::Json => put_json_sum(out, cpu, missing, unknown, ring),
    }
}

/// Puts the line of a CPU with so many losses of unknown number, if it is listed.
pub(crate) fn put_listed_sum<W: Sink>(
    out: &mut Out<'_, W>,
    form: Form,
    selection: &Selection<'_>,
    collector: &Collector,
    cpu: CpuId,
    unknown: u64,
    ring: RingLosses,
)
    ensures { (runs : List (ℕ × ℕ)) → AreMissingRuns collector.now cpu.0 runs
        → Puts (listed_sum form (selection_seen selection.now) cpu.0 (missing_count runs) unknown ring)
        out.old out.new }
{
    if !selection.has_cpu(cpu) || !selection.has_all_moments() {
        return;
    }
    let missing = missing_count(collector, cpu);
    if !is_no_loss(missing, unknown, ring) {
        put_sum(out, form, cpu, missing, unknown, ring);
    }
}
