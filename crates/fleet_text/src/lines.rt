//! The lines of records and of runs.
ghost use Rattle.std.specs.Prelude.{◌≡◌, map, flat_map};
ghost use Rattle.text_values.specs.Putting.{Puts};
ghost use Rattle.fleet_collector.specs.Lines.{line_seen};
ghost use Rattle.fleet_text.specs.Runs.{run_seen};
ghost use Rattle.fleet_text.specs.Printing.{id_text, cpu_text, json_cpu, record_line, kind_name, run_line};

use crate::run::{FleetRun, RunKind};
use capture_text::Form;
use command_io::Sink;
use fleet_collector::FleetLine;
use parcel_streams::StreamId;
use text_values::Out;
use trace_model::CpuId;

/// Puts a stream's id.
#[tactic(auto, unfolding(crate::specs::Printing::id_text))]
fn put_id<W: Sink>(out: &mut Out<'_, W>, stream: StreamId)
    ensures { Puts (id_text stream.0) out.old out.new }
{
    out.put_hex(&stream.0.to_be_bytes());
}

/// Puts a CPU of a stream.
pub fn put_cpu<W: Sink>(out: &mut Out<'_, W>, stream: StreamId, cpu: CpuId)
    ensures { Puts (cpu_text stream.0 cpu.0) out.old out.new }
{
    put_id(out, stream);
    out.put_numbered(b":", u64::from(cpu.0));
}

/// Puts a CPU of a stream as members of an object.
pub fn put_json_cpu<W: Sink>(out: &mut Out<'_, W>, stream: StreamId, cpu: CpuId)
    ensures { Puts (json_cpu stream.0 cpu.0) out.old out.new }
{
    out.put(b"\"stream\":\"");
    put_id(out, stream);
    out.put_numbered(b"\",\"cpu\":", u64::from(cpu.0));
}

/// Puts a record's line as text.
fn put_text_line<W: Sink>(out: &mut Out<'_, W>, line: &FleetLine<'_>)
    ensures { Puts (record_line Form.Text (line_seen line.now)) out.old out.new }
{
    put_cpu(out, line.stream, line.cpu);
    out.put_numbered(b" ", line.number.0);
    out.put_numbered(b" ", line.moment.0);
    out.put(b" ");
    out.put_payload(line.bytes);
    out.put(b"\n");
}

/// Puts a record's line as JSON.
fn put_json_line<W: Sink>(out: &mut Out<'_, W>, line: &FleetLine<'_>)
    ensures { Puts (record_line Form.Json (line_seen line.now)) out.old out.new }
{
    out.put(b"{");
    put_json_cpu(out, line.stream, line.cpu);
    out.put_numbered(b",\"number\":", line.number.0);
    out.put_numbered(b",\"time\":", line.moment.0);
    out.put(b",\"data\":\"");
    out.put_hex(line.bytes);
    out.put(b"\"}\n");
}

/// Puts a record's line.
pub(crate) fn put_line<W: Sink>(out: &mut Out<'_, W>, form: Form, line: &FleetLine<'_>)
    ensures { Puts (record_line form (line_seen line.now)) out.old out.new }
{
    match form {
        Form::Text => put_text_line(out, line),
        Form::Json => put_json_line(out, line),
    }
}

/// The word for a kind of numbers.
fn kind_name(kind: RunKind) -> &'static [u8]
    ensures { result.now ≡ kind_name kind }
{
    match kind {
        RunKind::Missing => b"missing",
        RunKind::Unknown => b"unknown",
        RunKind::Undelivered => b"undelivered",
        RunKind::Forgotten => b"forgotten",
    }
}

/// Puts the line of a run as text.
fn put_text_run<W: Sink>(out: &mut Out<'_, W>, name: &[u8], run: &FleetRun)
    ensures { Puts (run_line Form.Text name.now (run_seen run.now)) out.old out.new }
{
    out.put(name);
    out.put(b" ");
    put_cpu(out, run.stream, run.cpu);
    out.put_numbered(b" ", run.first.0);
    out.put_numbered(b"-", run.last.0);
    out.put(b"\n");
}

/// Puts the line of a run as JSON.
fn put_json_run<W: Sink>(out: &mut Out<'_, W>, name: &[u8], run: &FleetRun)
    ensures { Puts (run_line Form.Json name.now (run_seen run.now)) out.old out.new }
{
    out.put(b"{");
    put_json_cpu(out, run.stream, run.cpu);
    out.put(b",\"");
    out.put(name);
    out.put_numbered(b"\":[", run.first.0);
    out.put_numbered(b",", run.last.0);
    out.put(b"]}\n");
}

/// Puts the line of a run.
fn put_run<W: Sink>(out: &mut Out<'_, W>, form: Form, name: &[u8], run: &FleetRun)
    ensures { Puts (run_line form name.now (run_seen run.now)) out.old out.new }
{
    match form {
        Form::Text => put_text_run(out, name, run),
        Form::Json => put_json_run(out, name, run),
    }
}

/// Puts the lines of records.
pub(crate) fn put_lines<W: Sink>(out: &mut Out<'_, W>, form: Form, lines: &[FleetLine<'_>])
    ensures { Puts (flat_map (record_line form) (map line_seen lines.now)) out.old out.new }
{
    for line in lines {
        put_line(out, form, line);
    }
}

/// Puts the lines of runs whose numbers are called so.
pub(crate) fn put_runs<W: Sink>(out: &mut Out<'_, W>, form: Form, name: &[u8], runs: &[FleetRun])
    ensures { Puts (flat_map (run_line form name.now) (map run_seen runs.now)) out.old out.new }
{
    for run in runs {
        put_run(out, form, name, run);
    }
}

/// Puts the lines of runs of one kind.
pub(crate) fn put_runs_of<W: Sink>(
    out: &mut Out<'_, W>,
    form: Form,
    kind: RunKind,
    runs: &[FleetRun],
)
    ensures { Puts (flat_map (run_line form (kind_name kind)) (map run_seen runs.now)) out.old out.new }
{
    put_runs(out, form, kind_name(kind), runs);
}
