//! A CPU's writer lines, obeyed one after the other.
ghost use Rattle.std.specs.Prelude.{◌≡◌, ℕ, OnOk};
ghost use Rattle.text_model.specs.ScriptLimits.{IsCommandWithin};
ghost use Rattle.line_model.specs.Lines.{writer_lines};
ghost use Rattle.line_model.specs.ReplayedLines.{commands_of};
ghost use Rattle.trace_script.specs.ScriptTypes.{shown_command};
ghost use Rattle.ring_steps.specs.NewRings.{first_writing};
ghost use Rattle.trace_run.specs.writers.Asking.{Asks};
ghost use Rattle.trace_run.specs.writers.LineWriters.{IsLineWriter, MakesLine, MakesLines};
ghost use Rattle.trace_run.specs.writers.Obeying.{AreLinesOf, ObeysLines};

use crate::writers::end::WriterEnd;
use crate::writers::gate::Gate;
use crate::writers::line_indexes::LineIndexes;
use crate::writers::writer::LineWriter;
use trace_model::{CpuId, FillNo};
use trace_script::{Command, Script};

/// One line. For a line of the reader or of a collector the writer does nothing.
fn obey_line<'a, G: Gate>(
    writer: &mut LineWriter<'a>,
    gate: &G,
    cpu: CpuId,
    command: Command<'a>,
) -> Result<(), FillNo>
    requires is { IsLineWriter writer.old }
    requires within { (cpus collectors : ℕ) × IsCommandWithin cpus collectors (shown_command command) }
    ensures line { OnOk result (MakesLine (shown_command command.entry) writer.old writer.new) }
    ensures gate { Asks G.answers gate.now cpu.0 writer.old writer.new result }
{
    match command {
        Command::Begin {
            moment,
            payload,
            ..
        } => {
            writer.begin(cpu, moment.0, payload);
            Ok(())
        }
        Command::Step { count, .. } => writer.step(gate, cpu, count),
        Command::Finish { .. } => writer.finish(gate, cpu),
        Command::Write {
            moment,
            payload,
            ..
        } => writer.write(gate, cpu, moment.0, payload),
        Command::Close { .. } => writer.close(gate, cpu),
        Command::StepReader { .. } => Ok(()),
        Command::Take { .. } => Ok(()),
        Command::Wish { .. } => Ok(()),
        Command::Deliver { .. } => Ok(()),
    }
}

/// Obeys the lines of these indexes in the script.
fn obey_indexed<'a, G: Gate>(
    writer: &mut LineWriter<'a>,
    script: &'a Script,
    indexes: &LineIndexes,
    cpu: CpuId,
    gate: &G,
) -> Result<(), FillNo>
    requires is { IsLineWriter writer.old }
    requires indexes { AreLinesOf cpu.0 script.now.commands indexes.now }
    ensures lines { OnOk result (MakesLines (writer_lines cpu.0 (commands_of script.now.commands))
        writer.old writer.new) }
    ensures gate { Asks G.answers gate.now cpu.0 writer.old writer.new result }
{
    let commands = script.commands();
    for index in 0..indexes.len() {
        let line_index = indexes.get(index);
        obey_line(writer, gate, cpu, commands.line(line_index).command)?;
    }
    Ok(())
}

/// Obeys the lines of a CPU's writer, which have these indexes in the script, on a new ring; then finishes the frames
/// that are left, the top one first. After each fill that the writer closes, the gate is asked, and gets one more than
/// the number of that fill (the number of closed fills, if the ring's first one is 0). Where it doesn't let the writer
/// pass, what it got is answered at once.
pub fn obey_lines<G: Gate>(
    end: WriterEnd,
    script: &Script,
    indexes: &LineIndexes,
    cpu: CpuId,
    gate: &G,
) -> Result<WriterEnd, FillNo>
    requires first { end.part ≡ first_writing end.shape }
    requires indexes { AreLinesOf cpu.0 script.now.commands indexes.now }
    ensures { ObeysLines G.answers gate.now cpu.0 script.now.commands end result }
{
    let WriterEnd { writer } = end;
    let mut writer = LineWriter::new(writer);
    obey_indexed(&mut writer, script, indexes, cpu, gate)?;
    writer.finish_rest(gate, cpu)?;
    let LineWriter { writer, .. } = writer;
    Ok(WriterEnd { writer })
}
