//! The reader of a script's text: line by line, in one pass.
ghost use Rattle.std.specs.Prelude.{◌≡◌, ◌≤◌, ◌<◌, [], length, IfOk, IfErr};
ghost use Rattle.text_model.specs.HeaderReading.{numbered_reading, significant_lines_after, end_line_after};
ghost use Rattle.text_model.specs.Script.{ParsesScript, command_in};
ghost use Rattle.text_model.specs.ScriptReading.{commands_from, script_from, script_in};
ghost use Rattle.trace_script.specs.Kept.{PutsCommandAt, PutsNext, BeginAsCommands, IfNext};
ghost use Rattle.trace_script.specs.ScriptFaults.{GivesAt, BeginsAsScript, ReportsFirstFault};

use crate::commands::Commands;
use crate::fault::{ScriptFault, reading_at};
use crate::header::{read_header, read_start};
use crate::kept::{Narrow, placed};
use crate::kept_lines::KeptLines;
use crate::lines::{Lines, NumberedLine};
use crate::orders::order_in;
use crate::script::Script;
use crate::usual::usual_line;
use std::alloc::Global;
use trace_model::FillNo;

/// The command of a line, whose payload is appended to those that are there.
fn order_at(
    cpus: u32,
    collectors: u8,
    line: NumberedLine,
    payloads: &mut Vec<u8>,
) -> Result<Narrow, ScriptFault>
    requires { cpus ≤ 256 }
    ensures { PutsCommandAt result payloads.old.items payloads.new.items
        (numbered_reading line.entry.number (command_in cpus collectors line.entry.text.now)) }
{
    let order = order_in(cpus, collectors, line.text, payloads);
    reading_at(line.number, order)
}

/// The command of the next significant line, if there is one, whatever its form.
#[inline(never)]
fn next_of_any_form(
    cpus: u32,
    collectors: u8,
    lines: &mut Lines,
    payloads: &mut Vec<u8>,
) -> Result<Option<Narrow>, ScriptFault>
    requires { cpus ≤ 256 }
    ensures next { PutsNext cpus collectors result payloads.old.items payloads.new.items
        (significant_lines_after lines.old.passed lines.old.rest.now) lines.new.passed
        (significant_lines_after lines.new.passed lines.new.rest.now) }
    ensures later { IfNext result (lines.old.passed < lines.new.passed) }
    ensures shorter { IfNext result (length lines.new.rest.now < length lines.old.rest.now) }
{
    let Some(line) = lines.next_significant() else {
        return Ok(None);
    };
    let order = order_at(cpus, collectors, line, payloads)?;
    Ok(Some(order))
}

/// The order of the next line, if there is one, by a shorter way for a line of a usual form, which nearly all have.
#[inline(always)]
fn next_order(
    cpus: u32,
    collectors: u8,
    lines: &mut Lines,
    payloads: &mut Vec<u8>,
) -> Result<Option<Narrow>, ScriptFault>
    requires { cpus ≤ 256 }
    ensures next { PutsNext cpus collectors result payloads.old.items payloads.new.items
        (significant_lines_after lines.old.passed lines.old.rest.now) lines.new.passed
        (significant_lines_after lines.new.passed lines.new.rest.now) }
    ensures later { IfNext result (lines.old.passed < lines.new.passed) }
    ensures shorter { IfNext result (length lines.new.rest.now < length lines.old.rest.now) }
{
    if let Some(line) = usual_line(cpus, collectors, lines.rest, payloads) {
        lines.pass_to(line.rest);
        return Ok(Some(line.order));
    }
    next_of_any_form(cpus, collectors, lines, payloads)
}

/// Room for that many bytes, or none if that much is refused at once: then it is made little by little.
#[inline(always)]
fn room_for(alloc: Global, bytes: usize) -> Vec<u8>
    ensures { result.items ≡ [] }
{
    match Vec::with_capacity(alloc, bytes) {
        Ok(room) => room,
        Err(_) => Vec::new(alloc),
    }
}

/// The commands of the lines that are left. It isn't inlined: in a function of its own its numbers stay in registers.
#[inline(never)]
fn read_commands(
    alloc: Global,
    cpus: u32,
    collectors: u8,
    lines: &mut Lines,
) -> Result<Commands, ScriptFault>
    requires { cpus ≤ 256 }
    ensures gives { GivesAt (λ commands. commands) result
        (commands_from cpus collectors (significant_lines_after lines.old.passed lines.old.rest.now)) }
    ensures memory { result ≡ Err ScriptFault.NoMemory
        → BeginAsCommands cpus collectors (significant_lines_after lines.old.passed lines.old.rest.now) }
{
    let mut kept = KeptLines::new(alloc);
    // Two digits spell a byte of a payload.
    let mut payloads = room_for(alloc, lines.rest.len() / 2);
    while let Some(order) = next_order(cpus, collectors, lines, &mut payloads)? {
        let above = lines.passed - kept.len() as u64;
        let line = placed(order, above, payloads.len());
        let Ok(()) = kept.push(line) else {
            return Err(ScriptFault::NoMemory);
        };
    }
    Ok(Commands::of(kept, payloads))
}

/// The script that a text spells, by `script_from` of the definitions over the text's lines.
#[tactic(auto, unfolding(text_model::specs::ScriptReading::script_from))]
fn script_from(alloc: Global, text: &[u8]) -> Result<Script, ScriptFault>
    ensures gives { GivesAt (λ script. script) result
        (script_from (end_line_after 0 text.now) (significant_lines_after 0 text.now)) }
    ensures memory { result ≡ Err ScriptFault.NoMemory → BeginsAsScript text.now }
{
    let mut lines = Lines::of(text);
    let header = read_header(&mut lines)?;
    let start = read_start(&mut lines, header.pages)?;
    let commands = read_commands(alloc, header.cpus, header.collectors, &mut lines)?;
    Ok(Script::of(header, FillNo(start), commands))
}

/// The script that a text spells, or its first fault.
pub fn read_script(alloc: Global, text: &[u8]) -> Result<Script, ScriptFault>
    // What is read is the script of the text, or its fault, unless memory was refused.
    ensures reading { GivesAt (λ script. script) result (script_in text.now) }
    // So it is what the text spells, which is one script.
    ensures script { IfOk result (λ script. ParsesScript text.now script) }
    // A fault is the text's first one. If memory was refused, the text begins with the lines of a header and at least
    // one command's, and none of these lines has a fault.
    ensures fault { IfErr result (λ fault. ReportsFirstFault text.now fault) }
{
    script_from(alloc, text)
}

/// The script that a text spells, or its first fault. The text is given back.
pub fn read_text(alloc: Global, text: Vec<u8>) -> Result<Script, ScriptFault>
    ensures reading { GivesAt (λ script. script) result (script_in text.items) }
    ensures script { IfOk result (λ script. ParsesScript text.items script) }
    ensures fault { IfErr result (λ fault. ReportsFirstFault text.items fault) }
{
    read_script(alloc, text.as_slice())
}
