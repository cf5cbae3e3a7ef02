//! The command that a line spells.
ghost use Rattle.std.specs.Prelude.{◌≡◌, ◌≢◌, ◌≤◌, ℕ, false, [], ◌∷◌, bytes_eq, codes};
ghost use Rattle.text_model.specs.Text.{fields_of};
ghost use Rattle.text_model.specs.Script.{command_of, command_in};
ghost use Rattle.text_model.specs.CommandReading.{deliver_in};
ghost use Rattle.trace_script.specs.Kept.{shown, PutsCommand};
ghost use Rattle.trace_script.specs.ScriptFaults.{Fails, Gives};
ghost use Rattle.trace_script.specs.ScriptFields.{AreFields, fields_seen};

use crate::fault::LineFault;
use crate::fields::{Fields, fields_of, is_letter, is_well_spaced, is_whole};
use crate::kept::{Kind, Narrow, asked};
use crate::payload::put_payload;
use crate::values::{count_of, cpu_of, number_below, number_of};

/// `d K cX F`
#[tactic(auto, unfolding(text_model::specs::CommandReading::deliver_in))]
fn deliver_in(
    cpus: u32,
    collectors: u8,
    collector: &[u8],
    cpu: &[u8],
    fill: &[u8],
    payloads: &mut Vec<u8>,
) -> Result<Narrow, LineFault>
    requires { cpus ≤ 256 }
    ensures { PutsCommand result payloads.old.items payloads.new.items
        (deliver_in cpus collectors collector.now cpu.now fill.now) }
{
    let collector = number_below(u64::from(collectors), collector)?;
    let cpu = cpu_of(cpus, cpu)?;
    let fill = number_of(fill)?;
    let Ok(()) = payloads.push(collector as u8) else {
        return Err(LineFault::NoMemory);
    };
    Ok(asked(Kind::Deliver, cpu, fill))
}

/// The command of two fields.
#[tactic(auto, unfolding(text_model::specs::Script::command_of))]
fn order_of_two(cpus: u32, collectors: u8, first: &[u8], second: &[u8]) -> Result<Narrow, LineFault>
    requires { cpus ≤ 256 }
    ensures gives { Gives (shown []) result
        (command_of cpus collectors (first.now ∷ second.now ∷ [])) }
    ensures never_out_of_memory { result ≢ Err LineFault.NoMemory }
{
    if is_letter(second, b'f') {
        let cpu = cpu_of(cpus, first)?;
        return Ok(asked(Kind::Finish, cpu, 0));
    }
    if is_letter(second, b'c') {
        let cpu = cpu_of(cpus, first)?;
        return Ok(asked(Kind::Close, cpu, 0));
    }
    if is_letter(second, b't') {
        let cpu = cpu_of(cpus, first)?;
        return Ok(asked(Kind::Take, cpu, 0));
    }
    if is_letter(second, b'a') {
        let cpu = cpu_of(cpus, first)?;
        return Ok(asked(Kind::Wish, cpu, 0));
    }
    Err(LineFault::BadLine)
}

/// The command of three fields.
#[tactic(auto, unfolding(text_model::specs::Script::command_of))]
fn order_of_three(
    cpus: u32,
    collectors: u8,
    first: &[u8],
    second: &[u8],
    third: &[u8],
) -> Result<Narrow, LineFault>
    requires { cpus ≤ 256 }
    ensures gives { Gives (shown []) result
        (command_of cpus collectors (first.now ∷ second.now ∷ third.now ∷ [])) }
    ensures never_out_of_memory { result ≢ Err LineFault.NoMemory }
{
    if is_letter(second, b's') {
        let cpu = cpu_of(cpus, first)?;
        let count = count_of(third)?;
        return Ok(asked(Kind::Step, cpu, count));
    }
    if is_letter(second, b'r') {
        let cpu = cpu_of(cpus, first)?;
        let count = count_of(third)?;
        return Ok(asked(Kind::StepReader, cpu, count));
    }
    Err(LineFault::BadLine)
}

/// `cX b T HEX` or `cX w T HEX`: the command of a record's four fields, of which the first one isn't the word of a
/// delivery.
#[inline(always)]
#[tactic(auto, unfolding(text_model::specs::Script::command_of, text_model::specs::CommandReading::record_in))]
fn record_of_four(
    cpus: u32,
    first: &[u8],
    second: &[u8],
    third: &[u8],
    fourth: &[u8],
    payloads: &mut Vec<u8>,
) -> Result<Narrow, LineFault>
    requires cpus { cpus ≤ 256 }
    requires no_delivery { bytes_eq first.now (codes "d") ≡ false }
    ensures { (collectors : ℕ) → PutsCommand result payloads.old.items payloads.new.items
        (command_of cpus collectors (first.now ∷ second.now ∷ third.now ∷ fourth.now ∷ [])) }
{
    let is_write = is_letter(second, b'w');
    if !is_write && !is_letter(second, b'b') {
        return Err(LineFault::BadLine);
    }
    let cpu = cpu_of(cpus, first)?;
    let moment = number_of(third)?;
    put_payload(payloads, fourth)?;
    if is_write {
        return Ok(asked(Kind::Write, cpu, moment));
    }
    Ok(asked(Kind::Begin, cpu, moment))
}

/// The command of four fields.
#[tactic(auto, unfolding(text_model::specs::Script::command_of, text_model::specs::CommandReading::deliver_in))]
fn order_of_four(
    cpus: u32,
    collectors: u8,
    first: &[u8],
    second: &[u8],
    third: &[u8],
    fourth: &[u8],
    payloads: &mut Vec<u8>,
) -> Result<Narrow, LineFault>
    requires { cpus ≤ 256 }
    ensures { PutsCommand result payloads.old.items payloads.new.items
        (command_of cpus collectors (first.now ∷ second.now ∷ third.now ∷ fourth.now ∷ [])) }
{
    if is_letter(first, b'd') {
        return deliver_in(cpus, collectors, second, third, fourth, payloads);
    }
    record_of_four(cpus, first, second, third, fourth, payloads)
}

/// The command of a line's fields, with all that follows the third one as one field.
fn order_of(
    cpus: u32,
    collectors: u8,
    fields: Fields,
    payloads: &mut Vec<u8>,
) -> Result<Narrow, LineFault>
    requires { cpus ≤ 256 }
    ensures { PutsCommand result payloads.old.items payloads.new.items
        (command_of cpus collectors (fields_seen fields.entry)) }
{
    match fields {
        Fields::One => Err(LineFault::BadLine),
        Fields::Two(first, second) => order_of_two(cpus, collectors, first, second),
        Fields::Three(first, second, third) => {
            order_of_three(cpus, collectors, first, second, third)
        }
        Fields::More(first, second, third, rest) => {
            order_of_four(cpus, collectors, first, second, third, rest, payloads)
        }
    }
}

/// The fault of a line with these fields, if this fault was found in them: a fault of the line's form counts before one
/// of a value.
fn fault_of(line: &[u8], fields: Fields, fault: LineFault) -> LineFault
    requires { AreFields fields (fields_of line.now) }
    ensures { (cpus collectors : ℕ) → Fails fault (command_of cpus collectors (fields_seen fields.entry))
        → Fails result (command_in cpus collectors line.now) }
{
    if !is_whole(fields) {
        return LineFault::BadLine;
    }
    if !is_well_spaced(line) {
        return LineFault::BadLine;
    }
    fault
}

/// The command that a line spells, for these numbers of CPUs and collectors. Its payload is appended to those that are
/// there.
///
/// A line whose fields spell a command is of the right form, so that the form is looked at only if they don't.
pub(crate) fn order_in(
    cpus: u32,
    collectors: u8,
    line: &[u8],
    payloads: &mut Vec<u8>,
) -> Result<Narrow, LineFault>
    requires { cpus ≤ 256 }
    ensures { PutsCommand result payloads.old.items payloads.new.items
        (command_in cpus collectors line.now) }
{
    let fields = fields_of(line);
    match order_of(cpus, collectors, fields, payloads) {
        Ok(order) => Ok(order),
        Err(fault) => Err(fault_of(line, fields, fault)),
    }
}
