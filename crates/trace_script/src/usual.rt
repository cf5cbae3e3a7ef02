//! The forms that nearly all lines of a long script have, each read in one pass up to its line feed. A line of another
//! form, and one with a number of many digits or outside its limits, is left to the reader of any line.
ghost use Rattle.std.specs.Prelude.{◌≡◌, ◌<◌, ◌≤◌, ℕ, List, [], ◌∷◌, Ok, IfSome, MatchOption};
ghost use Rattle.text_model.specs.ScriptLines.{decimal_in, payload_in, cpu_in};
ghost use Rattle.text_model.specs.Script.{count_in, SpellsCommand};
ghost use Rattle.trace_script.specs.Kept.{command_shown, shown};
ghost use Rattle.trace_script.specs.UsualLines.{BeginsBehindCpu, IsUsual, IsUsualBehindCpu};

use crate::kept::{Kind, Narrow, asked};
use crate::payload::payload_cut;
use crate::values::{cpu_cut, number_cut};
use text_model::{MAX_LINE_STEPS, MIN_LINE_STEPS};
use trace_model::CpuId;

/// What a line asks for, without its payload, and the text after the line.
#[derive(Clone, Copy)]
pub(crate) struct UsualLine<'a> {
    /// What it asks for.
    pub(crate) order: Narrow,
    /// The text after its line feed.
    pub(crate) rest: &'a [u8],
}

/// What a word alone with a CPU asks for.
#[inline(always)]
fn kind_alone(word: u8) -> Option<Kind>
    ensures { IfSome result (λ kind. (cpus collectors cpu : ℕ) (x : List ℕ) → cpu_in cpus x ≡ Ok cpu
        → SpellsCommand cpus collectors (command_shown kind cpu 0 []) (x ∷ (word ∷ []) ∷ [])) }
{
    match word {
        b'f' => Some(Kind::Finish),
        b'c' => Some(Kind::Close),
        b't' => Some(Kind::Take),
        b'a' => Some(Kind::Wish),
        _ => None,
    }
}

/// What a word with a CPU and a number of steps asks for.
#[inline(always)]
fn kind_of_steps(word: u8) -> Option<Kind>
    ensures { IfSome result (λ kind. (cpus collectors cpu count : ℕ) (x k : List ℕ) → cpu_in cpus x ≡ Ok cpu
        → count_in k ≡ Ok count
        → SpellsCommand cpus collectors (command_shown kind cpu count []) (x ∷ (word ∷ []) ∷ k ∷ [])) }
{
    match word {
        b's' => Some(Kind::Step),
        b'r' => Some(Kind::StepReader),
        _ => None,
    }
}

/// What a word with a CPU, a moment and a payload asks for.
#[inline(always)]
fn kind_of_record(word: u8) -> Option<Kind>
    ensures { IfSome result (λ kind. (cpus collectors cpu moment : ℕ) (x t hex payload : List ℕ)
        → cpu_in cpus x ≡ Ok cpu
        → decimal_in t ≡ Ok moment
        → payload_in hex ≡ Ok payload
        → SpellsCommand cpus collectors (command_shown kind cpu moment payload) (x ∷ (word ∷ []) ∷ t ∷ hex ∷ [])) }
{
    match word {
        b'w' => Some(Kind::Write),
        b'b' => Some(Kind::Begin),
        _ => None,
    }
}

/// The line's order and the text after it, from what follows `cX s ` or `cX r `.
#[inline(always)]
fn steps_line(word: u8, cpu: CpuId, text: &[u8]) -> Option<UsualLine<'_>>
    requires { cpu.0 < 256 }
    ensures { IfSome result (λ line. (cpus collectors : ℕ)
        → BeginsBehindCpu cpus collectors cpu.0 (word ∷ 32 ∷ text.now) line.rest.now (shown [] line.order)) }
{
    let count = number_cut(text, b'\n')?;
    if count.number < MIN_LINE_STEPS || count.number > MAX_LINE_STEPS {
        return None;
    }
    let kind = kind_of_steps(word)?;
    Some(UsualLine {
        order: asked(kind, cpu, count.number),
        rest: count.rest,
    })
}

/// The line's order and the text after it, from what follows `cX b ` or `cX w `.
#[inline(always)]
fn record_line<'a>(
    word: u8,
    cpu: CpuId,
    text: &'a [u8],
    payloads: &mut Vec<u8>,
) -> Option<UsualLine<'a>>
    requires { cpu.0 < 256 }
    ensures { MatchOption result (payloads.new.items ≡ payloads.old.items) (λ line. (cpus collectors : ℕ)
        → IsUsualBehindCpu cpus collectors cpu.0 (word ∷ 32 ∷ text.now) payloads.old.items payloads.new.items line) }
{
    let moment = number_cut(text, b' ')?;
    let kind = kind_of_record(word)?;
    let rest = payload_cut(payloads, moment.rest)?;
    Some(UsualLine {
        order: asked(kind, cpu, moment.number),
        rest,
    })
}

/// The line's order and the text after it, from what follows `cX `.
#[inline(always)]
fn line_of_cpu<'a>(cpu: CpuId, text: &'a [u8], payloads: &mut Vec<u8>) -> Option<UsualLine<'a>>
    requires { cpu.0 < 256 }
    ensures { MatchOption result (payloads.new.items ≡ payloads.old.items) (λ line. (cpus collectors : ℕ)
        → IsUsualBehindCpu cpus collectors cpu.0 text.now payloads.old.items payloads.new.items line) }
{
    let [word, end, rest @ ..] = text else {
        return None;
    };
    if *end == b'\n' {
        let kind = kind_alone(*word)?;
        return Some(UsualLine {
            order: asked(kind, cpu, 0),
            rest,
        });
    }
    if *end != b' ' {
        return None;
    }
    if *word == b's' || *word == b'r' {
        return steps_line(*word, cpu, rest);
    }
    record_line(*word, cpu, rest, payloads)
}

/// A line of the form `d K cX F`.
fn delivery_line<'a>(
    cpus: u32,
    collectors: u8,
    text: &'a [u8],
    payloads: &mut Vec<u8>,
) -> Option<UsualLine<'a>>
    requires { cpus ≤ 256 }
    ensures { MatchOption result (payloads.new.items ≡ payloads.old.items) (λ line.
        IsUsual cpus collectors text.now payloads.old.items payloads.new.items line) }
{
    let [word, space, given @ ..] = text else {
        return None;
    };
    if *word != b'd' || *space != b' ' {
        return None;
    }
    let collector = number_cut(given, b' ')?;
    if collector.number >= u64::from(collectors) {
        return None;
    }
    let cpu = cpu_cut(cpus, collector.rest)?;
    let fill = number_cut(cpu.rest, b'\n')?;
    let Ok(()) = payloads.push(collector.number as u8) else {
        return None;
    };
    Some(UsualLine {
        order: asked(Kind::Deliver, CpuId(cpu.number as u32), fill.number),
        rest: fill.rest,
    })
}

/// The first line of a text, if it is a usual one: its payload is appended to those that are there. If the answer is
/// none, nothing is appended, and nothing is said of the text.
#[inline(always)]
pub(crate) fn usual_line<'a>(
    cpus: u32,
    collectors: u8,
    text: &'a [u8],
    payloads: &mut Vec<u8>,
) -> Option<UsualLine<'a>>
    requires { cpus ≤ 256 }
    ensures { MatchOption result (payloads.new.items ≡ payloads.old.items) (λ line.
        IsUsual cpus collectors text.now payloads.old.items payloads.new.items line) }
{
    if let Some(cpu) = cpu_cut(cpus, text) {
        return line_of_cpu(CpuId(cpu.number as u32), cpu.rest, payloads);
    }
    delivery_line(cpus, collectors, text, payloads)
}
