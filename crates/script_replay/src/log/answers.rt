//! What is logged of a ring's answers.
ghost use Rattle.std.specs.Prelude.{◌≡◌, ℕ, [], ◌∷◌, ◌++◌, option_to_list, OnOk};
ghost use Rattle.trace_model.specs.Steps as model;
ghost use Rattle.text_model.specs.Log.{refused};
ghost use Rattle.world_model.specs.Log.{logged};
ghost use Rattle.ring_frames.specs.Answers.{IsAnswerOf, refusal_of};
ghost use Rattle.script_replay.specs.log.LogTypes.{shown_log, shown_logged};

use crate::log::line::LogLine;
use nested_writer::WriteFault;
use ring_frames::Answer;
use trace_model::{CpuId, NoMemory};

/// Where a line of a script is, and whose ring it is for.
#[derive(Clone, Copy, Debug)]
pub struct At {
    /// The number of the line among all lines of the text, from 1.
    pub line: u64,
    /// The CPU of the ring.
    pub cpu: CpuId,
}

/// What is logged of a ring's answer, if anything.
fn log_line(at: At, answer: &Answer) -> Option<LogLine>
    ensures { (size : ℕ) (reported : model.Answer) → IsAnswerOf size answer.now reported
        → option_to_list (shown_logged result) ≡ logged at.line at.cpu.0 reported }
{
    let At { line, cpu } = at;
    match answer {
        Answer::Refused(fault) => Some(LogLine::Refused {
            line,
            cpu,
            fault: *fault,
        }),
        Answer::Taken(page, missed) => Some(LogLine::Taken {
            line,
            cpu,
            fill: page.fill(),
            first: page.first(),
            count: page.count() as u16,
            missed: *missed,
        }),
        Answer::Empty(_, _) => Some(LogLine::Empty { line, cpu }),
        Answer::Moving(fill, _) => Some(LogLine::Moving {
            line,
            cpu,
            fill: *fill,
        }),
        Answer::Wished(fill) => Some(LogLine::Asks {
            line,
            cpu,
            fill: *fill,
        }),
        Answer::Pushed
        | Answer::Going
        | Answer::Reserved(_)
        | Answer::Ended(_)
        | Answer::Gone
        | Answer::Looking(_) => None,
    }
}

/// Appends to the log what is logged of a ring's answer.
#[inline(never)]
pub fn report_any(at: At, answer: &Answer, log: &mut Vec<LogLine>) -> Result<(), NoMemory>
    ensures { OnOk result ((size : ℕ) (reported : model.Answer) → IsAnswerOf size answer.now reported
        → shown_log log.new.items ≡ shown_log log.old.items ++ logged at.line at.cpu.0 reported) }
{
    if let Some(line) = log_line(at, answer) {
        log.push(line)?;
    }
    Ok(())
}

/// Appends to the log what is logged of an answer that isn't needed any more: of most answers to a writer nothing.
#[inline(always)]
pub fn report(at: At, answer: Answer, log: &mut Vec<LogLine>) -> Result<(), NoMemory>
    ensures { OnOk result ((size : ℕ) (reported : model.Answer) → IsAnswerOf size answer reported
        → shown_log log.new.items ≡ shown_log log.old.items ++ logged at.line at.cpu.0 reported) }
{
    match answer {
        Answer::Pushed | Answer::Going | Answer::Reserved(_) | Answer::Ended(_) | Answer::Gone =>
            Ok(()),
        Answer::Refused(fault) => report_refusal(at, fault, log),
        other => report_any(at, &other, log),
    }
}

/// A writer is refused, which is logged.
#[inline(never)]
pub fn report_refusal(at: At, fault: WriteFault, log: &mut Vec<LogLine>) -> Result<(), NoMemory>
    ensures { OnOk result (shown_log log.new.items
        ≡ shown_log log.old.items ++ refused at.line at.cpu.0 (refusal_of fault) ∷ []) }
{
    let At { line, cpu } = at;
    log.push(LogLine::Refused { fault, cpu, line })?;
    Ok(())
}
