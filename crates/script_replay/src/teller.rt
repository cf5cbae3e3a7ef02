//! Tellers of a replay's steps.
ghost use Rattle.std.specs.Prelude.{◌≡◌, Bool, Option, None, flat_map, IfSome, IsFalse, OnOk};
ghost use Rattle.text_model.specs.Printing.{printed_log_line};
ghost use Rattle.script_replay.specs.log.LogTypes.{shown_log_line};
ghost use Rattle.page_numbers.specs.Parcels.{as_parcel};
ghost use Rattle.step_model.specs.RunTexts.{gain_text, gains_of};
ghost use Rattle.script_replay.specs.Known.{StepTextValue};
ghost use Rattle.script_replay.specs.Tells.{MayTell, IsStepTold, IsTextTold};

use crate::asked::Asked;
use crate::log::{At, LogLine};
use page_numbers::Parcel;
use ring_core::{Answer, Core};
use trace_model::NoMemory;

/// Who is told of a replay's steps, and makes their text, or doesn't: a step's text is what isn't known of its ring
/// yet. What a call leaves if memory is refused is not used.
pub trait Teller: Drop {
    /// Whether it makes a text: otherwise it needn't be told.
    const TELLS: bool;

    ghost TELLS: { Bool };

    /// What it has told so far, and knows of the ring of each CPU, if it makes a text.
    ghost told: { Self → Option StepTextValue };

    /// Tells a step of the ring of a CPU: what was asked, what it answered, and the ring after it.
    fn tell(&mut self, at: At, asked: Asked, answer: &Answer, ring: &Core) -> Result<(), NoMemory>
        requires { IfSome (told self.old) (λ old. MayTell at.cpu.0 asked answer.now ring.now old) }
        ensures { OnOk result (IsStepTold at.line at.cpu.0 asked.entry answer.now ring.now
            (told self.old) (told self.new)) };

    /// Tells a delivery by its line of the log.
    fn tell_delivery(&mut self, logged: &LogLine) -> Result<(), NoMemory>
        ensures { OnOk result (IsTextTold (printed_log_line (shown_log_line logged.now))
            (told self.old) (told self.new)) };

    /// Tells what a delivery brings to a collector that hasn't all of it.
    fn tell_gains(&mut self, parcel: &Parcel) -> Result<(), NoMemory>
        ensures { OnOk result (IsTextTold (flat_map gain_text (gains_of (as_parcel parcel.now)))
            (told self.old) (told self.new)) };

    /// Who needn't be told makes no text.
    ghost untold: { IsFalse TELLS → (teller : Self) → told teller ≡ None };
}
