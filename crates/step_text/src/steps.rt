//! The text of a script's steps.
ghost use Rattle.std.specs.Prelude.{IfOk};
ghost use Rattle.world_model.specs.World.{World};
ghost use Rattle.step_model.specs.RunTexts.{IsStepText};

use crate::StepText;
use script_replay::told_replay;
use std::alloc::Global;
use trace_model::NoMemory;
use trace_script::Script;

/// The text of the steps of a script's replay: what each one did to its ring, and what each delivery brought.
pub fn steps_of(alloc: Global, script: &Script) -> Result<Vec<u8>, NoMemory>
    ensures { IfOk result (λ text. (world : World) × IsStepText script.now world text.items) }
{
    let told = told_replay(alloc, script, StepText::new(alloc, script)?)?;
    Ok(told.into_text())
}
