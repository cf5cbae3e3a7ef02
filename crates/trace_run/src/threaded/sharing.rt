//! What becomes of a page that was taken: every collector gets it, and then the gate is asked.
use crate::writers::{Gate, Who};
use crossbeam_channel::{SendError, Sender};
use page_numbers::Parcel;
use std::sync::Wait;
use trace_model::{CpuId, NoMemory};

/// To what a reader's pages are passed on.
pub(crate) trait PassesOn {
    ghost use Rattle.std.specs.Prelude.{ℕ, Bool, IfOk};
    ghost use Rattle.page_numbers.specs.Parcels.{as_parcel};
    ghost use Rattle.trace_run.specs.declared.writers.gate.Who.{Who as WhoSeen};
    ghost use Rattle.trace_run.specs.declared.writers.gate.Who.TheVariants as who;

    // Which answers the gate may give.
    ghost answers: { Self → WhoSeen → (cpu fill : ℕ) → Bool → Type 0 };

    /// Passes the page on, and answers whether the gate lets the reader pass.
    fn pass_on<R: Wait>(&self, rt: &R, cpu: CpuId, parcel: &Parcel) -> Result<bool, NoMemory>
        ensures { IfOk result (answers self.now who.Reader cpu.0 (as_parcel parcel.now).fill) };
}

/// The collectors of a run, and its gate.
#[derive(Drop)]
pub(crate) struct Passing<'a, G: Gate> {
    pub(crate) gate: &'a G,
    pub(crate) collectors: &'a [Sender<Parcel>],
}

impl<'a, G: Gate> PassesOn for Passing<'a, G> {
    ghost answers = { λ passing. G.answers passing.gate.now };

    fn pass_on<R: Wait>(&self, rt: &R, cpu: CpuId, parcel: &Parcel) -> Result<bool, NoMemory> {
        share(rt, parcel, self.collectors)?;
        Ok(self.gate.pass(Who::Reader, cpu, parcel.fill()))
    }
}

/// Sends the parcel to each collector that still receives. All share its page.
fn share<R: Wait>(rt: &R, parcel: &Parcel, collectors: &[Sender<Parcel>]) -> Result<(), NoMemory> {
    for collector in collectors {
        let copy = parcel.share()?;
        if let Err(SendError::OutOfMemory(_)) = collector.send(rt, copy) {
            return Err(NoMemory);
        }
    }
    Ok(())
}
