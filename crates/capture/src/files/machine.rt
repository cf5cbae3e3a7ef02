//! The machine that was traced.
ghost use Rattle.std.specs.Prelude.{◌≡◌, OnOk};
ghost use Rattle.std.specs.Option.{option_map, option_or};
ghost use Rattle.capture.specs.files.Files.{is_same_machine};

use std::alloc::{AllocError, Global};

/// Whether what a file says of its machine is no other than what is known, if anything is.
pub(crate) fn is_same_machine(known: &Option<Vec<u8>>, machine: Option<&[u8]>) -> bool
    ensures { result ≡ is_same_machine (option_map (λ text. text.items) known.now)
        (option_map (λ text. text.now) machine.entry) }
{
    match (known, machine) {
        (Some(known), Some(machine)) => known.as_slice() == machine,
        _ => true,
    }
}

/// Keeps what a file says of its machine, if nothing is known yet.
pub(crate) fn keep_machine(
    alloc: Global,
    known: &mut Option<Vec<u8>>,
    machine: Option<&[u8]>,
) -> Result<(), AllocError>
    ensures { OnOk result (option_map (λ text. text.items) known.new
        ≡ option_or (option_map (λ text. text.items) known.old) (option_map (λ text. text.now) machine.entry)) }
{
    if known.is_some() {
        return Ok(());
    }
    if let Some(machine) = machine {
        *known = Some(machine.to_vec(alloc)?);
    }
    Ok(())
}
