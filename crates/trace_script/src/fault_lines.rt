//! The printing of a script's fault. The fault's own `Display` is derived by `thiserror`; derived code has no contract.
ghost use Rattle.std.specs.Prelude.{◌≡◌, ◌∷◌, [], ◌++◌, IfOk, OnOk, OnErr, codes};
ghost use Rattle.std.specs.Fmt.{decimal};
ghost use Rattle.trace_model.specs.Sublist.{IsPrefix};
ghost use Rattle.trace_script.specs.ScriptFaults.{script_fault_text};

use crate::fault::ScriptFault;
use std::alloc::Global;
use text_values::{drop_if_refused, put_number};
use trace_model::NoMemory;

/// Puts the number of a line and the name of its fault. On an error a part of that may be put.
fn put_line_fault(out: &mut Vec<u8>, line: u64, name: &[u8]) -> Result<(), NoMemory>
    ensures text { OnOk result
        (out.new.items ≡ out.old.items ++ (codes "line " ++ decimal line ++ codes ": " ++ name.now)) }
    ensures behind { IsPrefix out.old.items out.new.items }
{
    out.extend_from_slice(b"line ")?;
    put_number(out, line)?;
    out.extend_from_slice(b": ")?;
    out.extend_from_slice(name)?;
    Ok(())
}

/// Puts the line that states the fault. On an error a part of it may be put.
fn put_line(out: &mut Vec<u8>, fault: ScriptFault) -> Result<(), NoMemory>
    ensures text { OnOk result (out.new.items ≡ out.old.items ++ (script_fault_text fault ++ 10 ∷ [])) }
    ensures behind { IsPrefix out.old.items out.new.items }
{
    match fault {
        ScriptFault::BadLine(line) => put_line_fault(out, line, b"BadLine")?,
        ScriptFault::BadNumber(line) => put_line_fault(out, line, b"BadNumber")?,
        ScriptFault::BadHex(line) => put_line_fault(out, line, b"BadHex")?,
        ScriptFault::OutOfRange(line) => put_line_fault(out, line, b"OutOfRange")?,
        ScriptFault::NoMemory => out.extend_from_slice(b"memory")?,
    }
    out.push(b'\n')?;
    Ok(())
}

/// Puts the line that states the fault, in the form of `docs/formats/program.md`, "Printed text". If memory is refused,
/// the text is as before.
pub fn put_fault(out: &mut Vec<u8>, fault: ScriptFault) -> Result<(), NoMemory>
    ensures text { OnOk result (out.new.items ≡ out.old.items ++ (script_fault_text fault ++ 10 ∷ [])) }
    ensures kept { OnErr result (out.new.items ≡ out.old.items) }
{
    let start = out.len();
    let put = put_line(out, fault);
    drop_if_refused(out, start, put)
}

/// The line that states a script's fault.
pub fn fault_line(alloc: Global, fault: ScriptFault) -> Result<Vec<u8>, NoMemory>
    ensures { IfOk result (λ line. line.items ≡ script_fault_text fault ++ 10 ∷ []) }
{
    let mut line = Vec::new(alloc);
    put_fault(&mut line, fault)?;
    Ok(line)
}
