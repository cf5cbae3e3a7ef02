//! The line of an audit.
ghost use Rattle.std.specs.Prelude.{◌≡◌, ◌++◌, OnOk, OnErr};
ghost use Rattle.trace_model.specs.Sublist.{IsPrefix};
ghost use Rattle.run_command.specs.text.Verdicts.{verdict_of};
ghost use Rattle.run_command.specs.text.Printing.{key_text, printed_audit, verdict_text};

use text_values::{drop_if_refused, put_number};
use trace_model::{CpuId, FillNo, NoMemory};
use trace_run::ledgers::{AuditFault, Audited};

/// A CPU and a fill of its ring. On an error a part of that may be put.
fn put_key(out: &mut Vec<u8>, cpu: CpuId, fill: FillNo) -> Result<(), NoMemory>
    ensures text { OnOk result (out.new.items ≡ out.old.items ++ key_text cpu.0 fill.0) }
    ensures behind { IsPrefix out.old.items out.new.items }
{
    put_number(out, u64::from(cpu.0))?;
    out.push(b' ')?;
    put_number(out, fill.0)?;
    Ok(())
}

/// What an audit answered, without the line's end. On an error a part of that may be put.
fn put_verdict(out: &mut Vec<u8>, answer: Result<Audited, AuditFault>) -> Result<(), NoMemory>
    ensures text { OnOk result (out.new.items ≡ out.old.items ++ verdict_text (verdict_of answer)) }
    ensures behind { IsPrefix out.old.items out.new.items }
{
    match answer {
        Ok(_) => {
            out.extend_from_slice(b"yes")?;
            Ok(())
        }
        Err(AuditFault::Stray(cpu, fill)) => {
            out.extend_from_slice(b"stray ")?;
            put_key(out, cpu, fill)
        }
        Err(AuditFault::Lacks(cpu, fill)) => {
            out.extend_from_slice(b"lacks ")?;
            put_key(out, cpu, fill)
        }
    }
}

/// The line of an audit. On an error a part of that may be put.
fn put_line(out: &mut Vec<u8>, answer: Result<Audited, AuditFault>) -> Result<(), NoMemory>
    ensures text { OnOk result (out.new.items ≡ out.old.items ++ printed_audit (verdict_of answer)) }
    ensures behind { IsPrefix out.old.items out.new.items }
{
    out.extend_from_slice(b"audit ")?;
    put_verdict(out, answer)?;
    out.push(b'\n')?;
    Ok(())
}

/// Puts the line of an audit's answer: `audit yes`, `audit stray C F` or `audit lacks C F`, C and F being the CPU and
/// the fill of the parcel that the audit names. If memory is refused, the text is as before.
pub fn put_audit(out: &mut Vec<u8>, answer: Result<Audited, AuditFault>) -> Result<(), NoMemory>
    ensures text { OnOk result (out.new.items ≡ out.old.items ++ printed_audit (verdict_of answer)) }
    ensures kept { OnErr result (out.new.items ≡ out.old.items) }
{
    let start = out.len();
    let put = put_line(out, answer);
    drop_if_refused(out, start, put)
}
