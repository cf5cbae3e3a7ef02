//! The line of a fault.
ghost use Rattle.std.specs.Prelude.{◌≡◌, ◌++◌, IfOk, OnOk};
ghost use Rattle.std.specs.Fmt.{decimal};
ghost use Rattle.collect_command.specs.Faults.{cause_text, fault_text, fault_line, file_text};

use capture::files::FileFault;
use std::alloc::Global;
use text_values::put_number;
use trace_dat::Cause;
use trace_model::NoMemory;

/// What is wrong with a file of trace-cmd.
fn cause_name(cause: Cause) -> &'static [u8]
    ensures { result.now ≡ cause_text cause }
{
    match cause {
        Cause::Cut => b"Cut",
        Cause::NotTraceDat => b"NotTraceDat",
        Cause::BadVersion => b"BadVersion",
        Cause::OtherMachine => b"OtherMachine",
        Cause::Compressed => b"Compressed",
        Cause::Misplaced => b"Misplaced",
        Cause::OutsideFile => b"OutsideFile",
        Cause::Backward => b"Backward",
    }
}

/// Puts a word and a number.
fn put_numbered(out: &mut Vec<u8>, word: &[u8], number: u64) -> Result<(), NoMemory>
    ensures { OnOk result (out.new.items ≡ out.old.items ++ (word.now ++ decimal number)) }
{
    out.extend_from_slice(word)?;
    put_number(out, number)
}

/// Puts what is wrong, and where, or with which number.
fn put_fault(out: &mut Vec<u8>, fault: FileFault) -> Result<(), NoMemory>
    ensures { OnOk result (out.new.items ≡ out.old.items ++ fault_text fault) }
{
    match fault {
        FileFault::Format(fault) => {
            out.extend_from_slice(cause_name(fault.cause))?;
            put_numbered(out, b" at ", fault.at as u64)?;
        }
        FileFault::BadCpu(cpu) => put_numbered(out, b"BadCpu ", u64::from(cpu))?,
        FileFault::BadPage(size) => put_numbered(out, b"BadPage ", u64::from(size))?,
        FileFault::Overlap => out.extend_from_slice(b"Overlap")?,
        FileFault::OtherHost => out.extend_from_slice(b"OtherHost")?,
        FileFault::SmallerPages(size) => put_numbered(out, b"SmallerPages ", u64::from(size))?,
    }
    Ok(())
}

/// What a file is that has this fault: one of trace-cmd, or raw pages.
fn file_name(fault: FileFault) -> &'static [u8]
    ensures { result.now ≡ file_text fault }
{
    match fault {
        FileFault::SmallerPages(_) => b"pages: ",
        _ => b"trace.dat: ",
    }
}

/// The line of a file's fault.
pub(crate) fn fault_line(alloc: Global, fault: FileFault) -> Result<Vec<u8>, NoMemory>
    ensures { IfOk result (λ line. line.items ≡ fault_line fault) }
{
    let mut line = Vec::from_slice(alloc, file_name(fault))?;
    put_fault(&mut line, fault)?;
    line.push(b'\n')?;
    Ok(line)
}
