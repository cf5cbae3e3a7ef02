//! What is wrong with a script.
ghost use Rattle.std.specs.Prelude.{◌≡◌};
ghost use Rattle.trace_script.specs.declared.fault.LineFault.TheVariants.{NoMemory as line_no_memory};
ghost use Rattle.trace_script.specs.declared.fault.ScriptFault.TheVariants.{NoMemory as no_memory};
ghost use Rattle.trace_script.specs.ScriptFaults.{fault_at, reading_at};

use std::alloc::AllocFailed;
use thiserror::Error;
use trace_model::NoMemory;

/// Why a text is no script. The number is that of the first line at fault, from 1.
#[derive(Clone, Copy, Debug, PartialEq, Eq, Error)]
pub enum ScriptFault {
    /// The line has a space too many, a word that there isn't, a wrong number of fields, or a field that is to name a
    /// CPU and doesn't; or another line of the header is due there. If the text ends before its header does, this is
    /// the number of the line after its last one.
    #[error("line {0}: BadLine")]
    BadLine(u64),
    /// A field is no decimal number of 1 to 20 digits below 2^64.
    #[error("line {0}: BadNumber")]
    BadNumber(u64),
    /// A payload is neither `-` nor an even number of hexadecimal digits, two at least.
    #[error("line {0}: BadHex")]
    BadHex(u64),
    /// A number is outside its limits.
    #[error("line {0}: OutOfRange")]
    OutOfRange(u64),
    /// Memory was refused.
    #[error("memory")]
    NoMemory,
}

impl<T: Drop> From<AllocFailed<T>> for ScriptFault {
    ghost from_gives = { λ _ fault. fault ≡ no_memory };

    fn from(_refused: AllocFailed<T>) -> ScriptFault {
        ScriptFault::NoMemory
    }
}

/// What is wrong with a line, wherever it is.
#[derive(Clone, Copy, Debug, PartialEq, Eq)]
pub(crate) enum LineFault {
    /// The line has another form.
    BadLine,
    /// A field is no decimal number of 64 bits.
    BadNumber,
    /// A payload isn't written by pairs of hexadecimal digits.
    BadHex,
    /// A number isn't within its limits.
    OutOfRange,
    /// Memory was refused.
    NoMemory,
}

impl From<NoMemory> for LineFault {
    ghost from_gives = { λ _ fault. fault ≡ line_no_memory };

    fn from(_refused: NoMemory) -> LineFault {
        LineFault::NoMemory
    }
}

impl LineFault {
    /// The fault of the line of this number.
    pub(crate) fn at(self, line: u64) -> ScriptFault
        ensures { result ≡ fault_at line self }
    {
        match self {
            LineFault::BadLine => ScriptFault::BadLine(line),
            LineFault::BadNumber => ScriptFault::BadNumber(line),
            LineFault::BadHex => ScriptFault::BadHex(line),
            LineFault::OutOfRange => ScriptFault::OutOfRange(line),
            LineFault::NoMemory => ScriptFault::NoMemory,
        }
    }
}

/// What was read of the line of this number.
pub(crate) fn reading_at<T>(line: u64, read: Result<T, LineFault>) -> Result<T, ScriptFault>
    ensures { result ≡ reading_at line read }
{
    match read {
        Ok(value) => Ok(value),
        Err(fault) => Err(fault.at(line)),
    }
}
