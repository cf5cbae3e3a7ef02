//! A command of a script as it is kept.
ghost use Rattle.std.specs.Prelude.{◌≡◌, ◌<◌, IfSome};

use std::mem::size_of;
use trace_model::CpuId;

/// What a line asks for. The variants have other numbers than those of `Command`. If they had the same, the compiler
/// would make the one number from the other by a copy, and a match on a command that is lent would come after the match
/// on its kind, in place of being one with it.
#[derive(Clone, Copy)]
pub(crate) enum Kind {
    Deliver,
    Begin,
    Step,
    Finish,
    Write,
    Close,
    StepReader,
    Take,
    Wish,
}

/// A command as it is kept, in numbers of some widths. The bytes of its payload are kept elsewhere. A delivery has one
/// such byte: its collector's number.
#[derive(Clone, Copy)]
pub(crate) struct KeptLine<A, E> {
    /// What it asks for.
    pub(crate) kind: Kind,
    /// Its CPU.
    pub(crate) cpu: u8,
    /// By how much the number of its line is above its index among the commands.
    pub(crate) above: A,
    /// Where its bytes end among those of all commands. They begin where those of the command before end.
    pub(crate) end: E,
    /// Its moment, count or fill; or 0, if it has none.
    pub(crate) value: u64,
}

/// A command in 16 bytes. One that was read has its place only when it is kept: until then that is 0.
pub(crate) type Narrow = KeptLine<u16, u32>;
/// A command whose numbers may be as large as any.
pub(crate) type Wide = KeptLine<u64, usize>;

// A script of many lines takes this much for each.
const _: () = prove!(size_of::<Narrow>() == 16);

/// What a line asks for, of these numbers.
#[inline(always)]
pub(crate) fn asked(kind: Kind, cpu: CpuId, value: u64) -> Narrow
    requires { cpu.0 < 256 }
    ensures { result ≡ record { kind = kind; cpu = cpu.0; above = 0; end = 0; value = value } }
{
    KeptLine {
        kind,
        cpu: cpu.0 as u8,
        above: 0,
        end: 0,
        value,
    }
}

/// A command at its place.
#[inline(always)]
pub(crate) fn placed(line: Narrow, above: u64, end: usize) -> Wide
    ensures { result ≡ record { kind = line.kind; cpu = line.cpu; above = above; end = end; value = line.value } }
{
    KeptLine {
        kind: line.kind,
        cpu: line.cpu,
        above,
        end,
        value: line.value,
    }
}

/// The command in 16 bytes, if its numbers fit.
#[inline(always)]
pub(crate) fn narrowed(line: Wide) -> Option<Narrow>
    ensures { IfSome result (λ narrow. narrow ≡ line) }
{
    if line.above > u64::from(u16::MAX) || line.end > u32::MAX as usize {
        return None;
    }
    Some(KeptLine {
        kind: line.kind,
        cpu: line.cpu,
        above: line.above as u16,
        end: line.end as u32,
        value: line.value,
    })
}

/// A kept command in wide numbers.
#[inline(always)]
pub(crate) fn widened(line: Narrow) -> Wide
    ensures { result ≡ line }
{
    KeptLine {
        kind: line.kind,
        cpu: line.cpu,
        above: u64::from(line.above),
        end: line.end as usize,
        value: line.value,
    }
}
