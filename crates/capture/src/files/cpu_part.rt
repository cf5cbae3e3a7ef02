//! What a file of trace-cmd has of a CPU.
ghost use Rattle.std.specs.Prelude.{◌<◌};
ghost use Rattle.trace_model.specs.declared.limits.TheConstants.{MAX_CPUS};

use trace_model::CpuId;

/// How large a page is.
#[derive(Clone, Copy, Debug)]
pub(crate) struct PageSize {
    /// How many bytes it has.
    pub(crate) bytes: u32,
    ghost some: { 0 < bytes },
}

/// What a file has of a CPU.
#[derive(Clone, Copy, Debug)]
pub(crate) struct CpuPart<'a> {
    /// The CPU.
    pub(crate) cpu: CpuId,
    /// How large its pages are.
    pub(crate) size: PageSize,
    /// The pages, one after the other.
    pub(crate) pages: &'a [u8],
    ghost known: { cpu.0 < MAX_CPUS },
}
