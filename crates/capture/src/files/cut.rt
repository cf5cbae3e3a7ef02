//! Files of trace-cmd that were cut short.
ghost use Rattle.std.specs.Prelude.{◌≡◌, map, IfOk};
ghost use Rattle.std.specs.Option.{option_map, option_or};
ghost use Rattle.trace_dat.specs.Contents.{recorded_seen, buffer_seen};
ghost use Rattle.capture.specs.files.Files.{cut_among, cut_at, cut_in, texts_unless};

use crate::files::captured::CutFile;
use std::alloc::{AllocError, Global};
use trace_dat::kernel_texts::counters_of;
use trace_dat::{Buffer, CpuPages, Fault};

/// The first fault of the ranges of these CPUs, if the file ends before one of them does.
fn cut_among(cpus: &[CpuPages<'_>]) -> Option<Fault>
    ensures { result ≡ cut_among (map recorded_seen cpus.now) }
{
    for recorded in cpus {
        if recorded.fault.is_some() {
            return recorded.fault;
        }
    }
    None
}

/// The first such fault of the buffers of this name.
pub(crate) fn cut_in(name: &[u8], buffers: &[Buffer<'_>]) -> Option<Fault>
    ensures { result ≡ cut_in name.now (map buffer_seen buffers.now) }
{
    for buffer in buffers {
        if buffer.name == name {
            let fault = cut_among(buffer.cpus.as_slice());
            if fault.is_some() {
                return fault;
            }
        }
    }
    None
}

/// Of the texts of counters those of the buffer of this name, unless the file was cut short.
pub(crate) fn counters_unless<'a>(
    alloc: Global,
    cut: Option<Fault>,
    name: &[u8],
    texts: &[&'a [u8]],
) -> Result<Vec<&'a [u8]>, AllocError>
    ensures { IfOk result (λ own. map (λ text. text.now) own.items
        ≡ texts_unless cut name.now (map (λ text. text.now) texts.now)) }
{
    match cut {
        Some(_) => Ok(Vec::new(alloc)),
        None => counters_of(alloc, name, texts),
    }
}

/// Keeps the fault of a file that was cut short, which has this index, if it is the first.
pub(crate) fn keep_cut(known: &mut Option<CutFile>, index: usize, cut: Option<Fault>)
    ensures { known.new ≡ option_or known.old (option_map (cut_at index) cut) }
{
    if known.is_some() {
        return;
    }
    if let Some(fault) = cut {
        *known = Some(CutFile {
            input: index,
            fault,
        });
    }
}
