//! The trace buffers of a file of trace-cmd that aren't listed.
ghost use Rattle.std.specs.Prelude.{◌≡◌, List, ◌++◌, map, OnOk};
ghost use Rattle.trace_dat.specs.Contents.{buffer_seen};
ghost use Rattle.capture.specs.files.Files.{is_other, names_of_others, has_named};
ghost use Rattle.capture.specs.files.Captures.{texts_held};

use std::alloc::{AllocError, Global};
use trace_dat::Buffer;

/// Whether a buffer is an instance, and isn't listed.
fn is_other(name: &[u8], buffer: &Buffer<'_>) -> bool
    ensures { result ≡ is_other name.now (buffer_seen buffer.now) }
{
    !buffer.name.is_empty() && buffer.name != name
}

/// Adds the names of those of buffers that are instances and aren't listed.
pub(crate) fn add_others(
    alloc: Global,
    others: &mut Vec<Vec<u8>>,
    name: &[u8],
    buffers: &[Buffer<'_>],
) -> Result<(), AllocError>
    ensures { OnOk result (texts_held others.new.items
        ≡ texts_held others.old.items ++ names_of_others name.now (map buffer_seen buffers.now)) }
{
    for buffer in buffers {
        if is_other(name, buffer) {
            others.push(buffer.name.to_vec(alloc)?)?;
        }
    }
    Ok(())
}

/// Whether one of buffers has this name.
pub(crate) fn has_named(name: &[u8], buffers: &[Buffer<'_>]) -> bool
    ensures { result ≡ has_named name.now (map buffer_seen buffers.now) }
{
    for buffer in buffers {
        if buffer.name == name {
            return true;
        }
    }
    false
}
