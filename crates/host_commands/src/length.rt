//! How long files are that can be read again.
use crate::inputs::STANDARD_INPUT;
use crate::named::Named;
use std::fs;

/// How many bytes a file has that can be read again: a regular one that isn't empty. (The kernel's `trace_pipe_raw` is
/// an empty regular file whose bytes are gone once they are read.)
fn length_of(rt: &HostRuntime, path: &str) -> Option<u64> {
    if path == STANDARD_INPUT {
        return None;
    }
    match fs::metadata(rt, path) {
        Ok(found) if found.is_file() && found.len() > 0 => Some(found.len()),
        _ => None,
    }
}

/// How many bytes these inputs have in all, if each is a file that can be read again.
pub(crate) fn total_of<N: Named>(rt: &HostRuntime, inputs: &[N]) -> Option<u64> {
    let mut total: u64 = 0;
    for input in inputs {
        total = total.saturating_add(length_of(rt, input.name())?);
    }
    Some(total)
}
