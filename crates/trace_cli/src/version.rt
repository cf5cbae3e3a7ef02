//! The version, for who asks which one this is.

/// The line that `--version` prints. `tests/sources/version` compares it with `c/include/tracering.h`.
pub const VERSION_LINE: &[u8] = b"tracering 0.1.0\n";
