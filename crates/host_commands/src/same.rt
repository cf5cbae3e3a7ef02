//! Whether two paths lead to one file.
use std::fs;
use std::os::unix::fs::MetadataExt;
use std::rt::Files;

/// Whether both paths lead to one regular file, by whatever names and links. It is `false` if one of them leads to
/// none, or if nothing can be learned of it.
pub fn is_same_file<R: Files>(rt: &R, path: &str, other: &str) -> bool {
    let (Ok(one), Ok(two)) = (fs::metadata(rt, path), fs::metadata(rt, other)) else {
        return false;
    };
    one.is_file() && two.is_file() && one.dev() == two.dev() && one.ino() == two.ino()
}
