//! Rows of files of trace-cmd: a row begins with `[NAME] files`. Its requests are `file BYTES`, answered by what
//! `trace_dat` reads of the file and of its texts, and `record BYTES`, answered by the fields that a
//! record of these bytes begins with. Bytes are written as hexadecimal digits, none as `-`.
mod answer;

pub use answer::FileRow;
