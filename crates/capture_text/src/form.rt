//! The forms of lines.

/// The form of the lines.
#[derive(Clone, Copy, Debug, PartialEq, Eq)]
pub enum Form {
    /// Fields with a space between two.
    Text,
    /// A JSON object a line.
    Json,
}
