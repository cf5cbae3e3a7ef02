//! What of a CPU's pages comes from one place.

/// A part of a CPU's pages: what one file has of them. The pages are one after the other, and the last one may be
/// shorter than the others.
#[derive(Clone, Copy, Debug, PartialEq, Eq)]
pub struct Part {
    /// The bytes of a page.
    pub size: u64,
    /// The bytes of all its pages together.
    pub length: u64,
}
