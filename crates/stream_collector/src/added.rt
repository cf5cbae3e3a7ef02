//! What became of a piece that was added.

/// What became of a parcel that was added.
#[derive(Clone, Copy, Debug, PartialEq, Eq)]
pub enum Added {
    /// It adds a record or a missing number, and is kept.
    New,
    /// All that it has and misses was there already; it isn't kept.
    Known,
    /// It ends below the bound of its CPU; it isn't kept.
    Forgotten,
}

/// What became of a mark that was added.
#[derive(Clone, Copy, Debug, PartialEq, Eq)]
pub enum Marked {
    /// It says something new.
    New,
    /// All that it says was known already.
    Known,
}
