//! Deliveries: a page that was taken is found by its fill, and added to a collector.

mod adding;
mod finding;

pub use adding::collect;
pub use finding::find;
