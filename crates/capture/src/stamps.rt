//! The times of stamps in page images, restored.
//!
//! A time stamp has room for 59 bits. The kernel's readers put the bits above them back, from the time before the
//! stamp; here a stamp is replaced by the time extend that leads to the same time. Both words have eight bytes, so
//! the image is changed in place, and is read as every other.

pub mod laws;
mod restore;

pub use restore::restore_stamps;
