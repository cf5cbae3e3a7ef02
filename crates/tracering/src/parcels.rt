//! Parcels: pages that were taken, shared, each under its CPU and its records' numbers.
pub use page_numbers::{Parcel, ParcelFault};
