//! Parcels: taken pages that are shared, each under its CPU, its fill and its records' numbers.
//!
//! A parcel has the records of one page and knows which numbers are missing before them. Its bytes are specified in
//! `docs/formats/pages.md`, "Parcel bytes".
#![tactic(auto)]

mod fault;
pub mod laws;
mod numbers;
mod parcel;

pub use fault::ParcelFault;
pub use parcel::Parcel;
