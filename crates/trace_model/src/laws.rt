//! Laws over the definitions, as contracts of functions with empty bodies, by subject.

pub mod collections;
pub mod histories;
pub mod images;
pub mod limits;
pub mod links;
pub mod packings;
pub mod parcels;
pub mod partitions;
pub mod windows;
pub mod words;
