//! Laws over the definitions, as contracts of functions with empty bodies, by subject.

pub mod lanes;
pub mod printing;
pub mod worlds;
