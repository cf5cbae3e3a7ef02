//! Laws over the definitions, as contracts of functions with empty bodies, by subject.

pub mod limits;
pub mod scripts;
pub mod texts;
