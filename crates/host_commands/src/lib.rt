//! The listing commands over files of the host: which files the words of `collect` and `recover` name, what is printed
//! of them, and what is said of a file that can't be read.
#![tactic(auto)]

mod again;
mod by_page;
mod captures;
mod choose;
mod feed;
mod follow;
mod form;
mod formats;
mod inputs;
mod keep;
mod length;
mod message;
mod named;
mod progress;
mod regions;
mod same;
mod streams;
mod telling;

pub use choose::collect;
pub use regions::recover;
