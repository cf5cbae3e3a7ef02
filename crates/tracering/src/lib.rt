//! One door to the libraries: a program in Rattle that records, collects or replays names this crate alone in
//! `crates.txt`.
//!
//! - `rings`: the two ends of a running ring, one for a writer's thread and one for a reader's.
//! - `pages`: what a reader takes, with its records; page images.
//! - `parcels`: pages that were taken, shared, each under its CPU and its records' numbers.
//! - `collectors`: what several parcels have and miss together, and its listing by time.
//! - `streams`: parcels and marks as bytes, one after the other, and what is known of one stream.
//! - `fleets`: what is known of many streams, and its listing by time.
//! - `regions`: what rings left in files or shared memory whose pages others can read, as parcels.
//! - `scripts`: the text of a script read, replayed step by step or run by threads, and a run audited.
//! - `commands`: what the commands of the program `tracering` do, over any sources and sinks.
//! - Here: the plain numbers of all of these, their limits, and `NoMemory`.
//!
//! Each item is that of the crate which has its code, under the same name. So a page is recorded, taken, collected and
//! listed, as `crates/recorder` does it in threads:
//!
//! ```text
//! use tracering::CpuId;
//! use tracering::collectors::{Collector, listing};
//! use tracering::pages::Body;
//! use tracering::parcels::Parcel;
//! use tracering::rings::{Take, ring};
//!
//! let (mut writer, mut reader) = ring(alloc, 2, 64)?;
//! writer.write(1, b"call")?;
//! writer.begin_close();
//! writer.finish_top();
//! let mut collector = Collector::new(alloc);
//! if let Take::Page(page, missed) = reader.take(Body::new(alloc, 64)?) {
//!     collector.add(Parcel::of(alloc, CpuId(0), page, missed)?)?;
//! }
//! for line in &listing(alloc, &collector)? {
//!     println!(rt; "{} record {}", line.moment.0, line.number.0)?;
//! }
//! ```
//!
//! The words of their contracts are in `specs/`, in a module for each of these. Code without loops needs few of them: a
//! function that is given an end of a ring, and a loop that keeps one, cite that it is one.
//!
//! ```text
//! ghost use Rattle.tracering.specs.Rings.{IsWriter};
//!
//! fn record(writer: &mut Writer) -> Result<(), WriteFault>
//!     requires { IsWriter writer.old }
//!     ensures { IsWriter writer.new }
//! ```
#![tactic(auto)]

pub mod collectors;
pub mod commands;
pub mod fleets;
pub mod pages;
pub mod parcels;
pub mod regions;
pub mod rings;
pub mod scripts;
pub mod streams;

pub use trace_model::{
    CpuId, FillNo, MAX_CPUS, MAX_FRAMES, MAX_IMAGE, MAX_PAGES, MAX_SIZE, MIN_PAGES, MIN_SIZE,
    MOMENT_LIMIT, Moment, NoMemory, RecordNo, START_FILL,
};
