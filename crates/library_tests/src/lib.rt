//! Tests alone: calls of the library on worked values, with what they answer written out, from a record's words up to
//! pages, and what collectors keep.
#![tactic(auto)]

#[cfg(test)]
mod collectors;
#[cfg(test)]
mod entries;
#[cfg(test)]
mod frames;
#[cfg(test)]
mod images;
#[cfg(test)]
mod pages;
#[cfg(test)]
mod pieces;
#[cfg(test)]
mod regions;
#[cfg(test)]
mod streams;
#[cfg(test)]
mod words;
