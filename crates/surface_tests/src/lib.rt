//! Only tests: a program over the library as a user writes it, who knows the public calls and their clauses and nothing
//! else. Each call is made by its exact signature, and what a call requires follows from the clauses of those before
//! it: no proof is written here, but the invariants of loops.
//!
//! There is one chain of calls for the ring as a value, one for the two ends of a running ring, and one for the stack
//! of writers, and each call is made once in it. All rows of the two rings and of collectors, with what they refuse,
//! are in the text that the program `rows` reads; words, pages and images are in `library_tests`. The steps of a test
//! are mostly in a function that is lent the ring: each exit of a function that owns it drops it, which takes longer to
//! prove than the steps do.
#![tactic(auto)]

#[cfg(test)]
mod collectors;
#[cfg(test)]
mod cores;
#[cfg(test)]
mod ends;
#[cfg(test)]
mod seats;
#[cfg(test)]
mod stack;
#[cfg(test)]
mod walks;
