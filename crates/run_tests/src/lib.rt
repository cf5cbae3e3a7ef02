//! Tests alone: scripts that are run by threads, with gates of several kinds; readers' ends, and a receipt; and audits.
//!
//! They make a thousand runs. `rt test` leaves them as a program, which makes those of one test again, on two cores for
//! example by `taskset -c 0,1 out/run_tests_tests runs::each_collector_has_what_was_written`. Under `ulimit -v 200000`
//! `runs::many_cpus_and_collectors_are_run` meets a thread that can't be started, and ends with `NoThread`.
#![tactic(auto)]

#[cfg(test)]
mod audits;
#[cfg(test)]
mod ends;
#[cfg(test)]
mod gates;
#[cfg(test)]
mod receipts;
#[cfg(test)]
mod runs;
#[cfg(test)]
mod scripts;
