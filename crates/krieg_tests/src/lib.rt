//! Tests of what only code can show: players behind readers and writers of the system that a signal interrupts, that fail at a given call, or
//! that take a part of a line.
//!
//! All other facts are data: the cases of `krieg_trials` and the facts of `krieg_facts`. The words and the files that a system gives are those
//! of the scripts, `tests/live` above all.
#![tactic(auto)]

#[cfg(test)]
mod seats;
