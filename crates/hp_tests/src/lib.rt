//! Tests of the core and of traces: whole pictures of a pool, copies of it, what a trace is read as and what a replay of it
//! writes, which of the values that they tell are equal, and what tasks see of worked rows from end to end. What a trace and
//! its output can say line by line stands in `examples/`. Streams break at each of their calls in turn: readers that give a byte
//! a call and fail, writers that take a byte a call, and fail or take none. And which lines a source recalls, however it is read.
//!
//! It stands on the crates that it tests, and makes their public calls. It stands apart because a crate with
//! tests is proved twice, once for itself and once with its tests: here there is little to prove but the tests,
//! and the crates below are proved once. Beside the tests stands the pool with which some of them begin
//! (`pool::new_pool`), with a contract that tells its sizes, and the two streams that break (`streams`), which are proved to be a
//! reader and a writer as std says what these are.
#![tactic(auto)]

#[cfg(test)]
mod calls;
#[cfg(test)]
mod copies;
#[cfg(test)]
mod equality;
pub mod pool;
#[cfg(test)]
mod reading;
#[cfg(test)]
mod recalling;
#[cfg(test)]
mod runs;
#[cfg(test)]
mod sample_texts;
#[cfg(test)]
mod schedules;
#[cfg(test)]
mod sizes;
pub mod streams;
#[cfg(test)]
mod texts;
#[cfg(test)]
mod traces;
#[cfg(test)]
mod worked_rows;
#[cfg(test)]
mod writing;
