//! Tests of the parts of a pool: its vocabulary, the bank, the reserve map, the page cache, the holders, the
//! tables and the audit, a module for each crate, and of when their values are equal.
//!
//! It stands on the crates that it tests, and makes their public calls. It stands apart because a crate with
//! tests is proved twice, once for itself and once with its tests: here there is little to prove but the tests,
//! and the crates below are proved once. Beside the tests stands one function, by which they and those of
//! hp_tests tell values apart (`differing::all_differ`): it has a contract, so it can't pass values that are equal.
//!
//! Each test is proved to be safe, as any function. What asserts stands in functions of its own, to which tests pass
//! literals, since a proof with the literals, the calls and the assertions at once takes many times as long.
#![tactic(auto)]

#[cfg(test)]
mod audit;
#[cfg(test)]
mod base;
#[cfg(test)]
mod cache;
pub mod differing;
#[cfg(test)]
mod equality;
#[cfg(test)]
mod frames;
#[cfg(test)]
mod region;
#[cfg(test)]
mod slots;
#[cfg(test)]
mod table;
#[cfg(test)]
mod texts;
