//! Tests of the running pool and of its clients: threads that really overlap, client calls, workloads and byte calls beside what a
//! Linux kernel answered, a kill before each event of a workload, and a soak of 100,000 calls with kills and cuts.
//!
//! It stands on the crates that it tests, and makes their public calls; it stands apart because a crate with tests is proved
//! twice. Beside the tests stand the numbers that they compare (`numbers::tally`), and what they count
//! (`counting::is_of_a_call`), with contracts.
#![tactic(auto)]

#[cfg(test)]
mod asking;
#[cfg(test)]
mod byte_call;
#[cfg(test)]
mod byte_calls;
#[cfg(test)]
mod calls;
pub mod counting;
#[cfg(test)]
mod crossings;
#[cfg(test)]
mod cuts;
#[cfg(test)]
mod dice;
#[cfg(test)]
mod each_kill;
#[cfg(test)]
mod gates;
#[cfg(test)]
mod histories;
#[cfg(test)]
mod kills;
#[cfg(test)]
mod meetings;
pub mod numbers;
#[cfg(test)]
mod points;
#[cfg(test)]
mod quota;
#[cfg(test)]
mod races;
#[cfg(test)]
mod run;
#[cfg(test)]
mod scenes;
#[cfg(test)]
mod soak;
#[cfg(test)]
mod waiting;
