//! Judges a picture by the headline: what is wrong with it, all of it, and where.
//!
//! It stands on hp_picture, whose pictures it takes: of the machine's pools, and of kernels'. It promises that each finding is
//! one, and that there is no other. It knows no core.
#![tactic(auto)]

mod counts;
mod finding;
mod frames;
mod judging;
mod lines;
mod telling;

pub use finding::{Clause, Finding};
pub use judging::judge;
pub use telling::write_findings;

#[cfg(test)]
mod tests;
