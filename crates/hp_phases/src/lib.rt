//! The phases in which calls stand: one table, from which each other is made.
//!
//! It stands on hp_machine, which names the phases and spells them. Its table has a row a phase: its place among all, what a replay
//! prints of it, and the function of Linux that does what a step from it does. It promises that each of these is the one that specs/
//! says. It knows nothing of a pool.
#![tactic(auto)]

pub mod laws;
mod linux;
mod table;
#[cfg(test)]
mod tests;

pub use linux::{Kernel, Locks, linux_name};
pub use table::{PHASES, moved_line, phase_at, phase_named, phase_number, place_of};
