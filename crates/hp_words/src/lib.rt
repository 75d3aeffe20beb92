//! Configs, events and outcomes as plain numbers, for callers that have none of our enums.
//!
//! It stands on hp_base and hp_machine, and on hp_phases for the numbers of phases. Numbers name a config or an event, or name nothing;
//! an outcome is written in numbers of its own.
//! Each struct has C's layout (`#[repr(C)]`), and each number stands in `specs/Words.antt`.
#![tactic(auto)]

pub mod config_words;
pub mod event_words;
pub mod laws;
mod outcome_named;
pub mod outcome_words;

pub use config_words::ConfigWords;
pub use event_words::EventWords;
pub use outcome_words::OutcomeWords;
