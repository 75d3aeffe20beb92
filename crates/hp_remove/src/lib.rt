//! The steps of calls that take pages and mappings away: punches, truncations, unmaps and exits.
//!
//! It stands on hp_parts, which it works on, and on hp_machine, whose rows its contracts cite: each
//! function takes a phase, and what it answers and makes of the parts is the row of that phase. It has no
//! rule of its own. It knows neither who calls nor whether a call is in flight. Of its steps only the one that
//! takes a punched index out of the reserve map may want memory.
//!
//! Phases are hp_machine's; each module here passes on those that its step takes.
#![tactic(auto)]

pub mod exit;
mod pages;
pub mod punch;
pub mod truncate;
pub mod unmap;

pub use exit::step_exit;
pub use punch::step_punch;
pub use truncate::step_truncate;
pub use unmap::step_unmap;
