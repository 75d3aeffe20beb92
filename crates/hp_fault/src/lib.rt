//! The steps of calls that bring pages in: loads, stores, maps and allocations.
//!
//! It stands on the parts of a pool (hp_parts) and on hp_machine, whose rows its contracts cite: each function takes a
//! phase, and what it answers and makes of the parts is the row of that phase, over the parts read as functions
//! (`view`). It has no rule of its own. It knows neither who calls nor whether a call is in flight.
//!
//! Phases are hp_machine's; each module here passes on those that its step takes.
//!
//! A step is told whether its task was killed (`killed`) and whether it may take memory (`grant`). Where its row
//! wants growth that isn't granted, the step is denied; where growth is granted and memory runs out all the
//! same, the step didn't happen (`Stopped`). Where growth isn't both wanted and granted, no part takes memory
//! (`MemoryStaysUnless` of hp_parts).
#![tactic(auto)]

pub mod alloc;
pub mod map;
pub mod pages;
pub mod touch;

pub use alloc::step_alloc;
pub use hp_machine::{Stopped, Turn};
pub use hp_parts::{FileState, Parts};
pub use map::step_map;
pub use touch::step_touch;
