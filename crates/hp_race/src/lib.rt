//! Races of a script: its tasks make their calls at once, each in a thread of its own, on a running pool.
//!
//! It stands on hp_shared, whose pool the threads use, and on hp_text, whose scripts it races and by which it writes. It
//! promises of a race that was closed that its journal is a run of the script's pool and an interleaving of the histories
//! of its tasks, each of which made the script's calls of that task, in order and each to its end. Where tasks are killed by
//! chance, kills stand between the calls, and some calls of those that were killed were refused. Each call began when those had ended
//! for which the script has it wait. Which race of many it is it doesn't know, nor when a thread goes on.
#![tactic(auto)]

mod again;
mod call_range;
mod chances;
mod keeping;
mod line;
mod parts;
mod racer;
mod racing;
mod starting_line;
mod telling;
mod waiting;
mod writing;

pub use chances::Chances;
pub use line::{Race, Verdict};
pub use parts::race_in_parts;
pub use racing::{race, race_trace};
pub use writing::{write_race_trace, write_races};
