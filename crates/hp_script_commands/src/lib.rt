//! Commands that run a script, and those that search: `explore`, `find` and `schedule` with and without `--every`, `minimize` and
//! `race`.
//!
//! It stands on the crates that explore, search and race, on hp_program's frame for outputs, and on hp_command for what is asked. It
//! promises of each command what is answered, and what was read and written then (`Runs.antt`, `Hunting.antt`, `Racing.antt`,
//! `Searching.antt`, `Tabling.antt`, `Choosing.antt`, `Summing.antt`). What it says on standard error of a search's progress and of the run
//! that was found is only tested.
#![tactic(auto)]

mod choosing;
mod exploring;
mod finding;
mod minimizing;
mod progress;
mod racing;
mod scheduling;
mod searching;
mod summarizing;
mod tabling;

pub use choosing::run_schedule_every;
pub use exploring::run_explore;
pub use finding::run_find;
pub use minimizing::run_minimize;
pub use progress::Report;
pub use racing::run_race;
pub use scheduling::run_schedule;
pub use searching::run_find_every;
pub use summarizing::run_summarize;
pub use tabling::run_explore_every;
