//! What many runs of a script have in common: a summary that counts them.
//!
//! It stands on hp_explore, whose runs it notes turn by turn, and on hp_core. It promises that a summary counts exactly the runs that it is
//! of, each by its own facts, and that it is written as it is spelled. It knows no conditions and no words of a command line.
#![tactic(auto)]

mod facts;
mod gathering;
mod noting;
mod phases;
mod summary;
mod summary_text;
mod tally;

pub use facts::RunFacts;
pub use gathering::Survey;
pub use summary::{Summary, summarize};
pub use summary_text::{push_calls, write_summary};
pub use tally::Ending;
