//! Every state that a system can reach, layer by layer.
//!
//! It stands on hp_workers alone, and knows of a system only what its `Turns` say. Layer n has states that are reached in exactly n
//! turns, and for each state that is so reached one that is as good: what comes after the one comes after the other, and equal keys make
//! two states as good as each other. So what no layer has is never met, and what a layer has first is met by no shorter run. It keeps two
//! layers at a time, and ends where one is empty, or where its limits run out.
#![tactic(auto)]

mod alone;
mod counting;
mod ending;
mod layer;
mod limits;
mod parts;
mod progress;
mod searching;
mod turns;
mod verdict;

pub use alone::search_alone;
pub use counting::RunCounts;
pub use ending::{EndingTable, Ends, endings};
pub use limits::Limits;
pub use progress::Progress;
pub use searching::search;
pub use turns::Turns;
pub use verdict::Verdict;

#[cfg(test)]
mod tests;
