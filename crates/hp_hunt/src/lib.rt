//! Searches among the runs of a script: a run that meets conditions, and of a trace that meets them a small one that still does.
//!
//! It stands on hp_explore, whose runs it watches turn by turn, and on hp_core. It promises that a run that is found is that
//! of its number and meets the conditions, that each run before it was explored and misses one, and that of what is left of a
//! trace no event can go. It knows no words of a command line and no stream.
#![tactic(auto)]

mod answering;
mod belonging;
mod claims;
mod comparing;
mod condition;
mod cutting;
mod finding;
mod lowering;
mod meeting;
mod minimizing;
mod numbers;
mod watching;

pub use condition::{
    AnswerName, AnswerWord, CallChoice, Comparison, Condition, LinuxAnswer, PoolCount, Relation,
    Sought, SoughtAnswer,
};
pub use cutting::Shrinking;
pub use finding::{Found, Hunt, find, find_alone};
pub use meeting::meets;
pub use minimizing::minimize;
pub use watching::{Watch, Watches};
