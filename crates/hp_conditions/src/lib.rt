//! Conditions as text: the values of the options of `hugepool find` and `hugepool minimize`, and whole texts with a line for each.
//!
//! It stands on hp_hunt, which says what it is to meet a condition, and on hp_text, hp_phases and hp_watch for words and lines. It promises
//! that what is read is what the tables of `specs/` (`Words.antt`, `Sought.antt`, `Lines.antt`) say of the text, and that of a text with a
//! bad line the first is named. It knows no command line, and no run.
#![tactic(auto)]

mod alternatives;
mod counts;
mod kind;
mod lines;
mod numbers;
mod pieces;
mod sought;
mod words;

pub use alternatives::{at_rest, must_rest, next_choice, push_alternatives};
pub use kind::Kind;
pub use lines::{ConditionsFault, MOST_LINES, read_conditions};
