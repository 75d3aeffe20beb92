//! A search among all schedules of a script, place by place.
//!
//! It stands on hp_every, which says what a schedule is and proves that places with equal words have equal futures, and on hp_layers, which
//! goes through whatever can be reached, layer by layer. It promises that where it says never no schedule meets the conditions, that a
//! schedule that it finds is a shortest that does, and that a table of endings has each, with how many schedules end so. It keeps the turns
//! of each schedule, and makes them again. It knows no stream.
#![tactic(auto)]

mod alone;
mod answers;
mod closing;
mod eager;
mod endings;
mod exploring;
mod finding;
mod following;
mod growth;
mod key;
mod path;
mod position;
mod private;
mod query;
mod reachability;

pub use alone::find_every_alone;
pub use endings::{EndingRow, EndingRows};
pub use exploring::explore_every;
pub use finding::{Budget, find_every};
pub use reachability::Reachability;

#[cfg(test)]
mod tests;
