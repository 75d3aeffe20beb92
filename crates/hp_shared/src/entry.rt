//! What a journal keeps of a hold.
use hp_base::Event;
use hp_machine::Outcome;

/// A hold that changed the pool: its place among all such holds, counted from 0, and what happened. A hold whose event
/// was blocked or refused changed nothing and is no entry.
#[derive(Clone, Copy, Debug, PartialEq, Eq)]
pub struct Entry {
    pub position: u64,
    pub event: Event,
    pub outcome: Outcome,
}
