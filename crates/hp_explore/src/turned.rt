//! What a turn made.
use hp_base::Event;
use hp_core::Outcome;

/// The event of a turn, and what came of it.
#[derive(Clone, Copy, Debug, PartialEq, Eq)]
pub struct Turned {
    pub event: Event,
    pub outcome: Outcome,
}
