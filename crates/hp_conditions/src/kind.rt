//! The options that say conditions.

/// An option that says conditions. Its value may have several alternatives.
#[derive(Clone, Copy, Debug, PartialEq, Eq)]
pub enum Kind {
    /// A step ends a call with an answer.
    Answer,
    /// The same, and behind that step the pool stands so.
    At,
    /// A task waits for another.
    Blocked,
    /// Two tasks' calls stand in these phases.
    Meet,
    /// At the end the pool stands so.
    Final,
}
