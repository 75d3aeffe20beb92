//! What a search found.

/// What a search found.
#[derive(Debug, Drop)]
pub enum Verdict<S> {
    /// No state that is reached, in however many turns, meets what is looked for.
    Never,
    /// This state meets it and is reached in exactly so many turns. None that is reached in fewer turns meets it.
    Met { state: S, turns: u32 },
    /// The limits ran out. None that is reached in fewer turns than so many meets it.
    Cut { turns: u32 },
}
