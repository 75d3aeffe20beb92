//! How far a search is.

/// Who is told how far a search is. It changes nothing of what comes of it.
pub trait Progress {
    /// So many states are kept of those that are reached in exactly so many turns, and take so many bytes; they are looked at next.
    fn layer(&mut self, turns: u32, states: usize, bytes: u64);
}
