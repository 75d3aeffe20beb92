//! Where a frame is.

/// Where a frame is: what contracts see of the record that a bank keeps of it.
#[derive(Clone, Copy, Debug, PartialEq, Eq)]
pub enum FrameState {
    Free,
    /// In a call's hand: taken, or evicted from a page cache.
    Hand,
    /// A page of a file, with its word.
    Placed(u64),
    /// Not there until the pool grows again.
    Retired,
}
