//! How far a search goes.

/// How far a search goes.
#[derive(Clone, Copy, Debug, PartialEq, Eq)]
pub struct Limits {
    /// Only states that are reached in fewer turns than this are looked at.
    pub turns: u32,
    /// A layer and the one behind it have so many states together at most.
    pub states: usize,
    /// And they take so many bytes together at most, by what `Turns::bytes` says; or as many as there are.
    pub bytes: Option<u64>,
}
