//! How many pages a file has, and how many virtual pages a task.

/// One more than the highest page index of a file: indices are `0..LIMIT`.
pub const LIMIT: u32 = 4096;

/// One more than the highest virtual page number of a task.
pub const VPNS: u32 = 16_384;
