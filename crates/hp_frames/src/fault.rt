//! Why a bank refuses.
use thiserror::Error;

/// Why a bank refuses.
#[derive(Clone, Copy, Debug, PartialEq, Eq, Error)]
pub enum Fault {
    /// More pages were to be reserved than are free and unreserved.
    #[error("too few unreserved frames are free")]
    Short,
    /// Every free frame is reserved.
    #[error("no unreserved frame is free")]
    NoFrame,
    /// More pages would be used than the quota allows.
    #[error("the quota of pages is used up")]
    Quota,
}
